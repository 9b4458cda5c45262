ghost use Rattle.std.specs.Prelude.{◌≡◌, ◌<◌, ◌≤◌, [], None, All, map, length, IfOk, OnOk, OnErr};
ghost use Rattle.ossl_names.specs.Name.{folded};
ghost use Rattle.ossl_names.specs.Index.{found, is_found, new_names, FindsAlso, FindsSame, FindsNot, AreNew};

use crate::name::LONGEST_NAME;
use crate::refusal::Number;
use ossl_base::Text;
use std::alloc::{AllocError, Global};
use std::collections::BTreeMap;

/// Names in lower case and in order, each with its number.
pub type Index = BTreeMap<Vec<u8>, Number>;

/// The number of a name, whatever its case.
pub fn look_up(index: &Index, name: &[u8]) -> Option<Number>
    ensures long { LONGEST_NAME < length name.now → result ≡ None }
    ensures value { length name.now ≤ LONGEST_NAME → result ≡ found index.now (folded name.now) }
{
    if name.len() > LONGEST_NAME {
        return None;
    }
    let mut lower = [0; LONGEST_NAME];
    for (i, byte) in name.iter().enumerate() {
        lower[i] = byte.to_ascii_lowercase();
    }
    index.get(&lower[..name.len()]).copied()
}

/// Gives a number to each name that the index lacks, and returns these names, each once, in lower case.
/// Where memory ends, the index finds what it found.
pub fn join(
    alloc: Global,
    index: &mut Index,
    names: &[&[u8]],
    number: Number,
) -> Result<Vec<Text>, AllocError>
    requires { All (λ name. length name.now ≤ LONGEST_NAME) names.now }
    ensures new { IfOk result
        (λ fresh. fresh.items ≡ new_names (is_found index.old) (map (λ name. name.now) names.now)) }
    ensures finds { IfOk result (λ fresh. FindsAlso index.old index.new fresh.items number) }
    ensures unknown { IfOk result (λ fresh. AreNew index.old fresh.items) }
    ensures err { OnErr result (FindsSame index.old index.new) }
{
    let mut fresh = Vec::new(alloc);
    match join_each(alloc, index, names, number, &mut fresh) {
        Ok(()) => Ok(fresh),
        Err(error) => {
            leave(index, &fresh);
            Err(error)
        }
    }
}

// After an error, the names that joined are those of `fresh`.
fn join_each(
    alloc: Global,
    index: &mut Index,
    names: &[&[u8]],
    number: Number,
    fresh: &mut Vec<Text>,
) -> Result<(), AllocError>
    requires short { All (λ name. length name.now ≤ LONGEST_NAME) names.now }
    requires none { fresh.old.items ≡ [] }
    ensures new { OnOk result (fresh.new.items ≡ new_names (is_found index.old) (map (λ name. name.now) names.now)) }
    ensures finds { FindsAlso index.old index.new fresh.new.items number }
    ensures unknown { AreNew index.old fresh.new.items }
{
    for name in names {
        if look_up(index, name).is_none() {
            let lower = Text::of(name.to_ascii_lowercase(alloc)?);
            let key = name.to_ascii_lowercase(alloc)?;
            fresh.reserve(1)?;
            index.insert(key, number)?;
            fresh.push_reserved(lower);
        }
    }
    Ok(())
}

/// Takes names out of the index.
pub fn leave(index: &mut Index, names: &[Text])
    ensures { FindsNot index.old index.new names.now }
{
    for name in names {
        index.remove(name.as_slice());
    }
}
