//! The printed form of a list: its items in order, joined by `,` without spaces.

ghost use Rattle.std.specs.Prelude.{◌≡◌, ℕ, ◌++◌, ◌∷◌, [], List, map, OnOk, IfOk, if◌then◌else◌};
ghost use Rattle.std.specs.Fmt.{signed_decimal};
ghost use Rattle.std.specs.List.{join_with_byte};
ghost use Rattle.ossl_property.specs.Grammar.{asked};
ghost use Rattle.ossl_property.specs.Printed.{stands_bare, quote_of, printed_string, printed_value, printed_parts};
ghost use Rattle.ossl_property.specs.Printed.{printed_clause};

use crate::clause::{Clause, Property, Relation, Value};
use crate::word::{Class, is_all};
use ossl_base::text::Text;
use std::alloc::{AllocError, Global};

/// What a list prints.
pub trait Item {
    /// Its printed form.
    ghost printed: { Self → List ℕ };

    /// Appends the printed form.
    fn put(&self, alloc: Global, out: &mut Vec<u8>) -> Result<(), AllocError>
        ensures { OnOk result (out.new.items ≡ out.old.items ++ printed self.now) };
}

impl Item for Clause {
    ghost printed = { printed_clause };

    fn put(&self, alloc: Global, out: &mut Vec<u8>) -> Result<(), AllocError> {
        put_parts(
            alloc,
            out,
            self.optional,
            self.name.as_slice(),
            self.relation,
            &self.value,
        )
    }
}

impl Item for Property {
    ghost printed = { λ property. printed_clause (asked property) };

    fn put(&self, alloc: Global, out: &mut Vec<u8>) -> Result<(), AllocError> {
        put_parts(
            alloc,
            out,
            false,
            self.name.as_slice(),
            Relation::Equal,
            &self.value,
        )
    }
}

/// The items joined by `,`.
pub fn printed<I: Item>(alloc: Global, items: &[I]) -> Result<Text, AllocError>
    ensures { IfOk result (λ text. text ≡ join_with_byte 44 (map I.printed items.now)) }
{
    let mut out = Vec::new(alloc);
    let mut is_first = true;
    for item in items {
        put_next(alloc, &mut out, is_first, item)?;
        is_first = false;
    }
    Ok(Text::of(out))
}

/// Appends an item, behind a `,` unless it is the first.
fn put_next<I: Item>(
    alloc: Global,
    out: &mut Vec<u8>,
    is_first: bool,
    item: &I,
) -> Result<(), AllocError>
    ensures { OnOk result (out.new.items ≡ out.old.items ++ (if is_first then [] else 44 ∷ []) ++ I.printed item.now) }
{
    if !is_first {
        out.push(b',')?;
    }
    item.put(alloc, out)
}

fn put_parts(
    alloc: Global,
    out: &mut Vec<u8>,
    optional: bool,
    name: &[u8],
    relation: Relation,
    value: &Value,
) -> Result<(), AllocError>
    ensures { OnOk result (out.new.items ≡ out.old.items ++ printed_parts optional name.now relation value.now) }
{
    match relation {
        Relation::Remove => {
            out.push(b'-')?;
            out.extend_from_slice(name)
        }
        Relation::Equal => {
            put_name(out, optional, name)?;
            out.push(b'=')?;
            put_value(alloc, out, value)
        }
        Relation::Differ => {
            put_name(out, optional, name)?;
            out.extend_from_slice(b"!=")?;
            put_value(alloc, out, value)
        }
    }
}

/// `?` where optional, and the name.
fn put_name(out: &mut Vec<u8>, optional: bool, name: &[u8]) -> Result<(), AllocError>
    ensures { OnOk result (out.new.items ≡ out.old.items ++ (if optional then 63 ∷ [] else []) ++ name.now) }
{
    if optional {
        out.push(b'?')?;
    }
    out.extend_from_slice(name)
}

fn put_value(alloc: Global, out: &mut Vec<u8>, value: &Value) -> Result<(), AllocError>
    ensures { OnOk result (out.new.items ≡ out.old.items ++ printed_value value.now) }
{
    match value {
        Value::Number(number) => put_number(alloc, out, *number),
        Value::Text(text) => put_string(out, text.as_slice()),
    }
}

fn put_number(alloc: Global, out: &mut Vec<u8>, number: i64) -> Result<(), AllocError>
    ensures { OnOk result (out.new.items ≡ out.old.items ++ signed_decimal number) }
{
    let text = number.to_string(alloc)?;
    out.extend_from_slice(text.as_bytes())
}

fn stands_bare(text: &[u8]) -> bool
    ensures { result ≡ stands_bare text.now }
{
    match text {
        [] => false,
        [first, ..] => first.is_ascii_lowercase() && is_all(Class::Kept, text),
    }
}

/// `'`, or `"` where the string holds a `'`.
fn quote_of(text: &[u8]) -> u8
    ensures { result ≡ quote_of text.now }
{
    if is_all(Class::Within(b'\''), text) {
        b'\''
    } else {
        b'"'
    }
}

fn put_string(out: &mut Vec<u8>, text: &[u8]) -> Result<(), AllocError>
    ensures { OnOk result (out.new.items ≡ out.old.items ++ printed_string text.now) }
{
    if stands_bare(text) {
        return out.extend_from_slice(text);
    }
    let quote = quote_of(text);
    out.push(quote)?;
    out.extend_from_slice(text)?;
    out.push(quote)?;
    Ok(())
}
