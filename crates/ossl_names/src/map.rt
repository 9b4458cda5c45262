ghost use Rattle.std.specs.Prelude.{◌≡◌, ◌≤◌, ℕ, ◌⊎◌, [], None, Some, Ok, Err, List, length, map, IfOk, IfSome, OnOk};
ghost use Rattle.std.specs.Prelude.{OnErr};

use crate::index::{Index, join, leave, look_up};
use crate::name::{is_name, names_in};
use crate::refusal::{AddRefused, Number};
use ossl_base::Text;
use std::alloc::{AllocError, Global};
use std::collections::BTreeMap;
use std::marker::Model;

/// Groups of names that mean the same, numbered from 1. Names are compared without ASCII case.
#[derive(Drop)]
pub struct NameMap {
    groups: Vec<Vec<Text>>,
    index: Index,
    alloc: Global,
}

impl Model for NameMap {
    ghost use Rattle.std.specs.Prelude.{map};
    ghost use Rattle.ossl_names.specs.Groups.{Groups};
    ghost use Rattle.ossl_names.specs.Index.{IsIndexed};

    ghost Value = { Groups };

    ghost view = { λ names. map (λ group. group.items) names.groups.items };

    ghost invariant = { λ names. IsIndexed (map (λ group. group.items) names.groups.items) names.index };
}

impl NameMap {
    ghost use Rattle.ossl_names.specs.Name.{names_in};
    ghost use Rattle.ossl_names.specs.Groups.{number_of, group_of, with_names, KeepsNumbers, IsNumber};
    ghost use Rattle.ossl_names.specs.Addition.{number_for, addition, groups_after};

    /// No names. It takes no memory, and keeps the allocator.
    pub fn new(alloc: Global) -> NameMap
        ensures empty { result ≡ [] }
    {
        NameMap {
            groups: Vec::new(alloc),
            index: BTreeMap::new(alloc),
            alloc,
        }
    }

    /// Adds the names of a text, which `:` joins, as one group: a new one where none is known, and else the one that
    /// has all the known names. A number, once given, stays the number of its names.
    pub fn add(&mut self, names: &[u8]) -> Result<Number, AddRefused>
        ensures answer { (result ≡ Err AddRefused.NoMemory) ⊎ (result ≡ addition self.old names.now) }
        ensures groups { OnOk result (self.new ≡ groups_after self.old names.now) }
        ensures refused { OnErr result (self.new ≡ self.old) }
        ensures kept { KeepsNumbers self.old self.new }
        ensures there { IfOk result (λ number. IsNumber self.new number) }
    {
        let names = names_in(self.alloc, names)?;
        let number = self.number_for(&names)?;
        self.enter(&names, number)?;
        Ok(number)
    }

    /// An equal map.
    pub fn copy(&self) -> Result<NameMap, AllocError>
        ensures equal { IfOk result (λ copied. copied ≡ self.now) }
    {
        Ok(NameMap {
            groups: copy_groups(self.alloc, &self.groups)?,
            index: self.index.clone()?,
            alloc: self.alloc,
        })
    }

    /// The number of the group that has the name.
    pub fn number(&self, name: &[u8]) -> Option<Number>
        ensures number { result ≡ number_of self.now name.now }
        ensures there { IfSome result (IsNumber self.now) }
    {
        look_up(&self.index, name)
    }

    /// The names of a group, in the order in which they joined, in lower case.
    pub fn names(&self, number: Number) -> &[Text]
        requires there { IsNumber self.now number }
        ensures group { result.now ≡ group_of self.now number }
    {
        self.groups[(number - 1) as usize].as_slice()
    }

    // The number that names are to get.
    fn number_for(&self, names: &[&[u8]]) -> Result<Number, AddRefused>
        ensures { result ≡ number_for self.now (map (λ name. name.now) names.now) }
    {
        if !names.iter().all(|name| is_name(name)) {
            return Err(AddRefused::BadName);
        }
        let mut first = None;
        for name in names {
            if let Some(number) = self.number(name) {
                match first {
                    None => first = Some(number),
                    Some(known) => {
                        if known != number {
                            return Err(AddRefused::Conflict {
                                first: known,
                                second: number,
                            });
                        }
                    }
                }
            }
        }
        Ok(first.unwrap_or(self.groups.len() as Number + 1))
    }

    // Has names join the group of the number that they are to get.
    fn enter(&mut self, names: &[&[u8]], number: Number) -> Result<(), AllocError>
        requires { number_for self.old (map (λ name. name.now) names.now) ≡ Ok number }
        ensures ok { OnOk result (self.new ≡ with_names self.old number (map (λ name. name.now) names.now)) }
        ensures err { OnErr result (self.new ≡ self.old) }
    {
        let place = (number - 1) as usize;
        if place < self.groups.len() {
            let mut fresh = join(self.alloc, &mut self.index, names, number)?;
            if let Err(error) = self.groups[place].append(&mut fresh) {
                leave(&mut self.index, &fresh);
                return Err(error);
            }
        } else {
            self.groups.reserve(1)?;
            let fresh = join(self.alloc, &mut self.index, names, number)?;
            self.groups.push_reserved(fresh);
        }
        Ok(())
    }
}

fn copy_groups(alloc: Global, groups: &[Vec<Text>]) -> Result<Vec<Vec<Text>>, AllocError>
    ensures { IfOk result
        (λ copied. map (λ group. group.items) copied.items ≡ map (λ group. group.items) groups.now) }
{
    let mut copied = Vec::with_capacity(alloc, groups.len())?;
    for group in groups {
        copied.push(copy_group(alloc, group)?)?;
    }
    Ok(copied)
}

fn copy_group(alloc: Global, group: &[Text]) -> Result<Vec<Text>, AllocError>
    ensures { IfOk result (λ copied. copied.items ≡ group.now) }
{
    let mut copied = Vec::with_capacity(alloc, group.len())?;
    for name in group {
        copied.push(name.copy(alloc)?)?;
    }
    Ok(copied)
}

#[cfg(test)]
mod tests {
    use super::*;
    use std::test::Fail;

    #[test]
    fn names_of_two_groups_conflict(rt: HostRuntime) -> Result<(), Fail> {
        let mut map = NameMap::new(rt.alloc());
        assert_eq!(rt; map.add(b"A:B"), Ok(1));
        assert_eq!(rt; map.add(b"C"), Ok(2));
        assert_eq!(rt;
            map.add(b"B:C"),
            Err(AddRefused::Conflict {
                first: 1,
                second: 2
            })
        );
        assert_eq!(rt; map.number(b"b"), Some(1));
        assert_eq!(rt; map.number(b"C"), Some(2));
        assert_eq!(rt; map.number(b"D"), None);
        Ok(())
    }

    #[test]
    fn new_names_join_the_known_ones_once(rt: HostRuntime) -> Result<(), Fail> {
        let mut map = NameMap::new(rt.alloc());
        assert_eq!(rt; map.add(b"SHA2-256:SHA-256"), Ok(1));
        assert_eq!(rt; map.add(b"sha256:Sha-256:SHA256"), Ok(1));
        let copied = map.copy()?;
        let number = copied.number(b"SHA256").ok_or("unknown")?;
        assert_eq!(rt; number, 1);
        let names = copied.names(number);
        assert_eq!(rt; names.len(), 3);
        assert_eq!(rt; names[0].as_slice(), b"sha2-256".as_slice());
        assert_eq!(rt; names[1].as_slice(), b"sha-256".as_slice());
        assert_eq!(rt; names[2].as_slice(), b"sha256".as_slice());
        Ok(())
    }

    #[test]
    fn a_name_has_1_to_99_visible_bytes(rt: HostRuntime) -> Result<(), Fail> {
        let long = [b'x'; 100];
        let refused: [&[u8]; 7] = [b"", b":", b"a:", b":a", b"a b", b"\x7f", &long];
        for names in refused {
            let mut map = NameMap::new(rt.alloc());
            assert_eq!(rt; map.add(names), Err(AddRefused::BadName));
        }
        let accepted: [&[u8]; 4] = [b"!", b"~", b"SHA2-512/224", &long[..99]];
        for names in accepted {
            let mut map = NameMap::new(rt.alloc());
            assert_eq!(rt; map.add(names), Ok(1));
            assert_eq!(rt; map.number(names), Some(1));
        }
        assert_eq!(rt; NameMap::new(rt.alloc()).number(&long), None);
        Ok(())
    }

    #[test]
    fn thousands_of_rows_take_no_time(rt: HostRuntime) -> Result<(), Fail> {
        let mut map = NameMap::new(rt.alloc());
        for row in 0u64..8192 {
            let names = format!(in rt.alloc(); "Alg-{row}:alias{row}:OID.{row}")?;
            assert_eq!(rt; map.add(names.as_bytes()), Ok(row + 1));
        }
        for row in 0u64..8192 {
            let name = format!(in rt.alloc(); "ALIAS{row}")?;
            assert_eq!(rt; map.number(name.as_bytes()), Some(row + 1));
        }
        Ok(())
    }
}
