//! The sections that were read so far.

ghost use Rattle.std.specs.Prelude.{IsTrue};
ghost use Rattle.ossl_conf.specs.Rows.{are_placed, names_of, rows_of};

use indexmap::{IndexMap, IndexSet};
use ossl_base::Text;
use smallvec::SmallVec;
use std::alloc::{AllocError, Global};

/// A name in a section. Most names have at most 16 bytes, which need no memory of their own.
pub(crate) type Name = SmallVec<u8, 16>;

/// Sections, each a list of names and values, in the order in which they were first set. Look-ups take time by the
/// names' lengths, and not by how many there are.
#[derive(Drop)]
pub(crate) struct SectionMap {
    pub names: IndexSet<Vec<u8>>,
    /// Each value by its section's place among the names, and by its name there.
    pub values: IndexMap<(usize, Name), Text>,
    ghost placed: { IsTrue (are_placed (names_of names.keys) (rows_of values.entries)) },
}

impl SectionMap {
    ghost use Rattle.std.specs.Prelude.{◌≡◌, [], Some, IfOk, OnOk};
    ghost use Rattle.std.specs.Option.{option_copied};
    ghost use Rattle.ossl_conf.specs.Sections.{found, with_section, with_value};
    ghost use Rattle.ossl_conf.specs.Places.{entries_at, name_at, place_of, Stays};
    ghost use Rattle.ossl_conf.specs.Kept.{all_sections};

    /// No sections.
    pub fn new(alloc: Global) -> SectionMap
        ensures { all_sections result ≡ [] }
    {
        SectionMap {
            names: IndexSet::new(alloc),
            values: IndexMap::new(alloc),
        }
    }

    /// Where a section stands among all, if it is there.
    pub fn place_of(&self, name: &[u8]) -> Option<usize>
        ensures { result ≡ place_of (all_sections self.now) name.now }
    {
        self.names.get_index_of(name)
    }

    /// Opens a section, and says where it stands. Every other section stays where it is.
    pub fn open(&mut self, alloc: Global, name: &[u8]) -> Result<usize, AllocError>
        ensures sections { OnOk result (all_sections self.new ≡ with_section name.now (all_sections self.old)) }
        ensures place { IfOk result (λ at. place_of (all_sections self.new) name.now ≡ Some at) }
        ensures others { Stays (all_sections self.old) (all_sections self.new) }
    {
        if let Some(at) = self.names.get_index_of(name) {
            return Ok(at);
        }
        let (at, _) = self.names.insert_full(Vec::from_slice(alloc, name)?)?;
        Ok(at)
    }

    /// Sets a name in the section at a place. Every section stays where it is.
    pub fn set(&mut self, at: usize, name: Name, value: Text) -> Result<(), AllocError>
        requires { let sections = all_sections self.old in place_of sections (name_at sections at) ≡ Some at }
        ensures sections { OnOk result (let sections = all_sections self.old in
            all_sections self.new ≡ with_value (name_at sections at) name.items value sections) }
        ensures others { Stays (all_sections self.old) (all_sections self.new) }
    {
        self.values.insert((at, name), value)?;
        Ok(())
    }

    /// The value of a name in the section at a place, if it is set there.
    pub fn value(&self, alloc: Global, at: usize, name: &[u8]) -> Result<Option<&[u8]>, AllocError>
        ensures { IfOk result (λ value. option_copied value ≡ found name.now (entries_at (all_sections self.now) at)) }
    {
        let key = (at, Name::from_slice(alloc, name)?);
        match self.values.get(&key) {
            Some(value) => Ok(Some(value.as_slice())),
            None => Ok(None),
        }
    }
}
