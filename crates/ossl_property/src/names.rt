//! The names that a text or a query has, in a sorted set.

ghost use Rattle.std.specs.Prelude.{◌≡◌, ℕ, ◌||◌, List, not, false, IfOk};
ghost use Rattle.std.specs.Str.{bytes_eq};
ghost use Rattle.ossl_property.specs.Names.{has};

use std::alloc::{AllocError, Global};
use std::collections::BTreeSet;

#[derive(Drop)]
pub struct Names {
    pub kept: BTreeSet<Vec<u8>>,
}

impl Names {
    pub fn new(alloc: Global) -> Names
        ensures { (name : List ℕ) → has result name ≡ false }
    {
        Names {
            kept: BTreeSet::new(alloc),
        }
    }

    pub fn contains(&self, name: &[u8]) -> bool
        ensures { result ≡ has self.now name.now }
    {
        self.kept.contains(name)
    }

    /// Adds a name, and says whether it is new.
    pub fn insert(&mut self, alloc: Global, name: &[u8]) -> Result<bool, AllocError>
        ensures added { IfOk result (λ added. added ≡ not (has self.old name.now)) }
        ensures names { IfOk result
            (λ added. (other : List ℕ) → has self.new other ≡ (has self.old other || bytes_eq name.now other)) }
    {
        let key = Vec::from_slice(alloc, name)?;
        Ok(self.kept.insert(key)?)
    }
}
