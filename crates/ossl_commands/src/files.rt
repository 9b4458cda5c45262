//! The files that a batch names.

ghost use Rattle.std.specs.Prelude.{◌≡◌, [], IfOk, OnOk};
ghost use Rattle.ossl_commands.specs.Words.{place_of, with_file};

use ossl_base::text::Text;
use std::alloc::{AllocError, Global};
use std::collections::BTreeMap;
use std::marker::Model;

/// Files by their names, each once, in the order of their first naming. A name is found in time by its length and the
/// logarithm of how many there are, whatever the names are.
#[derive(Drop)]
pub struct NamedFiles {
    names: Vec<Text>,
    places: BTreeMap<Vec<u8>, u64>,
}

impl Model for NamedFiles {
    ghost use Rattle.std.specs.Prelude.{◌≡◌, ℕ, List};
    ghost use Rattle.ossl_commands.specs.Named.{found, found_among};

    ghost Value = { List (List ℕ) };

    ghost view = { λ f. f.names.items };

    ghost invariant = { λ f. (name : List ℕ) → found f.places name ≡ found_among f.names.items name };
}

impl NamedFiles {
    /// No files.
    pub fn new(alloc: Global) -> NamedFiles
        ensures empty { result ≡ [] }
    {
        NamedFiles {
            names: Vec::new(alloc),
            places: BTreeMap::new(alloc),
        }
    }

    /// The place of the file of this name, which is among the files from now on.
    pub fn place(&mut self, alloc: Global, name: &[u8]) -> Result<u64, AllocError>
        ensures place { IfOk result (λ place. place ≡ place_of self.old name.now) }
        ensures named { OnOk result (self.new ≡ with_file self.old name.now) }
    {
        if let Some(place) = self.places.get(name) {
            return Ok(*place);
        }
        let place = self.names.len() as u64;
        let text = Text::of(Vec::from_slice(alloc, name)?);
        let key = Vec::from_slice(alloc, name)?;
        self.names.reserve(1)?;
        self.places.insert(key, place)?;
        self.names.push_reserved(text);
        Ok(place)
    }

    /// Their names.
    pub fn into_names(self) -> Vec<Text>
        ensures names { result.items ≡ self }
    {
        self.names
    }
}
