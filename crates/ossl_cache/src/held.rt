//! An answer in a place, with the mark of its key.

ghost use Rattle.std.specs.Prelude.{◌≡◌};
ghost use Rattle.ossl_cache.specs.Recent.{same_key};
ghost use Rattle.ossl_cache.specs.Marks.{mark_of};

use crate::key::{Kept, Key};
use crate::mark::mark_of;
use std::marker::Model;

/// A key with what answered it.
#[derive(Drop)]
pub struct Held {
    mark: u64,
    key: Key,
    kept: Kept,
}

impl Model for Held {
    ghost use Rattle.std.specs.Prelude.{◌≡◌};
    ghost use Rattle.ossl_cache.specs.Recent.{Answer};
    ghost use Rattle.ossl_cache.specs.Marks.{mark_of};

    ghost Value = { Answer };

    ghost view = { λ h. (h.key, h.kept) };

    ghost invariant = { λ h. h.mark ≡ mark_of h.key };
}

impl Held {
    pub fn new(key: Key, kept: Kept) -> Held
        ensures { result ≡ (key, kept) }
    {
        Held {
            mark: mark_of(&key),
            key,
            kept,
        }
    }

    pub fn key(&self) -> &Key
        ensures { result.now ≡ self.now.0 }
    {
        &self.key
    }

    pub fn kept(&self) -> Kept
        ensures { result ≡ self.now.1 }
    {
        self.kept
    }

    /// Whether a key with this mark is the one that is held: a whole comparison only where the marks agree.
    #[inline(always)]
    pub fn is_of(&self, key: &Key, mark: u64) -> bool
        requires { mark ≡ mark_of key.now }
        ensures { result ≡ same_key key.now self.now.0 }
    {
        self.mark == mark && key.is_same(&self.key)
    }

    /// Whether two hold answers of one key.
    pub fn is_same(&self, other: &Held) -> bool
        ensures { result ≡ same_key other.now.0 self.now.0 }
    {
        self.is_of(&other.key, other.mark)
    }
}
