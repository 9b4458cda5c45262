ghost use Rattle.std.specs.Prelude.{◌≡◌, ◌↔◌, IsTrue};
ghost use Rattle.ossl_cache.specs.Recent.{asks_for, same_key};

use ossl_codes::{Code, Operation};
use ossl_names::Number;
use ossl_property::Query;

/// What a fetch asked for: an operation, the number of a name, and the query as it was given.
#[derive(Drop)]
pub struct Key {
    pub op: Operation,
    pub number: Number,
    pub query: Query,
}

/// What answered it: an instance, the index of its row, from 0, and the row's code.
#[derive(Debug, Clone, Copy, PartialEq, Eq)]
pub struct Kept {
    pub instance: u64,
    pub row: u64,
    pub code: Code,
}

impl Key {
    /// Whether two keys ask for the same. No memory.
    #[inline(never)]
    pub fn is_same(&self, other: &Key) -> bool
        ensures test { result ≡ same_key self.now other.now }
        ensures equal { IsTrue result ↔ (self.now ≡ other.now) }
    {
        self.asks_for(other.op, other.number) && self.query.is_same(&other.query)
    }

    /// Whether the key asks for this operation and number.
    pub(crate) fn asks_for(&self, op: Operation, number: Number) -> bool
        ensures { result ≡ asks_for op number self.now }
    {
        self.op == op && self.number == number
    }
}
