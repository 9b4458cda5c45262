//! A counter, the smallest object that is worth sharing.
use ossl_turn::{Entry, Object};
use std::alloc::{AllocError, AllocFailed, Global};
use std::marker::Model;

/// The call: adds so much.
#[derive(Clone, Copy, PartialEq, Eq, Debug)]
pub struct Add(pub u64);

/// A total modulo 2^64, with its history. A clause sees the history alone.
#[derive(Drop)]
pub struct Counter {
    total: u64,
    log: Vec<Entry<Add, u64>, Global>,
}

impl Model for Counter {
    ghost use Rattle.std.specs.Prelude.{◌≡◌, ℕ, List};
    ghost use Rattle.ossl_base.specs.declared.entry.Entry.{Entry};
    ghost use Rattle.turn_counter.specs.declared.counter.Add.{Add};
    ghost use Rattle.turn_counter.specs.Total.{total_of};

    ghost Value = { List (Entry Add ℕ) };

    ghost view = { λ c. c.log.items };

    ghost invariant = { λ c. c.total ≡ total_of c.log.items };
}

impl Counter {
    ghost use Rattle.std.specs.Prelude.{◌≡◌, []};
    ghost use Rattle.turn_counter.specs.Total.{total_of};

    /// Nothing is counted yet. It takes no memory.
    pub fn new(alloc: Global) -> Counter
        ensures { result ≡ [] }
    {
        Counter {
            total: 0,
            log: Vec::new(alloc),
        }
    }

    /// The sum of what was added, modulo 2^64.
    pub fn total(&self) -> u64
        ensures { result ≡ total_of self.now }
    {
        self.total
    }

    /// The answered calls, the oldest first.
    pub fn entries(&self) -> &[Entry<Add, u64>]
        ensures { result.now ≡ self.now }
    {
        self.log.as_slice()
    }
}

impl Object for Counter {
    ghost use Rattle.std.specs.Prelude.{◌≡◌, ◌++◌, ◌∷◌, []};
    ghost use Rattle.turn_counter.specs.Total.{total_of};

    type Call = Add;

    /// The total with this call.
    type Reply = u64;

    ghost Fixed = { Unit {0} };

    ghost fixed = { λ _. tt };

    ghost history = { λ c. c };

    ghost follows = { λ _ before e. e.reply ≡ total_of (before ++ e ∷ []) };

    ghost may_call = { λ _ _ _. Unit {0} };

    ghost needs_no_memory = { λ _ _ _. ⊥ };

    fn apply(&mut self, caller: u64, call: &Add) -> Result<u64, AllocError> {
        let reply = self.total.wrapping_add(call.0);
        let entry = Entry {
            caller,
            call: *call,
            reply,
        };
        if let Err(AllocFailed { value: _ }) = self.log.push(entry) {
            return Err(AllocError);
        }
        self.total = reply;
        Ok(reply)
    }
}
