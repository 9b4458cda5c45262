//! What threads can share: an object that keeps a history of its answered calls.
ghost use Rattle.std.specs.Prelude.{◌≡◌, ℕ, List, [], ◌∷◌, ◌++◌, IfOk, OnErr, IsOk};
ghost use Rattle.ossl_base.specs.declared.entry.Entry.{Entry};
ghost use Rattle.ossl_turn.specs.History.{own_of, entry_of};

use std::alloc::AllocError;

/// A sequential object. An answered call appends one entry to its history, and a call that finds no memory appends
/// none.
pub trait Object: Send {
    /// What is asked of it.
    type Call;

    /// What it answers.
    type Reply;

    // What no call changes.
    ghost Fixed: { Type 0 };

    ghost fixed: { Self → Fixed };

    // The answered calls so far.
    ghost history: { Self → List (Entry Self.Call Self.Reply) };

    // The object's own law: whether an entry may follow a history.
    ghost follows: { Fixed → List (Entry Self.Call Self.Reply) → Entry Self.Call Self.Reply → Type 0 };

    // The condition of a call. It speaks of the fixed part and of the caller's own entries alone.
    ghost may_call: { Fixed → List (Entry Self.Call Self.Reply) → Self.Call → Type 0 };

    // Whether this call of this caller, in this state, never wants memory.
    ghost needs_no_memory: { Self → ℕ → Self.Call → Type 0 };

    /// Makes one call for the caller of this number.
    fn apply(&mut self, caller: u64, call: &Self::Call) -> Result<Self::Reply, AllocError>
        requires { may_call (fixed self.old) (own_of caller (history self.old)) call.now }
        ensures fixed { fixed self.new ≡ fixed self.old }
        ensures answered { IfOk result (λ r. history self.new ≡ history self.old ++ entry_of caller call.now r ∷ []) }
        ensures lawful { IfOk result (λ r. follows (fixed self.old) (history self.old) (entry_of caller call.now r)) }
        ensures refused { OnErr result (history self.new ≡ history self.old) }
        ensures memory { needs_no_memory self.old caller call.now → IsOk result };
}
