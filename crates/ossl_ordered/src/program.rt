//! Whatever makes the program's own calls.

ghost use Rattle.std.specs.Prelude.{◌≡◌, ◌++◌, ◌∷◌, [], List, IsTrue, IsOk, IfOk, OnErr};
ghost use Rattle.ossl_base.specs.declared.entry.Entry.{Entry};
ghost use Rattle.ossl_calls.specs.Registry.{takes_no_memory};
ghost use Rattle.ossl_state.specs.declared.call.Call.{Call};
ghost use Rattle.ossl_state.specs.declared.call.Reply.{Reply};
ghost use Rattle.ossl_state.specs.History.{Fixed, IsAllowed, IsLegal, state_after};
ghost use Rattle.ossl_state.specs.Tokens.{entries_of};

use ossl_state::call::{Call, Reply};
use std::alloc::AllocError;

/// Makes calls of a registry for the program itself, which is caller 0.
pub trait Program {
    // What never changes in the registry.
    ghost fixed: { Self → Fixed };

    // The entries so far.
    ghost entries: { Self → List (Entry Call Reply) };

    /// Makes a call, and appends its entry.
    fn call(&mut self, call: &Call) -> Result<Reply, AllocError>
        requires allowed { IsAllowed (fixed self.old) (entries_of 0 (entries self.old)) call.now }
        ensures entry { IfOk result (λ reply.
            entries self.new ≡ entries self.old ++ record { caller = 0; call = call.now; reply = reply } ∷ []) }
        ensures legal { IsLegal (fixed self.new) (entries self.new) }
        ensures fixed { fixed self.new ≡ fixed self.old }
        ensures err { OnErr result (entries self.new ≡ entries self.old) }
        ensures no_memory { IsTrue (takes_no_memory (state_after (fixed self.old)
            (entries self.old)) call.now) → IsOk result };
}
