//! The registry as an object that threads call in turn.
ghost use Rattle.std.specs.Prelude.{◌≡◌, ◌<◌, ◌++◌, ◌∷◌, [], IsTrue, IsOk, IfOk, OnErr};
ghost use Rattle.ossl_state.specs.History.{IsAllowed, IsNext};
ghost use Rattle.ossl_calls.specs.Registry.{fixed_of, state_of, takes_no_memory};
ghost use Rattle.ossl_turn.specs.History.{own_of, entry_of};

use crate::registry::Registry;
use ossl_calls::{Call, Reply};
use ossl_property::Steps;
use ossl_provider::provider::Provider;
use ossl_turn::Object;
use std::alloc::AllocError;
use std::marker::Brand;
use std::sync::ledger::{Blank, Ledger};

/// One call, with a counter of steps that is made for it.
fn apply_counted<P: Provider, L: Ledger>(
    registry: &mut Registry<P>,
    caller: u64,
    call: &Call,
    blank: Blank,
) -> Result<Reply, AllocError>
    requires name { blank.name ≡ L.name }
    requires parts { blank.parts ≡ L.parts }
    requires some { 0 < L.parts }
    requires allowed { IsAllowed (fixed_of P.facts registry.old) (own_of caller registry.old.entries) call.now }
    ensures fixed { fixed_of P.facts registry.new ≡ fixed_of P.facts registry.old }
    ensures answered { IfOk result (λ reply.
        registry.new.entries ≡ registry.old.entries ++ entry_of caller call.now reply ∷ []) }
    ensures next { IfOk result (λ reply.
        IsNext (fixed_of P.facts registry.old) registry.old.entries (entry_of caller call.now reply)) }
    ensures refused { OnErr result (registry.new ≡ registry.old) }
    ensures memory { IsTrue (takes_no_memory (state_of P.facts registry.old) call.now) → IsOk result }
{
    let mut steps = Steps::<L>::new(blank);
    match registry.apply(caller, call, &mut steps) {
        Ok(reply) => Ok(reply),
        Err(AllocError) => Err(AllocError),
    }
}

impl<P: Provider + Send> Object for Registry<P> {
    ghost use Rattle.std.specs.Prelude.{IsTrue};
    ghost use Rattle.ossl_state.specs.History as history;
    ghost use Rattle.ossl_calls.specs.Registry.{fixed_of, state_of, takes_no_memory};

    type Call = Call;

    type Reply = Reply;

    ghost Fixed = { history.Fixed };

    ghost fixed = { λ r. fixed_of P.facts r };

    ghost history = { λ r. r.entries };

    ghost follows = { history.IsNext };

    ghost may_call = { history.IsAllowed };

    ghost needs_no_memory = { λ r _ call. IsTrue (takes_no_memory (state_of P.facts r) call) };

    /// One call, whose counter of steps is its own.
    fn apply(&mut self, caller: u64, call: &Call) -> Result<Reply, AllocError> {
        apply_counted::<P, Brand>(self, caller, call, Blank::new(1))
    }
}
