//! What a worker does: the calls of its lines, and then those that give back.

ghost use Rattle.std.specs.Prelude.{◌≡◌, [], true, false, IsTrue, OnOk};
ghost use Rattle.ossl_calls.specs.Registry.{fixed_of, takes_no_memory};
ghost use Rattle.ossl_core.specs.Answered.{IsAnswered, IsStillOf};
ghost use Rattle.ossl_core.specs.Owned.{OwnsNothing};
ghost use Rattle.ossl_script.specs.View.{GoesOn, back_of};
ghost use Rattle.ossl_state.specs.declared.call.Reply.{Reply};
ghost use Rattle.ossl_state.specs.declared.state.State.{State};
ghost use Rattle.ossl_state.specs.History.{IsAllowed};
ghost use Rattle.ossl_turn.specs.Passes.{CameFrom};
ghost use Rattle.ossl_worker.specs.Work.{HasMade, IsLegalOf, IsSameScript, IsWithin};

use crate::gate::Gate;
use ossl_core::Caller;
use ossl_provider::provider::Provider;
use ossl_registry::Registry;
use ossl_script::{Next, ScriptCaller};
use ossl_state::Call;
use ossl_turn::Shared;
use std::alloc::AllocError;
use std::sync::Wait;

/// Makes the calls of the lines, up to their end, or up to a refusal of memory.
pub fn do_lines<R: Wait, P: Provider + Send, G: Gate>(
    rt: &R,
    shared: &Shared<Registry<P>>,
    gate: &G,
    number: u64,
    caller: &mut Caller<P>,
    script: &mut ScriptCaller,
) -> Result<(), AllocError>
    requires from { CameFrom shared.now caller.old }
    requires legal { IsLegalOf (fixed_of P.facts shared.now.origin) caller.old.number caller.old.own }
    requires goes { GoesOn script.old false }
    requires within { IsWithin shared.now.origin.contexts script.old }
    requires made { HasMade script.old caller.old.own }
    ensures from { IsStillOf shared.now caller.old caller.new }
    ensures legal { IsLegalOf (fixed_of P.facts shared.now.origin) caller.new.number caller.new.own }
    ensures same { IsSameScript script.old script.new }
    ensures keeps { script.new.given ≡ [] }
    ensures made { HasMade script.new caller.new.own }
    ensures ended { OnOk result (script.new.ended ≡ true) }
{
    'calls: for _ in 0..u64::MAX {
        match script.next_call()? {
            Next::Call { line: _, call } => {
                gate.before(number);
                let reply = caller.perform(rt, shared, &call)?;
                script.take_reply(reply)?;
            }
            Next::End => return Ok(()),
        }
    }
    // No history has as many entries as a number of 64 bits can count.
    Err(AllocError)
}

/// Makes a call that takes no memory.
fn make<R: Wait, P: Provider + Send, G: Gate>(
    rt: &R,
    shared: &Shared<Registry<P>>,
    gate: &G,
    number: u64,
    caller: &mut Caller<P>,
    call: &Call,
)
    requires from { CameFrom shared.now caller.old }
    requires allowed { IsAllowed (fixed_of P.facts shared.now.origin) caller.old.own call.now }
    requires memory { (s : State) → IsTrue (takes_no_memory s call.now) }
    ensures from { IsStillOf shared.now caller.old caller.new }
    ensures answered { (reply : Reply)
        × IsAnswered (fixed_of P.facts shared.now.origin) caller.old caller.new call.now reply }
{
    gate.before(number);
    match caller.perform(rt, shared, call) {
        Ok(_) => {}
        Err(_) => unreachable!(),
    }
}

/// Gives back all that the caller holds, the newest token first. It takes no memory.
pub fn give_back<R: Wait, P: Provider + Send, G: Gate>(
    rt: &R,
    shared: &Shared<Registry<P>>,
    gate: &G,
    number: u64,
    caller: &mut Caller<P>,
    script: &mut ScriptCaller,
)
    requires from { CameFrom shared.now caller.old }
    requires legal { IsLegalOf (fixed_of P.facts shared.now.origin) caller.old.number caller.old.own }
    requires keeps { script.old.given ≡ [] }
    requires made { HasMade script.old caller.old.own }
    ensures from { IsStillOf shared.now caller.old caller.new }
    ensures script { script.new ≡ record script.old { given = back_of script.old } }
    ensures made { HasMade script.new caller.new.own }
    ensures nothing { OwnsNothing caller.new.own }
{
    while let Some(call) = script.give_back() {
        make(rt, shared, gate, number, caller, &call);
    }
}
