//! A worker.

ghost use Rattle.std.specs.Prelude.{◌≡◌, [], true, false, OnOk, is_ok};
ghost use Rattle.ossl_core.specs.Answered.{IsStillOf};
ghost use Rattle.ossl_core.specs.Owned.{OwnsNothing};
ghost use Rattle.ossl_script.specs.View.{back_of};
ghost use Rattle.ossl_turn.specs.Passes.{CameFrom};
ghost use Rattle.ossl_worker.specs.Work.{HasMade, IsFreshScript, IsSameScript, IsWithin};

use crate::gate::Gate;
use crate::labour::{do_lines, give_back};
use ossl_core::Caller;
use ossl_provider::boxed::Boxed;
use ossl_provider::provider::Provider;
use ossl_registry::Registry;
use ossl_script::ScriptCaller;
use ossl_turn::Shared;
use std::alloc::AllocError;
use std::marker::Model;
use std::sync::Wait;

/// One caller of a batch with its part in the shared registry. A clause sees its number in the batch, its caller in the
/// history, its script and whether its run was finished. The type keeps that the caller's entries are, one by one, the
/// calls that the script gave, with the replies that it took, and then those that give back.
pub struct Worker<P: Provider + Send = Boxed> {
    number: u64,
    caller: Caller<P>,
    script: ScriptCaller,
    finished: bool,
}

impl<P: Provider + Send> Model for Worker<P> {
    ghost use Rattle.ossl_worker.specs.Work.{IsWorker, WorkerFacts};

    ghost Value = { WorkerFacts P };

    ghost view = { λ w. record { number = w.number; caller = w.caller; script = w.script; finished = w.finished } };

    ghost invariant = { λ w. IsWorker
        (record { number = w.number; caller = w.caller; script = w.script; finished = w.finished }) };
}

impl<P: Provider + Send> Worker<P> {
    /// The worker of this number in the batch, before its first call. It takes no memory.
    pub fn new(number: u64, caller: Caller<P>, script: ScriptCaller) -> Worker<P>
        requires number { number ≡ script.caller }
        requires none { caller.own ≡ [] }
        requires fresh { IsFreshScript script }
        ensures number { result.number ≡ number }
        ensures caller { result.caller ≡ caller }
        ensures script { result.script ≡ script }
        ensures begins { result.finished ≡ false }
    {
        Worker {
            number,
            caller,
            script,
            finished: false,
        }
    }

    /// Makes the calls of the lines up to their end, or up to a refusal of memory, and then those that give back.
    /// Before each of them it calls the gate. Whatever the result, the caller owns nothing then.
    pub fn run<R: Wait, G: Gate>(
        &mut self,
        rt: &R,
        shared: &Shared<Registry<P>>,
        gate: &G,
    ) -> Result<(), AllocError>
        requires from { CameFrom shared.now self.old.caller }
        requires none { self.old.caller.own ≡ [] }
        requires fresh { IsFreshScript self.old.script }
        requires within { IsWithin shared.now.origin.contexts self.old.script }
        ensures from { IsStillOf shared.now self.old.caller self.new.caller }
        ensures number { self.new.number ≡ self.old.number }
        ensures same { IsSameScript self.old.script self.new.script }
        ensures returned { self.new.script.given ≡ back_of self.new.script }
        ensures nothing { OwnsNothing self.new.caller.own }
        ensures finished { self.new.finished ≡ is_ok result }
        ensures ended { OnOk result (self.new.script.ended ≡ true) }

        // What the type keeps, of the caller as it is then.
        ensures made { HasMade self.new.script self.new.caller.own }
    {
        let number = self.number;
        let did = do_lines(rt, shared, gate, number, &mut self.caller, &mut self.script);
        give_back(rt, shared, gate, number, &mut self.caller, &mut self.script);
        self.finished = did.is_ok();
        did
    }

    /// Whether its run came to the end of its lines.
    pub fn finished(&self) -> bool
        ensures finished { result ≡ self.now.finished }
    {
        self.finished
    }

    /// Its caller and its script. It takes no memory.
    pub fn into_parts(self) -> (Caller<P>, ScriptCaller)
        ensures caller { result.0 ≡ self.caller }
        ensures script { result.1 ≡ self.script }
        ensures made { HasMade result.1 result.0.own }
        ensures ended { self.finished ≡ true → result.1.ended ≡ true }
    {
        let Worker {
            number: _,
            caller,
            script,
            finished: _,
        } = self;
        (caller, script)
    }
}
