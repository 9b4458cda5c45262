//! The callers of a batch in a run.

ghost use Rattle.std.specs.Prelude.{◌≡◌, ◌⊎◌, [], length, IfOk, OnErr, OnOk};
ghost use Rattle.ossl_calls.specs.Registry.{fixed_of};
ghost use Rattle.ossl_commands.specs.Counts.{callers_of};
ghost use Rattle.ossl_state.specs.History.{IsLegal};
ghost use Rattle.ossl_script.specs.View.{SpeaksFor};
ghost use Rattle.ossl_ordered.specs.Run.{RunInOrderIsRun};
ghost use Rattle.ossl_ordered.specs.Turns.{EachCallerIsDone, OrderOfText, ProgramIsApart, RunIsFixed};
ghost use Rattle.ossl_ordered.specs.Work.{AreFresh, AreReady, IsReady, MayGo, Takes, turn_in};

use crate::desk::Desk;
use crate::turns::Turn;
use ossl_base::Bytes;
use ossl_commands::Script;
use ossl_provider::provider::Provider;
use ossl_script::{Next, ScriptCaller};
use std::alloc::{AllocError, Global};
use std::sync::ledger::Ledger;

/// A caller of a batch: its number, its work, and what it does next once it is its turn.
#[derive(Drop)]
pub struct Player {
    pub caller: u64,
    pub work: ScriptCaller,
    pub next: Next,
}

impl Player {
    /// The caller of this number, at its first call.
    fn new(
        alloc: Global,
        script: &Script,
        contents: &[Bytes],
        caller: u64,
    ) -> Result<Player, AllocError>
        ensures number { IfOk result (λ p. p.caller ≡ caller) }
        ensures same { IfOk result (λ p. p.work.caller ≡ caller) }
        ensures fresh { IfOk result (λ p. p.work.replies ≡ []) }
        ensures keeps { IfOk result (λ p. p.work.given ≡ []) }
        ensures speaks { IfOk result (λ p. SpeaksFor script.now.commands contents.now p.work) }
        ensures ready { IfOk result IsReady }
    {
        let mut work = ScriptCaller::new(alloc, script, contents, caller)?;
        let next = work.next_call()?;
        Ok(Player { caller, work, next })
    }

    /// Its turn: the line of its next call; none where its lines are done.
    ///
    /// The laws of runs: one that goes by the text alone takes the lines one after the other; whatever list goes
    /// before, a run holds each caller's calls once and in its order, the program's before and behind them; nothing but
    /// a refused start lets one run differ from another; and a run in a stated order is a run as callers in threads
    /// make it.
    pub fn turn(&self) -> Option<Turn>
        ensures turn { result ≡ turn_in self.now }
        ensures order_of_text { OrderOfText }
        ensures each_is_done { EachCallerIsDone }
        ensures apart { ProgramIsApart }
        ensures fixed { RunIsFixed }
        ensures is_run { RunInOrderIsRun }
    {
        match &self.next {
            Next::Call { line, .. } => Some(Turn {
                caller: self.caller,
                line: *line,
            }),
            Next::End => None,
        }
    }

    /// Makes its next call, takes the reply, and goes on to the call behind it. Where memory is refused, the caller
    /// may give back what it holds.
    pub fn go_on<P: Provider, L: Ledger>(&mut self, desk: &mut Desk<P, L>) -> Result<(), AllocError>
        requires ready { IsReady self.old }
        requires allowed { MayGo (fixed_of P.facts desk.old) desk.old.entries self.old }
        requires legal { IsLegal (fixed_of P.facts desk.old) desk.old.entries }
        ensures ok { OnOk result (Takes self.old self.new desk.old.entries desk.new.entries) }
        ensures ready { OnOk result (IsReady self.new) }
        ensures err { OnErr result (Takes self.old self.new desk.old.entries desk.new.entries ⊎
            (desk.new.entries ≡ desk.old.entries) × (self.new ≡ self.old)) }
        ensures legal { IsLegal (fixed_of P.facts desk.new) desk.new.entries }
        ensures fixed { fixed_of P.facts desk.new ≡ fixed_of P.facts desk.old }
    {
        let Next::Call { call, .. } = &self.next else {
            unreachable!();
        };
        let reply = desk.apply(self.caller, call)?;
        self.work.take_reply(reply)?;
        self.next = self.work.next_call()?;
        Ok(())
    }
}

/// The callers of a batch, from 1 on, each at its first call.
pub fn players(
    alloc: Global,
    script: &Script,
    contents: &[Bytes],
) -> Result<Vec<Player>, AllocError>
    ensures each { IfOk result (λ players. length players.items ≡ callers_of script.now.commands) }
    ensures ready { IfOk result (λ players. AreReady players.items) }
    ensures work { IfOk result (λ players. AreFresh script.now.commands contents.now players.items) }
{
    let mut players = Vec::new(alloc);
    for place in 0..script.callers() {
        let player = Player::new(alloc, script, contents, place + 1)?;
        players.push(player)?;
    }
    Ok(players)
}
