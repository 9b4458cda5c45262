//! The turns of a run.

ghost use Rattle.std.specs.Prelude.{◌≡◌, ◌<◌, ◌+◌, [], length, IfNone, IfSome, OnErr, OnOk};
ghost use Rattle.ossl_calls.specs.Registry.{fixed_of};
ghost use Rattle.ossl_state.specs.History.{IsLegal};
ghost use Rattle.ossl_ordered.specs.Work.{AreEnded, AreReady, HasCall, IsPassed, Runs, RunsBy, RunsInTurn, TakesAt};
ghost use Rattle.ossl_ordered.specs.Work.{Working};

use crate::desk::Desk;
use crate::player::Player;
use crate::turns::least_turn;
use ossl_provider::provider::Provider;
use std::alloc::AllocError;
use std::sync::ledger::Ledger;

/// The caller at a place takes its turn.
fn take_turn<P: Provider, L: Ledger>(
    desk: &mut Desk<P, L>,
    players: &mut [Player],
    place: usize,
) -> Result<(), AllocError>
    requires place { place < length players.old }
    requires turn { HasCall players.old place }
    requires working { Working (fixed_of P.facts desk.old).contexts desk.old.entries players.old }
    requires ready { AreReady players.old }
    requires legal { IsLegal (fixed_of P.facts desk.old) desk.old.entries }
    ensures ok { OnOk result (TakesAt place
        (fixed_of P.facts desk.old).contexts desk.old.entries desk.new.entries players.old players.new) }
    ensures ready { OnOk result (AreReady players.new) }
    ensures err { OnErr result (Runs
        (fixed_of P.facts desk.old).contexts desk.old.entries desk.new.entries players.old players.new) }
    ensures legal { IsLegal (fixed_of P.facts desk.new) desk.new.entries }
    ensures fixed { fixed_of P.facts desk.new ≡ fixed_of P.facts desk.old }
{
    players[place].go_on(desk)
}

/// The place of a caller that has a call left; none where the batch has no such caller, or its lines are done.
fn ready_place(players: &[Player], caller: u64) -> Option<usize>
    ensures number { IfSome result (λ place. caller ≡ place + 1) }
    ensures within { IfSome result (λ place. place < length players.now) }
    ensures call { IfSome result (HasCall players.now) }
    ensures none { IfNone result (IsPassed players.now caller) }
{
    if caller == 0 || caller > players.len() as u64 {
        return None;
    }
    let place = caller as usize - 1;
    match players[place].turn() {
        Some(_) => Some(place),
        None => None,
    }
}

/// Each item of a list lets the caller that it names take its turn, or is passed over where that caller has no call
/// left.
fn run_list<P: Provider, L: Ledger>(
    desk: &mut Desk<P, L>,
    players: &mut [Player],
    list: &[u64],
) -> Result<(), AllocError>
    requires working { Working (fixed_of P.facts desk.old).contexts desk.old.entries players.old }
    requires ready { AreReady players.old }
    requires legal { IsLegal (fixed_of P.facts desk.old) desk.old.entries }
    ensures ok { OnOk result (RunsBy list.now []
        (fixed_of P.facts desk.old).contexts desk.old.entries desk.new.entries players.old players.new) }
    ensures ready { OnOk result (AreReady players.new) }
    ensures err { OnErr result (Runs
        (fixed_of P.facts desk.old).contexts desk.old.entries desk.new.entries players.old players.new) }
    ensures legal { IsLegal (fixed_of P.facts desk.new) desk.new.entries }
    ensures fixed { fixed_of P.facts desk.new ≡ fixed_of P.facts desk.old }
{
    for caller in list {
        match ready_place(players, *caller) {
            Some(place) => take_turn(desk, players, place)?,
            None => {}
        }
    }
    Ok(())
}

/// The caller whose next call has the least line takes its turn, again and again, until no caller has a call left.
fn run_rest<P: Provider, L: Ledger>(
    desk: &mut Desk<P, L>,
    players: &mut [Player],
) -> Result<(), AllocError>
    requires working { Working (fixed_of P.facts desk.old).contexts desk.old.entries players.old }
    requires ready { AreReady players.old }
    requires legal { IsLegal (fixed_of P.facts desk.old) desk.old.entries }
    ensures ok { OnOk result (RunsInTurn []
        (fixed_of P.facts desk.old).contexts desk.old.entries desk.new.entries players.old players.new) }
    ensures ended { OnOk result (AreEnded players.new) }
    ensures err { OnErr result (Runs
        (fixed_of P.facts desk.old).contexts desk.old.entries desk.new.entries players.old players.new) }
    ensures legal { IsLegal (fixed_of P.facts desk.new) desk.new.entries }
    ensures fixed { fixed_of P.facts desk.new ≡ fixed_of P.facts desk.old }
{
    // No history has as many entries as a number of 64 bits can count.
    'turns: for _ in 0..u64::MAX {
        match least_turn(players) {
            Some(turn) => take_turn(desk, players, turn.caller as usize - 1)?,
            None => return Ok(()),
        }
    }
    Err(AllocError)
}

/// Lets the callers of a batch make their calls to the end of their lines: first by a list of callers, and behind it
/// by the order of the text. Where memory is refused, each caller may give back what it holds.
pub fn run_turns<P: Provider, L: Ledger>(
    desk: &mut Desk<P, L>,
    players: &mut [Player],
    list: &[u64],
) -> Result<(), AllocError>
    requires working { Working (fixed_of P.facts desk.old).contexts desk.old.entries players.old }
    requires ready { AreReady players.old }
    requires legal { IsLegal (fixed_of P.facts desk.old) desk.old.entries }
    ensures ok { OnOk result (RunsInTurn list.now
        (fixed_of P.facts desk.old).contexts desk.old.entries desk.new.entries players.old players.new) }
    ensures ended { OnOk result (AreEnded players.new) }
    ensures err { OnErr result (Runs
        (fixed_of P.facts desk.old).contexts desk.old.entries desk.new.entries players.old players.new) }
    ensures legal { IsLegal (fixed_of P.facts desk.new) desk.new.entries }
    ensures fixed { fixed_of P.facts desk.new ≡ fixed_of P.facts desk.old }
{
    run_list(desk, players, list)?;
    run_rest(desk, players)
}
