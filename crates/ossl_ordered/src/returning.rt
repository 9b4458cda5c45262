//! What callers give back.

ghost use Rattle.std.specs.Prelude.{◌≡◌, List};
ghost use Rattle.ossl_base.specs.declared.entry.Entry.{Entry};
ghost use Rattle.ossl_calls.specs.Registry.{fixed_of};
ghost use Rattle.ossl_state.specs.declared.call.Call.{Call};
ghost use Rattle.ossl_state.specs.declared.call.Reply.{Reply};
ghost use Rattle.ossl_state.specs.History.{IsLegal};
ghost use Rattle.ossl_ordered.specs.Work.{AreAtWork, AreKept, IsGiving, IsKept, Returns, ReturnsAll, Working};
ghost use Rattle.ossl_print.specs.Batched.{Batch};

use crate::desk::Desk;
use crate::player::Player;
use ossl_provider::provider::Provider;
use std::sync::ledger::Ledger;

/// A caller gives back what it holds, the greatest number first. It takes no memory.
fn return_held<P: Provider, L: Ledger>(desk: &mut Desk<P, L>, player: &mut Player)
    requires giving { IsGiving desk.old.entries player.old }
    requires legal { IsLegal (fixed_of P.facts desk.old) desk.old.entries }
    ensures returned { Returns player.old desk.old.entries desk.new.entries }
    ensures kept { IsKept player.old player.new }
    ensures legal { IsLegal (fixed_of P.facts desk.new) desk.new.entries }
    ensures fixed { fixed_of P.facts desk.new ≡ fixed_of P.facts desk.old }
{
    let caller = player.caller;
    while let Some(call) = player.work.give_back() {
        match desk.apply(caller, &call) {
            Ok(_) => {}
            Err(_) => unreachable!(),
        }
    }
}

/// Each caller, ascending, gives back what it holds. It takes no memory.
pub fn return_all<P: Provider, L: Ledger>(desk: &mut Desk<P, L>, players: &mut [Player])
    requires working { Working (fixed_of P.facts desk.old).contexts desk.old.entries players.old }
    requires legal { IsLegal (fixed_of P.facts desk.old) desk.old.entries }
    ensures returned { (batch : Batch) (opening turns : List (Entry Call Reply)) →
        AreAtWork batch (fixed_of P.facts desk.old).contexts opening turns desk.old.entries players.old →
        ReturnsAll batch turns desk.old.entries desk.new.entries }
    ensures kept { AreKept players.old players.new }
    ensures legal { IsLegal (fixed_of P.facts desk.new) desk.new.entries }
    ensures fixed { fixed_of P.facts desk.new ≡ fixed_of P.facts desk.old }
{
    for place in 0..players.len() {
        return_held(desk, &mut players[place]);
    }
}
