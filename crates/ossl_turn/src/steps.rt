//! The steps of one call: take the turn, make the call on the object, and end the turn.
ghost use Rattle.std.specs.Prelude.{◌≡◌, [], ◌∷◌, true, IsOk};
ghost use Rattle.ossl_turn.specs.declared.rule.Stage.TheVariants.{Idle};
ghost use Rattle.ossl_turn.specs.History.{own_of};
ghost use Rattle.ossl_turn.specs.Kinds.{HasTurn, Holds, Makes, HasAnswer, HasNoAnswer, at_stage, after_call};

use crate::kinds::{DrawTicket, Look, Serve, ServeNone};
use crate::object::Object;
use crate::rule::{PassView, Turn};
use atomic_table::{Seat, Shared};
use std::alloc::AllocError;
use std::snapshot::Snapshot;
use std::sync::Wait;
use std::thread::yield_now;

pub(crate) type TurnTable<O> = Shared<O, PassView<O>, Snapshot<O>, Turn<O>>;

pub(crate) type TurnSeat<O> = Seat<O, PassView<O>>;

/// How many passes there are: the word from which the first pass draws numbers.
pub(crate) const NUMBERS: usize = 0;

/// How many tickets were drawn, modulo 2^64.
pub(crate) const TICKETS: usize = 1;

/// How many turns are over, modulo 2^64: the ticket whose turn it is.
pub(crate) const SERVING: usize = 2;

/// The slot of the object.
pub(crate) const OBJECT: usize = 0;

/// Takes the turn, with a ticket of its own. The seat then holds the object.
pub(crate) fn take_turn<O: Object, R: Wait>(table: &TurnTable<O>, rt: &R, seat: &mut TurnSeat<O>)
    requires table { (seat.old.table_id ≡ table.now.table_id) × (table.now.table_id.words ≡ 3)
        × (table.now.table_id.slots ≡ 1) }
    requires idle { (seat.old.me.1 ≡ []) × (seat.old.me.0.live ≡ true) × (seat.old.me.0.stage ≡ Idle) }
    ensures table { (seat.new.table_id ≡ seat.old.table_id) × (seat.new.id ≡ seat.old.id) }
    ensures turn { HasTurn O.history O.fixed O.follows seat.old.me.0 seat.new.me }
{
    let ticket = table.fetch_add::<DrawTicket<O>>(seat, TICKETS, 1);
    for _ in rt.forever() {
        if table.load::<Look<O>>(seat, SERVING) == ticket {
            return;
        }
        yield_now();
    }
    unreachable!()
}

/// Makes the call on the object, which the seat holds.
pub(crate) fn make_call<O: Object>(
    table: &TurnTable<O>,
    seat: &mut TurnSeat<O>,
    number: u64,
    call: &O::Call,
) -> Result<O::Reply, AllocError>
    requires table { seat.old.table_id ≡ table.now.table_id }
    requires holds { Holds seat.old.me (λ o. O.may_call (O.fixed o) (own_of number (O.history o)) call.now) }
    ensures table { (seat.new.table_id ≡ seat.old.table_id) × (seat.new.id ≡ seat.old.id)
        × (seat.new.me.0 ≡ seat.old.me.0) }
    ensures made { Holds seat.old.me
        (λ o. Holds seat.new.me (λ p. Makes O.history O.fixed O.follows number call.now o p result
        × (O.needs_no_memory o number call.now → IsOk result))) }
{
    let object = seat.slot_mut(table, OBJECT);
    object.apply(number, call)
}

/// Ends the turn with one more entry.
pub(crate) fn serve<O: Object>(table: &TurnTable<O>, seat: &mut TurnSeat<O>)
    requires table { (seat.old.table_id ≡ table.now.table_id) × (table.now.table_id.words ≡ 3)
        × (table.now.table_id.slots ≡ 1) }
    requires answer { HasAnswer O.history O.fixed O.follows seat.old.me }
    ensures table { (seat.new.table_id ≡ seat.old.table_id) × (seat.new.id ≡ seat.old.id) }
    ensures served { Holds seat.old.me (λ o. seat.new.me ≡ (after_call seat.old.me.0 (O.history o), [])) }
{
    table.fetch_add::<Serve<O>>(seat, SERVING, 1);
}

/// Ends the turn with the history as it was.
pub(crate) fn serve_none<O: Object>(table: &TurnTable<O>, seat: &mut TurnSeat<O>)
    requires table { (seat.old.table_id ≡ table.now.table_id) × (table.now.table_id.words ≡ 3)
        × (table.now.table_id.slots ≡ 1) }
    requires no_answer { HasNoAnswer O.history O.fixed O.follows seat.old.me }
    ensures table { (seat.new.table_id ≡ seat.old.table_id) × (seat.new.id ≡ seat.old.id) }
    ensures served { seat.new.me ≡ (at_stage seat.old.me.0 Idle, []) }
{
    table.fetch_add::<ServeNone<O>>(seat, SERVING, 1);
}
