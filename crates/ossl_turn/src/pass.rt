//! A caller's part in a shared object.
use crate::object::Object;
use crate::steps::TurnSeat;
use std::marker::Model;

/// What a caller calls a shared object with. Only `Shared::open` and `Shared::split` make one, no pass can be copied,
/// and a value that is no longer used has to go back to `Shared::close`.
/// A clause sees the calls made with it (`own`) and the history that it has seen (`seen`). It stores neither.
pub struct Pass<O: Object> {
    pub(crate) seat: TurnSeat<O>,
    pub(crate) number: u64,
    pub(crate) made: u64,
}

impl<O: Object> Model for Pass<O> {
    ghost use Rattle.ossl_turn.specs.Passes.{PassFacts, facts_of, IsFree};

    ghost Value = { PassFacts O.Call O.Reply O };

    ghost view = { λ p. facts_of p.seat.table_id p.seat.me };

    ghost invariant = { λ p. IsFree p.number p.made p.seat.me };
}

impl<O: Object> Pass<O> {
    ghost use Rattle.std.specs.Prelude.{◌≡◌};

    /// The caller's number in the history. The first pass has 0.
    pub fn number(&self) -> u64
        ensures { result ≡ self.now.number }
    {
        self.number
    }

    /// How many passes this one split off.
    pub fn made(&self) -> u64
        ensures { result ≡ self.now.made }
    {
        self.made
    }
}
