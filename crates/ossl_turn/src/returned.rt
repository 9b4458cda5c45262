//! The passes that come back at the end: the first is found, and takes the others over.
ghost use Rattle.std.specs.Prelude.{◌≡◌, [], ◌∷◌, ◌==◌, All, IsPermutation, position};
ghost use Rattle.ossl_turn.specs.Passes.{AreAll, IsFree, taken_over};

use crate::kinds::TakeOver;
use crate::object::Object;
use crate::pass::Pass;
use crate::steps::{NUMBERS, TurnSeat, TurnTable};
use std::alloc::Global;

fn find_first<O: Object>(passes: &[Pass<O>]) -> Option<usize>
    ensures { result ≡ position (λ p. p.number == 0) passes.now }
{
    passes.iter().position(|p| p.number() == 0)
}

/// Takes the first pass out of the list. The others stay.
pub(crate) fn take_first<O: Object>(passes: &mut Vec<Pass<O>, Global>) -> Pass<O>
    requires { AreAll passes.old.items }
    ensures number { result.number ≡ 0 }
    ensures taken { IsPermutation passes.old.items (result ∷ passes.new.items) }
{
    let Some(i) = find_first(passes.as_slice()) else {
        unreachable!()
    };
    passes.swap_remove(i)
}

/// The first seat takes the others over.
pub(crate) fn take_over<O: Object>(
    table: &TurnTable<O>,
    seat: &mut TurnSeat<O>,
    mut others: Vec<Pass<O>, Global>,
)
    requires table { (seat.old.table_id ≡ table.now.table_id) × (table.now.table_id.words ≡ 3) }
    requires first { IsFree 0 seat.old.me.0.made seat.old.me }
    requires others { All (λ p. p.of ≡ table.now.table_id) others.items }
    ensures table { (seat.new.table_id ≡ seat.old.table_id) × (seat.new.id ≡ seat.old.id) }
    ensures taken { seat.new.me ≡ (taken_over seat.old.me.0 others.items, []) }
{
    while let Some(pass) = others.pop() {
        let Pass {
            seat: other,
            number: _,
            made: _,
        } = pass;
        table.join_seat::<TakeOver<O>>(seat, other);
    }
    others.destroy_empty();
}
