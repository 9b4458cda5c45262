//! The object that threads share.
ghost use Rattle.std.specs.Prelude.{◌≡◌, ◌<◌, [], Some, IfOk, IfErr, OnErr, IsOk, All, length};
ghost use Rattle.ossl_turn.specs.History.{entry_of, own_of, IsHistory};
ghost use Rattle.ossl_turn.specs.Passes.{CameFrom, MayFind, Answers, HasHistory, IsSplit, AreAll, Confirms};

use crate::kinds::{DrawNumber, NewPass};
use crate::object::Object;
use crate::pass::Pass;
use crate::returned::{take_first, take_over};
use crate::rule::{PassView, Turn};
use crate::steps::{NUMBERS, OBJECT, make_call, serve, serve_none, take_turn};
use atomic_table::{Refused, Table};
use std::alloc::{AllocError, AllocFailed, Global};
use std::marker::Model;
use std::snapshot::Snapshot;
use std::sync::{Mutex, Wait};

/// An object that threads call in turn, through a `&` and a pass each.
/// A clause sees which one it is (`of`) and the object as it was opened (`origin`), whose fixed part no call changes.
pub struct Shared<O: Object> {
    table: Table<O, PassView<O>, Snapshot<O>, Turn<O>, Global>,
    /// Where callers sleep, as lib.rt tells.
    door: Mutex<()>,
}

impl<O: Object> Model for Shared<O> {
    ghost use Rattle.std.specs.Prelude.{◌≡◌};
    ghost use Rattle.ossl_turn.specs.Passes.{SharedFacts};

    ghost Value = { SharedFacts O };

    ghost view = { λ s. record { of = s.table.shared.table_id; origin = s.table.shared.key.value } };

    ghost invariant = { λ s. (s.table.shared.table_id.words ≡ 3) × (s.table.shared.table_id.slots ≡ 1) };
}

/// There was no memory to share the object, which comes back.
pub struct ShareRefused<O> {
    pub object: O,
}

impl<O: Object> Shared<O> {
    /// Shares the object, and gives the first pass.
    pub fn open(alloc: Global, object: O) -> Result<(Shared<O>, Pass<O>), ShareRefused<O>>
        requires { O.history object ≡ [] }
        ensures shared { IfOk result (λ r. O.fixed r.0.origin ≡ O.fixed object) }
        ensures first { IfOk result
            (λ r. CameFrom r.0 r.1 × (r.1.number ≡ 0) × (r.1.made ≡ 0) × (r.1.seen ≡ []) × (r.1.own ≡ [])) }
        ensures refused { IfErr result (λ r. r.object ≡ object) }
    {
        Shared::resume(alloc, object)
    }

    /// Shares an object that was called before, always under the number 0, and gives the first pass, which has seen its
    /// history: each call in it is its own.
    pub fn resume(alloc: Global, object: O) -> Result<(Shared<O>, Pass<O>), ShareRefused<O>>
        requires lawful { IsHistory (O.follows (O.fixed object)) (O.history object) }
        requires own { own_of 0 (O.history object) ≡ O.history object }
        ensures shared { IfOk result (λ r. O.fixed r.0.origin ≡ O.fixed object) }
        ensures first { IfOk result (λ r. CameFrom r.0 r.1 × (r.1.number ≡ 0) × (r.1.made ≡ 0)) }
        ensures seen { IfOk result (λ r. (r.1.seen ≡ O.history object) × (r.1.own ≡ O.history object)) }
        ensures refused { IfErr result (λ r. r.object ≡ object) }
    {
        let origin = Snapshot::of(&object);
        let mut slots = Vec::new(alloc);
        if let Err(AllocFailed { value }) = slots.push(object) {
            slots.destroy_empty();
            return Err(ShareRefused { object: value });
        }
        match Table::new(alloc, &[0, 0, 0], slots, &origin) {
            Ok((table, seat)) => Ok((
                Shared {
                    table,
                    door: Mutex::new(()),
                },
                Pass {
                    seat,
                    number: 0,
                    made: 0,
                },
            )),
            Err(Refused { mut slots }) => {
                let Some(object) = slots.pop() else {
                    unreachable!()
                };
                slots.destroy_empty();
                Err(ShareRefused { object })
            }
        }
    }

    /// Makes the call when its turn has come. Where there is no memory for it, the pass is as before.
    pub fn call<R: Wait>(
        &self,
        rt: &R,
        pass: &mut Pass<O>,
        call: &O::Call,
    ) -> Result<O::Reply, AllocError>
        requires pass { CameFrom self.now pass.old }
        requires allowed { O.may_call (O.fixed self.now.origin) pass.old.own call.now }
        ensures answered { IfOk result
            (λ r. Answers (O.follows (O.fixed self.now.origin)) pass.old pass.new
            (entry_of pass.old.number call.now r)) }
        ensures refused { OnErr result (pass.new ≡ pass.old) }

        // Where no object that the call may find wants memory for it, it is answered.
        ensures memory { ((o : O) → MayFind O.history O.fixed O.follows self.now pass.old o
            → O.needs_no_memory o pass.old.number call.now) → IsOk result }
    {
        let _let_in = self.door.lock(rt);
        let table = &self.table.shared;
        take_turn(table, rt, &mut pass.seat);
        match make_call(table, &mut pass.seat, pass.number, call) {
            Ok(reply) => {
                serve(table, &mut pass.seat);
                Ok(reply)
            }
            Err(AllocError) => {
                serve_none(table, &mut pass.seat);
                Err(AllocError)
            }
        }
    }

    /// Splits a new pass off the first one, for another caller. It takes no memory.
    pub fn split(&self, first: &mut Pass<O>) -> Result<Pass<O>, AllocError>
        requires pass { CameFrom self.now first.old }
        requires first { (first.old.number ≡ 0) × (first.old.made < 65535) }
        ensures split { IfOk result (λ p. IsSplit first.old first.new p) }

        // What the new pass has seen is lawful, as all that an answered call shows is.
        ensures lawful { IfOk result (λ p. HasHistory (O.follows (O.fixed self.now.origin)) p) }
        ensures refused { OnErr result (first.new ≡ first.old) }
        ensures memory { IsOk result }
    {
        let table = &self.table.shared;
        let number = table.fetch_add::<DrawNumber<O>>(&mut first.seat, NUMBERS, 1) + 1;
        let seat = table.split_seat::<NewPass<O>>(&mut first.seat);
        first.made += 1;
        Ok(Pass {
            seat,
            number,
            made: 0,
        })
    }

    /// Gives the object back, when all passes are back. It takes no memory.
    pub fn close(self, mut passes: Vec<Pass<O>, Global>) -> O
        requires from { All (CameFrom self) passes.items }
        requires all { AreAll passes.items }
        ensures fixed { O.fixed result ≡ O.fixed self.origin }
        ensures confirmed { All (Confirms (O.history result)) passes.items }
        ensures within { All (λ e. e.caller < length passes.items) (O.history result) }
        ensures lawful { IsHistory (O.follows (O.fixed self.origin)) (O.history result) }
    {
        let first = take_first(&mut passes);
        let Shared { table, door: _ } = self;
        let Pass {
            mut seat,
            number: _,
            made: _,
        } = first;
        take_over(&table.shared, &mut seat, passes);
        let mut closed = table.close_with(seat);
        let object = closed.take(OBJECT);
        closed.free();
        object
    }
}
