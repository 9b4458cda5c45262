//! The kinds of step, each with what it tells the pass that makes it.
ghost use Rattle.ossl_turn.specs.Kinds.{drew_number, drew_ticket, looked, served, served_none, newcomer, split_off};
ghost use Rattle.ossl_turn.specs.Kinds.{joined, spent};

use crate::object::Object;
use crate::rule::PassView;
use atomic_table::{Join, Play, Split};
use std::marker::PhantomData;

/// The first pass draws the number of the next pass: word 0, a fetch and add.
pub(crate) struct DrawNumber<O> {
    object: PhantomData<O>,
}

impl<O: Object> Play<O, PassView<O>> for DrawNumber<O> {
    ghost then = { drew_number O.fixed O.follows };
}

/// A caller draws a ticket: word 1, a fetch and add.
pub(crate) struct DrawTicket<O> {
    object: PhantomData<O>,
}

impl<O: Object> Play<O, PassView<O>> for DrawTicket<O> {
    ghost then = { drew_ticket };
}

/// A caller looks at the serving word, and takes the object where its turn has come: word 2, a load.
pub(crate) struct Look<O> {
    object: PhantomData<O>,
}

impl<O: Object> Play<O, PassView<O>> for Look<O> {
    ghost then = { looked O.history O.fixed O.follows };
}

/// A caller puts the object back and ends its turn, with one more entry: word 2, a fetch and add.
pub(crate) struct Serve<O> {
    object: PhantomData<O>,
}

impl<O: Object> Play<O, PassView<O>> for Serve<O> {
    ghost then = { served O.history };
}

/// The same with no entry, where the call found no memory.
pub(crate) struct ServeNone<O> {
    object: PhantomData<O>,
}

impl<O: Object> Play<O, PassView<O>> for ServeNone<O> {
    ghost then = { served_none };
}

/// The first pass splits off a new one.
pub(crate) struct NewPass<O> {
    object: PhantomData<O>,
}

impl<O: Object> Split<PassView<O>> for NewPass<O> {
    ghost left = { split_off };

    ghost right = { newcomer };
}

/// The first pass takes another one over, at the end.
pub(crate) struct TakeOver<O> {
    object: PhantomData<O>,
}

impl<O: Object> Join<PassView<O>> for TakeOver<O> {
    ghost both = { joined };

    ghost spent = { spent };
}
