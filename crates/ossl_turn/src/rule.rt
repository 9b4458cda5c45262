//! What a pass knows, and the rule of the turn. No value of these types is made: they exist in proofs alone.
use crate::object::Object;
use atomic_table::TableRule;
use ossl_base::Entry;
use std::collections::LinkedList;
use std::marker::PhantomData;
use std::snapshot::Snapshot;

/// Where a pass stands. A ticket is the number of those drawn before it, and does not wrap.
pub enum Stage<C, R> {
    Idle,
    Waiting(u64),
    /// The pass has the turn and holds the object, and the history is this.
    Turn(u64, LinkedList<Entry<C, R>>),
}

/// A number, with the calls made under it and the history seen.
pub struct Claim<C, R> {
    pub number: u64,
    pub own: LinkedList<Entry<C, R>>,
    pub seen: LinkedList<Entry<C, R>>,
}

/// What one pass knows. F is the type of the object.
pub struct View<C, R, F> {
    /// False once the first pass has taken this one over.
    pub live: bool,
    pub claim: Claim<C, R>,
    pub stage: Stage<C, R>,
    /// The object as it was opened.
    pub origin: Option<F>,
    /// How many passes the first pass split off, how many numbers it drew, and what it took over. Of another pass 0, 0
    /// and nothing.
    pub made: u64,
    pub drawn: u64,
    pub taken: LinkedList<Claim<C, R>>,
}

pub type PassView<O> = View<<O as Object>::Call, <O as Object>::Reply, O>;

/// The rule of the turn over an object, whose state at the opening is the key.
pub struct Turn<O> {
    object: PhantomData<O>,
}

impl<O: Object> TableRule<O, PassView<O>, Snapshot<O>> for Turn<O> {
    ghost use Rattle.ossl_turn.specs.Turn.{TurnRule, first_view};

    ghost holds = { λ k. TurnRule O.history O.fixed O.follows k.value };

    ghost first = { λ k. first_view (O.history k.value) k.value };
}
