use crate::items::Items;
use ossl_codes::{Code, Operation};
use ossl_names::NameMap;
use ossl_property::{Definition, Query};

/// Whether a library context still falls back to the provider `default` (provider(7)).
#[derive(Debug, Clone, Copy, PartialEq, Eq)]
pub enum Fallback {
    /// The next fetch activates it, where the catalogue has it and its start is accepted.
    Armed,
    /// A provider was loaded in its place.
    Off,
    /// A fetch has activated it.
    Used,
}

/// A provider that is active in a library context: its place in the catalogue, and its instance there.
#[derive(Debug, Clone, Copy)]
pub struct Active {
    pub place: usize,
    pub instance: u64,
}

/// An activation that a load gave to a caller: its token, the provider's place in the catalogue, and the caller.
#[derive(Debug, Clone, Copy)]
pub struct Given {
    pub number: u64,
    pub place: usize,
    pub owner: u64,
}

/// A library context: its default query, the groups of names that mean one algorithm, the active providers in the order
/// in which they became active, and the activations that loads gave.
#[derive(Drop)]
pub struct LibCtx {
    pub is_open: bool,
    pub fallback: Fallback,
    pub default: Query,
    pub groups: NameMap,
    pub order: Items<Active>,
    pub given: Items<Given>,
}

/// A row that an instance offers: its index in the provider, from 0, and what a fetch looks at: the operation, the
/// number of the row's names, and its property definition.
#[derive(Drop)]
pub struct Offered {
    pub index: u64,
    pub op: Operation,
    pub number: u64,
    pub code: Code,
    pub definition: Definition,
}

/// An instance that was started: its number, its library context, the provider's place in the catalogue, the rows
/// that it offers, and how many rows were left out.
#[derive(Drop)]
pub struct Born {
    pub number: u64,
    pub lib: u64,
    pub place: usize,
    pub rows: Items<Offered>,
    pub skipped: u64,
}

/// What a live element is.
#[derive(Debug, Clone, Copy, PartialEq, Eq)]
pub enum Kind {
    Method,
    Context,
}

/// A live method or operation context: its token, its owner, the instances that it holds, and its provider, row and
/// code.
#[derive(Drop)]
pub struct Live {
    pub number: u64,
    pub owner: u64,
    pub kind: Kind,
    pub held: Items<u64>,
    pub place: usize,
    pub row: u64,
    pub code: Code,
}

/// What a registry knows: the number of its next entry, its library contexts, all instances ever started, and the
/// live elements. The definitions of `specs/` speak of this very struct, as lists and numbers.
#[derive(Drop)]
pub struct State {
    pub next: u64,
    pub libs: Items<LibCtx>,
    pub born: Items<Born>,
    pub live: Items<Live>,
}

/// A row that a fetch chose: the provider's place, its instance there, the row's index and code.
#[derive(Debug, Clone, Copy)]
pub struct Choice {
    pub place: usize,
    pub instance: u64,
    pub row: u64,
    pub code: Code,
}

/// A row with its score: how many optional clauses of the query it meets.
#[derive(Debug, Clone, Copy)]
pub struct Scored {
    pub score: u64,
    pub choice: Choice,
}

/// What goes from a state.
#[derive(Debug, Clone, Copy)]
pub enum Going {
    /// The live element that a token names.
    Element {
        token: u64,
    },
    /// An activation of a library context, in which one box may stay active for the fallback.
    Activation {
        lib: usize,
        token: u64,
        kept: Option<usize>,
    },
    /// Nothing: the library context of an activation has closed before.
    Nothing,
    /// All activations of a library context that closes.
    Library {
        lib: usize,
    },
}
