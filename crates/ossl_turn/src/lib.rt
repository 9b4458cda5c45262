//! One object, called by many threads in turn: any sequential object with a history becomes one that threads share.
//! Each answered call stands in one history, at one point, with all that its caller had seen before it, and `close`
//! gives the object back with that history. A ticket lock (Mellor-Crummey and Scott, 1991) on `atomic_table`.
//!
//! How a caller waits: first at a door, std's `Mutex`, asleep after a short while. Whoever is let in draws a ticket,
//! looks at the serving word until that is its ticket, takes the object out of its slot, calls it, puts it back and
//! serves. The order of calls is the order of tickets: every proof speaks of tickets alone and none of the door, which
//! is there so that callers sleep. Nothing says that a turn comes.
//!
//! A call costs what the object's own call costs and a few atomic steps, whatever the length of the history and the
//! number of passes; `close` takes a step a pass. No call can answer from a stale copy of the object: an object need
//! not be `Clone`, so there is one of it, which goes from the slot to the caller with the turn and back.
#![tactic(auto)]

mod kinds;
mod many;
mod object;
mod pass;
mod returned;
mod rule;
mod shared;
mod steps;

pub use object::Object;
pub use ossl_base::Entry;
pub use pass::Pass;
pub use shared::{ShareRefused, Shared};
