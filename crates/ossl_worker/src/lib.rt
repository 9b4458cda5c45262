//! A caller of a batch at work in a thread of its own, over the registry that all callers share.
//! Promise: its entries in the history are, one by one, the calls that its lines give with the replies that it took,
//! and then those that give back; whatever happens it holds nothing at the end. Workers are this project's own
//! (docs/manual).
#![tactic(auto)]

mod gate;
mod labour;
mod worker;

pub use gate::{Gate, OpenGate};
pub use worker::Worker;
