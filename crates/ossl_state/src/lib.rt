//! Registry calls, their replies, and the state after them, as a state machine in which no box is started.
//! Each answered call is a step of the definition in `specs/`, after provider(7), property(7) and OSSL_LIB_CTX(3).
//! A look-up grows with the lists that it looks over, a change with the list that it changes.
#![tactic(auto)]

pub mod activation;
pub mod best;
pub mod call;
pub mod counts;
pub mod defaults;
pub mod element;
pub mod going;
pub mod items;
pub mod load;
pub mod lookup;
pub mod mark;
pub mod offer;
pub mod opening;
pub mod put;
pub mod state;

pub use call::{Call, Entry, Reply};
pub use put::{put_call, put_entry, put_reply};
