//! A registry that keeps plain lists, over the boxes of a catalogue: the plain program of what `ossl_state` defines.
//! Each answered call is one step of that definition, after provider(7), property(7) and OSSL_LIB_CTX(3).
//! The plain registry looks at all of its lists at each call; the registries above it do not.
#![tactic(auto)]

mod boxes;
mod change;
pub mod plain;
mod room;
mod starting;
mod stopping;

pub use ossl_state::call::{Call, Entry, Reply};
pub use ossl_state::put::{put_call, put_entry, put_reply};
pub use ossl_state::{call, items, put, state};
pub use plain::{OpenRefused, PlainRegistry, Up};
