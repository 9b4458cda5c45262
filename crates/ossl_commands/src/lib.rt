//! The language of batches: the commands that a text says, and how much it names and declares.
//! A text means exactly what the tables of `specs/` say, and a faulty line has the first kind of fault that applies;
//! the language is this project's own.
//! Reading a text grows with its bytes, and with the logarithm of its callers for each line; each amount grows with
//! the words of the lines.
#![tactic(auto)]

mod amount;
mod argument;
mod begin;
mod command;
mod data;
mod files;
mod judge;
mod kind;
mod limit;
mod option;
mod own;
mod script;
mod table;
mod text;
mod word;

pub use command::{Argument, Arguments, Command, Data, Line};
pub use kind::{LineKind, ScriptRefused};
pub use limit::Limit;
pub use own::OwnLines;
pub use script::Script;
