//! What a caller does with its lines of a batch: its calls, what it holds, and what is printed of its lines.
//! Calls and results follow the tables of `specs/` from the replies alone; the language is this project's own.
//! A token that is handed out or given back is told in a constant number of steps.
#![tactic(auto)]

mod begin;
mod bound;
mod caller;
mod checks;
mod commands;
mod feeding;
mod held;
mod options;
mod outcome;
mod progress;
mod resume;
mod running;
mod script_caller;
mod share;
mod stage;
mod tokens;
mod whole;

pub use caller::{LineResult, Next};
pub use held::{Held, TokenKind};
pub use ossl_commands::{Argument, Arguments, Command, Data, Limit, Line, LineKind, ScriptRefused};
pub use outcome::Outcome;
pub use script_caller::ScriptCaller;
