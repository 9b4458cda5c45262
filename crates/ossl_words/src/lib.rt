//! The words after a program's name, and the job that they ask for.
//! A job is read exactly from the words of the command set, and all others are refused as usage.
//! The command set is the project's own (docs/manual); `clap` splits the words. Work grows with their bytes.
#![tactic(auto)]

mod command;
pub mod job;
mod number;
pub mod words;

pub use job::{Job, Order, WordsRefused};
pub use words::read_words;
