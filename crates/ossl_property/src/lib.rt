//! Property definitions and queries as text, what two queries merge to, and how well a definition serves a query.
//! A text means what property(7) says, within limits of this project's own; one outside the grammar is refused with the
//! place of its first fault.
//! Reading grows with the text's length (and the logarithm of its number of names), a score with the clauses times the
//! properties.
#![tactic(auto)]

mod clause;
mod definition;
mod merging;
mod names;
mod parse;
mod print;
mod query;
mod reader;
mod same;
mod scoring;
mod steps;
mod word;

pub use clause::{Clause, Property, Relation, TextRefused, Value};
pub use definition::Definition;
pub use merging::merge;
pub use query::Query;
pub use scoring::score;
pub use steps::Steps;

#[cfg(test)]
mod tests;
