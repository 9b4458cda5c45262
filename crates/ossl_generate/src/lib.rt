//! Batches that are generated from a seed, and what is told of one that was run.
//! The text of the batch and the summary are exactly those of `specs/`; the digest in it is FIPS 180-4's.
//! The form of both is the project's own (docs/manual). Work grows with the lines, and with the bytes of the results.
#![tactic(auto)]

pub mod batch;
mod command;
mod digits;
pub mod summary;

pub use batch::generate;
pub use summary::{Summary, is_good, summary_text};
