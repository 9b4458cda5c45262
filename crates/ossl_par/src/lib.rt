//! Whole runs of batches whose callers work in threads: the top call `batch`, from the words to the bytes out.
//! Promise: the history is legal, with each caller's calls once and in its order, and is what is written; every other
//! status has its cause, and no box is up at any status. Statuses and output are this project's own (docs/manual).
#![tactic(auto)]

mod running;
mod top_call;

pub use top_call::batch;
