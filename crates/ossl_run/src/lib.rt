//! Whole runs of batches: the top call `replay`, from the words and the bytes in to the bytes out.
//! Promise: the history is legal and in the stated order, what is written is that history and its results, every other
//! status has its cause, and no box is up at any status. Statuses and output are this project's own (docs/manual).
#![tactic(auto)]

mod answer;
mod course;
mod outcome;
mod output;
mod running;
mod top_call;

pub use answer::{Answer, NO_MEMORY, course_answer, error_answer, send};
pub use course::Course;
pub use outcome::Outcome;
pub use running::Ran;
pub use top_call::{own_callers, refuse, replay, untouched};
