//! What is needed before a batch is run: its text read into commands, its limits, its files and its configuration.
//! Promise: the first error line in the order of the checks, or all that a run needs, as `specs/Due.antt` says.
//! Limits, files and error lines are this project's own (docs/manual). Work grows with the bytes that are read.
#![tactic(auto)]

mod contents;
mod error_line;
mod reading;
mod ready;
mod refused;
mod settings;

pub use error_line::ErrorLine;
pub use reading::{Task, order_of, read_task};
pub use ready::{Prepared, prepare};
pub use refused::Refused;
