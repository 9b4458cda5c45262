//! The callers of a batch in threads, over one shared registry.
//! Promise: the program's opening stands before all their entries; each caller's entries are its script's calls,
//! whatever the order in which the threads came to it; and all passes come back. The order is the one in which calls
//! took place.
#![tactic(auto)]

mod course;
mod crew;
mod running;
mod unshared;

pub use course::{Course, run_callers, run_course};
pub use crew::Crew;
pub use running::{Back, run_crew};
pub use unshared::Unshared;
