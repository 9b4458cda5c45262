//! The printed run: the order of all calls with what each started and stopped, and the result of each line.
//! Promises the exact text of a legal history and of the callers' results; the form is this project's own
//! (docs/manual).
//! Work grows with the entries, what they print, and the instances that are up at each. A text is made whole in
//! a vector of its own and then appended, so that nothing of it stays where memory is refused.
#![tactic(auto)]

mod order;
mod output;
mod results;
mod text;

pub use order::{batch_caller, put_order};
pub use output::{Printed, put_output};
pub use results::put_results;
