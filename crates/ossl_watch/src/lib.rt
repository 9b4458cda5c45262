//! Which instances of providers each entry of a history starts and stops, told entry by entry.
//! Promises exactly the differences between the instances that are up before and after an entry (provider(7)).
//! No box is started. An entry looks at the instances that are up, and takes a logarithm of the tokens that are out.
#![tactic(auto)]

mod running;
mod token;
mod up;
mod watch;

pub use running::Running;
pub use token::{Token, Use};
pub use up::Up;
pub use watch::{Change, Watch};
