//! Runs in a stated order: the program's opening and closing, whose turn it is, and what callers give back.
//! Promise: the entries of a run are the opening, the calls of the callers in turn, what they give back, and the
//! closing. Turns and openings are this project's own (docs/manual). A turn looks at each caller once.
#![tactic(auto)]

mod closing;
mod desk;
mod opening;
mod player;
mod program;
mod returning;
mod run;
mod turns;

pub use closing::close;
pub use desk::{Desk, DeskRefused};
pub use opening::{OpeningRefused, open};
pub use player::{Player, players};
pub use program::Program;
pub use returning::return_all;
pub use run::run_turns;
pub use turns::Turn;
