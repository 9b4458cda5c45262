//! Five modes of a block cipher, ECB, CBC, CFB, OFB and CTR, with padding, for texts that come in pieces of any
//! lengths.
//! What the feeds and an accepted finish append is SP 800-38A over all bytes fed; a finish refuses exactly where it
//! does.
//! The work grows with the bytes; a feed takes memory once, and at most 16 bytes are held back (SP 800-38A, RFC 5652).
#![tactic(auto)]

mod blocks;
mod kinds;
mod length;
mod mode;
mod padding;
mod state;
mod step;
#[cfg(test)]
mod tests;

pub use blocks::{append_within, each_through};
pub use kinds::{FinishRefused, ModeKind};
pub use length::padded_len;
pub use mode::run;
pub use state::Mode;
pub use step::Step;
