//! CMAC, the message authentication code of a block cipher, for messages that come in pieces of any lengths.
//! The code at the end is SP 800-38B over all bytes fed, for every way of cutting (SP 800-38B).
//! Nothing takes memory; the work grows with the bytes, and up to 16 bytes are held back.
#![tactic(auto)]

mod mac;
mod state;
mod subkeys;
#[cfg(test)]
mod tests;

pub use state::Cmac;
