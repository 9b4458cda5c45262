//! ChaCha20, the stream cipher of RFC 8439, with a counter and a nonce of the caller's.
//!
//! Every way of cutting a message into pieces gives the RFC's text of the whole message, and a message that is longer
//! than its key stream is refused at the end. The work grows with the bytes alone.
#![tactic(auto)]

pub mod chacha;
pub mod generator;

pub use chacha::{ChaCha, StreamEnd};
pub use generator::generator_of;

#[cfg(test)]
mod tests;
