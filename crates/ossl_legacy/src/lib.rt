//! RC4, the stream cipher of the provider `legacy`.
//!
//! Every way of cutting a text into pieces gives RC4 of the whole text, as in textbooks (Schneier, Applied
//! Cryptography, 17.1; draft-kaukonen-cipher-arcfour-03). The work grows with the bytes alone.
#![tactic(auto)]

pub mod rc4;

pub use rc4::{KeyLength, Rc4};

#[cfg(test)]
mod tests;
