//! HKDF over any of the nine hash functions: keys of up to 255 digests out of key material.
//! `hkdf` gives the standard's bytes, or refuses a length that the standard refuses.
//! RFC 5869. Work grows with the bytes of the key material, and with the length that is asked for.
#![tactic(auto)]

mod mode;
mod steps;
#[cfg(test)]
mod tests;

pub use mode::{HkdfMode, HkdfRefused};
pub use steps::hkdf;
