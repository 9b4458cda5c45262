//! A block cipher in Galois/Counter mode, with additional data and a 16-byte tag, for texts in pieces of any length.
//! What the feeds and an accepted finish append is SP 800-38D over all bytes fed, and a finish refuses exactly where it
//! does; a decryption gives nothing before its tag is checked. Work grows with the bytes; a decryption holds its text.
#![tactic(auto)]

mod counter;
mod gcm;
mod kinds;
mod open;
mod seal;
mod state;
mod stream;
#[cfg(test)]
mod tests;
#[cfg(test)]
mod vectors;

pub use gcm::run;
pub use kinds::{GcmRefused, IvLength};
pub use ossl_ghash::product;
pub use state::Gcm;
