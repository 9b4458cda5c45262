//! The product of GCM's field of 128 bits, and GHASH by a table of 16 multiples of the hash subkey.
//! The table's product is the standard's, which is linear in each factor; GHASH goes on from any value (SP 800-38D).
//! Nothing takes memory; the work grows with the bytes.
#![tactic(auto)]

mod field;
mod key;
#[cfg(test)]
mod tests;

pub use field::product;
pub use key::HashKey;
