//! The block cipher AES for keys of 128, 192 and 256 bits, in rounds that read tables.
//! Encryption and decryption of a block are FIPS 197, and the tables are its field and matrices at every byte (FIPS
//! 197).
//! Nothing takes memory. A block's work grows with the number of rounds, 10, 12 or 14.
#![tactic(auto)]

mod aes;
mod block;
mod columns;
mod field;
mod inverse;
#[cfg(test)]
mod plain;
mod rounds;
mod schedule;
mod tables;
#[cfg(test)]
mod tests;

pub use aes::Aes;
pub use block::Block;
pub use columns::{number_block, xor_blocks};
pub use field::field_inverse;
pub use inverse::there_and_back;
pub use rounds::{dec_word, enc_word, sub, unsub};
