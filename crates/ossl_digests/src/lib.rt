//! Nine hash functions behind one small type: a `Digester` of a `Hash` is fed bytes in any pieces.
//! `finish` gives the standard's digest of all bytes fed, and no call takes memory.
//! FIPS 180-4 (SHA-1, SHA-2), RFC 1321 (MD5), RFC 1320 (MD4). Work grows with the bytes fed.
#![tactic(auto)]

mod digester;
mod hash;
mod md4;
mod rounds;
mod state;
#[cfg(test)]
mod tests;
mod value;

pub use digester::Digester;
pub use hash::Hash;
pub use value::HashValue;
