//! The names of what can be fetched: operations, algorithm codes, and the words of their parameters.
//! Promises of each code its operation and, for a digest, the sizes of its standard.
//! Source: FIPS 180-4 (figure 1), RFC 1321, RFC 1320. All work is constant.
#![tactic(auto)]

mod code;
mod param;

pub use code::{AesMode, Bits, Code, Operation};
pub use param::{Direction, KdfMode, Param};
