//! Whole operations: one call that begins, feeds every piece and finishes, whatever the algorithm.
//! What it appends is the standard's result of all pieces joined, however they are cut; each refusal is the standard's.
//! FIPS 180-4, SP 800-38A, RFC 5869 and others, as in `ossl_op`. Work grows with the bytes alone.
#![tactic(auto)]

mod pieces;

pub use pieces::{RunRefused, run};
