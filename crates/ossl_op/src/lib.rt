//! Operations on bytes by an algorithm's code: whether one may begin, and one type that runs any of them in pieces.
//! A beginning is refused by the first check that fails; what an operation gives is its standard's result of all bytes.
//! FIPS 180-4, SP 800-38A, RFC 5869 and others; the order of checks is this project's. Work grows with the bytes alone.
#![tactic(auto)]

mod algorithm;
mod at_end;
mod begin;
mod context;
mod derived;
mod in_pieces;
mod judgement;
mod needs;
mod params;
mod tables;

pub use context::OpCtx;
pub use judgement::judge;
pub use needs::{is_directed, needed};
pub use ossl_modes::FinishRefused;
pub use params::{BeginRefused, Params};
pub use tables::hash_of;
