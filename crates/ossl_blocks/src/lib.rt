//! A block buffer: it cuts bytes that come in pieces of any lengths into whole blocks, for hash functions, codes and
//! modes.
//! The bytes fed are the blocks that were handed on, in order, and then those that are held yet: none is lost or
//! repeated.
//! Nothing takes memory. What is copied is less than two blocks a piece, and nothing where the pieces are whole blocks.
#![tactic(auto)]

mod buffer;
mod state;
mod taker;

pub use state::Buffer;
pub use taker::BlockTaker;
