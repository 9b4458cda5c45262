//! The recent answers of a library context: the last 64 keys that fetches asked for, each with the row that answered
//! it.
//! Promises the exact list, the most recently used first, and takes no memory but for a new cache.
//! The rules are this project's own. Each call looks at the 64 places, and compares whole keys only where marks agree.
#![tactic(auto)]

mod cache;
mod held;
mod key;
mod mark;
mod places;

pub use cache::QueryCache;
pub use key::{Kept, Key};

#[cfg(test)]
mod tests;
