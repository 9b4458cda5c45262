//! A provider that refuses chosen starts, for tests of whoever keeps providers.
//! Promise: it refuses exactly the starts whose numbers are listed, counts each of them, and is in all else
//! the provider of a table.
//! After OSSL_PROVIDER(3). A start looks through the listed numbers, and a stop through the instances up; none
//! takes memory.
#![tactic(auto)]

mod faulty;
#[cfg(test)]
mod tests;

pub use faulty::Faulty;
