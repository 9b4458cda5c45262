//! Providers: what offers rows of algorithms to a library context, and is started and stopped there as instances.
//! Promise: an accepted start adds its instance, a refused one raises the count of faults, a stop takes its instance
//! out, and nothing else changes.
//! After OSSL_PROVIDER(3) and provider(7). A stop grows with the instances up, every other call with nothing, and none
//! takes memory.
#![tactic(auto)]

pub mod boxed;
pub mod provider;
pub mod table;
#[cfg(test)]
mod tests;

pub use boxed::Boxed;
pub use ossl_codes::{Code, Operation};
pub use provider::{Provider, Refused};
pub use table::{TableProvider, TableRow};
