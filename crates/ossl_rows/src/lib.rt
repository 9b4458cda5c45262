//! The built-in providers: `default`, `legacy`, `fips`, `null` and `base`, each a table of rows that is ready to be
//! started.
//! Promise: each provider has exactly the rows of its table, in order, its rule on keys, and nothing up.
//! After OSSL_PROVIDER-default(7), OSSL_PROVIDER-legacy(7), OSSL_PROVIDER-FIPS(7), OSSL_PROVIDER-null(7) and
//! OSSL_PROVIDER-base(7). Work and memory grow with the rows, beside the room for 65,536 instances.
#![tactic(auto)]

mod cases;
mod kind;
mod tables;
#[cfg(test)]
mod tests;

pub use kind::Builtin;
pub use tables::builtin;
