//! Tests of the plain registry: what it answers over small catalogues, one table a test. It offers nothing.
//! `ossl_calls` proves that each reply is the definition's; here it is seen to come, and allocating calls to succeed.
//! The printed histories follow provider(7), property(7) and OSSL_PROVIDER(3).
#![tactic(auto)]

#[cfg(test)]
mod tests;
