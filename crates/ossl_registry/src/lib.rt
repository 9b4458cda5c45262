//! The registry that programs share: library contexts, providers, fetched methods and operation contexts
//! (OSSL_LIB_CTX(3), provider(7), EVP_MD_fetch(3)), each call one step of one legal history, and itself an object that
//! threads call in turn.
//! Its clauses are the plain registry's word for word. For now its work grows as the plain registry's: with the lists.
#![tactic(auto)]

mod object;
mod registry;

pub use registry::Registry;
