//! Callers of one shared registry: each loads, fetches, copies and gives back by typed calls, from a thread of its own.
//! Each call is one step of one legal history of all callers; a token that was given back can't be used again, nor be
//! lost. After EVP_MD_fetch(3), OSSL_PROVIDER(3) and EVP_MD_CTX_new(3). A call costs the registry's own call and a
//! turn.
#![tactic(auto)]

mod caller;
mod denied;
mod tokens;
mod typed;

pub use caller::Caller;
pub use denied::Denied;
pub use tokens::{Activation, Context, Method};
