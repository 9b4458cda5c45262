//! Numbered names: algorithms are fetched by any of several names, and names that stand together share a number.
//! Promises that names get the number that the definition gives, and keep it, and that a refusal changes nothing.
//! Source: EVP_MD_fetch(3) in outline. A look-up and each name that joins take a logarithm of the names that are there.
#![tactic(auto)]

mod index;
mod map;
mod name;
mod refusal;

pub use map::NameMap;
pub use refusal::{AddRefused, Number};
