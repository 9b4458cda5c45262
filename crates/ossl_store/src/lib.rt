//! The methods that active instances offer, by operation and number, and the best of them under a query.
//! Promises the choice of the definition, after property(7) and provider(7), over what was offered and not withdrawn.
//! A look-up takes the logarithm of the names, and then only the rows under its operation and number; to withdraw takes
//! what the instance offered, and for each row the logarithm of what is there.
#![tactic(auto)]

mod choice;
mod offered;
mod shelves;
mod store;

pub use offered::Offered;
pub use store::Store;

#[cfg(test)]
mod tests;
