use ossl_codes::{Code, Operation};
use ossl_names::Number;
use ossl_property::Definition;

/// A row that an instance offers: what a fetch looks at, which is the operation, the number of the row's names and its
/// property definition; and what a fetch answers, which is the row's index in the provider, from 0, and its code.
#[derive(Drop)]
pub struct Offered {
    pub op: Operation,
    pub number: Number,
    pub row: u64,
    pub code: Code,
    pub definition: Definition,
}
