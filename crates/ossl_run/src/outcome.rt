//! What a run leaves.

use ossl_provider::boxed::Boxed;
use ossl_provider::provider::Provider;
use ossl_state::call::Entry;

/// What a run leaves.
#[derive(Drop)]
pub struct Outcome<P: Provider = Boxed> {
    /// The status with which the program ends.
    pub status: u8,
    /// The registry's history, empty where no registry was opened.
    pub history: Vec<Entry>,
    /// For each caller of the batch, from 1, its number in the history; empty where no caller began.
    pub callers: Vec<u64>,
    /// The boxes that were handed in, in their order.
    pub catalogue: Vec<P>,
}
