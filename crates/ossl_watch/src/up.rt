//! An instance of a provider, as it is told.

/// An instance: its provider's place in the catalogue, and its number.
#[derive(Debug, Clone, Copy, PartialEq, Eq)]
pub struct Up {
    pub place: usize,
    pub number: u64,
}
