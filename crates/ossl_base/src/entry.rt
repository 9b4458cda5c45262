/// One answered call: who made it, what was asked, and the answer. A history is a list of these, the oldest first.
#[derive(Drop, Debug, PartialEq, Eq)]
pub struct Entry<C, R> {
    /// The number of the caller.
    pub caller: u64,
    pub call: C,
    pub reply: R,
}
