/// Where a queue stands in the words: its start and its count at `heads` and `heads + 1`, its slots from `slots` on.
#[derive(Clone, Copy, Debug, PartialEq, Eq)]
pub struct Ring {
    pub heads: u64,
    pub slots: u64,
    pub capacity: u64,
}
