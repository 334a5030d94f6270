ghost use Rattle.std.specs.Prelude.{◌≡◌, replicate};

/// How many values a receiver has borrowed on each channel.
// An array for all channels that there can be: a receiver takes no heap.
#[derive(Debug, PartialEq, Eq, Drop)]
pub struct BorrowCounters {
    pub counts: [u64; 64],
}

impl BorrowCounters {
    pub fn new() -> BorrowCounters
        ensures { result.counts ≡ replicate 64 0 }
    {
        BorrowCounters { counts: [0; 64] }
    }
}
