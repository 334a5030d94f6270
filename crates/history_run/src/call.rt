use blocking_send::BackpressureToReceiverAction;
use shm_allocator::PointerOffset;

/// A call of a history, with its arguments.
#[derive(Clone, Copy, Debug, PartialEq, Eq, Drop)]
pub enum Call<P> {
    Send {
        value: PointerOffset,
        sample_size: u64,
        channel: u64,
    },
    Receive {
        channel: u64,
    },
    Release {
        value: PointerOffset,
        channel: u64,
    },
    Reclaim {
        channel: u64,
    },
    HasData {
        channel: u64,
    },
    BorrowCount {
        channel: u64,
    },
    /// A send begins to wait for room in a slot. One that waited there is given up.
    Begin {
        id: usize,
        value: PointerOffset,
        sample_size: u64,
        channel: u64,
        strategy: BackpressureToReceiverAction,
        budget: u64,
    },
    /// The send that waits in a slot makes a step.
    Step {
        id: usize,
        policy: P,
    },
}
