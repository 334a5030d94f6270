ghost use Rattle.std.specs.Prelude.{◌+◌, ◌^◌, ◌<◌, ◌≤◌};

use crate::{BackpressureToReceiverAction, ZeroCopyBlockingSendError};
use shm_allocator::PointerOffset;

/// A send that waits for room. It is moved into each step and comes back only while it is pending, so one that has ended
/// cannot be stepped again; one that is let go is not sent.
#[derive(Debug, PartialEq, Eq, Drop)]
pub struct Waiting {
    pub(crate) value: PointerOffset,
    pub(crate) sample_size: u64,
    pub(crate) channel: u64,
    pub(crate) strategy: BackpressureToReceiverAction,
    pub(crate) budget: u64,
    pub(crate) retries: u64,
    pub(crate) steps: u64,
    // A flag beside the retries, as in the definition of a pending send: an Option in place of both would forget how often
    // the policy was asked.
    pub(crate) until_delivered: bool,
    ghost fits: { steps + budget < 2 ^ 64 },
    ghost asked: { retries ≤ steps },
}

/// What a step of a pending send comes to.
// No Result: to stay pending is neither of its cases, and the end is a Result itself.
#[derive(Debug, PartialEq, Eq, Drop)]
pub enum Step {
    Pending(Waiting),
    Ended(Result<Option<u64>, ZeroCopyBlockingSendError>),
}
