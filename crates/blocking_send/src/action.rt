/// What is done with a value for which there is no room.
#[derive(Clone, Copy, Debug, PartialEq, Eq)]
pub enum BackpressureToReceiverAction {
    /// The action that the strategy names.
    FollowBackpressureyStrategy,
    /// Stays pending and asks again; as the action of a strategy, stays pending until delivered.
    Retry,
    /// Ends with a last try to send, which is refused where the buffer is full and does not overflow.
    DiscardPointerOffset,
    /// Ends with an error, without a try.
    DiscardPointerOffsetAndFail,
}
