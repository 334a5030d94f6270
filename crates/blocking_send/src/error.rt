use zero_copy_connection::ZeroCopySendError;

/// Why a pending send ended without its value being sent; or, for a `Send` with `ConnectionCorrupted`, that the value it
/// evicted was no used chunk.
#[derive(Clone, Copy, Debug, PartialEq, Eq)]
pub enum ZeroCopyBlockingSendError {
    Send(ZeroCopySendError),
    NoConnectedReceiverAndBufferIsFull,
    ChannelIsClosed,
    UnableToDeliver,
    WaitSpent,
}
