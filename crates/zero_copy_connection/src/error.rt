/// Why a call on a channel is not served.
#[derive(Clone, Copy, Debug, PartialEq, Eq)]
pub enum ChannelError {
    /// The words are no connection, or a queue of the channel is not sound.
    Unsound,
    /// There is no such channel.
    BadChannel,
}

/// Why a value was not sent; or, for `ConnectionCorrupted`, that the value it evicted was no used chunk.
#[derive(Clone, Copy, Debug, PartialEq, Eq)]
pub enum ZeroCopySendError {
    Channel(ChannelError),
    ReceiveBufferFull,
    BadSegment,
    ZeroSize,
    SizeChanged,
    Misaligned,
    IndexTooLarge,
    AlreadyUsed,
    ConnectionCorrupted,
}

/// Why nothing was received.
#[derive(Clone, Copy, Debug, PartialEq, Eq)]
pub enum ZeroCopyReceiveError {
    Channel(ChannelError),
    ReceiveWouldExceedMaxBorrowValue,
}

/// Why a value was not released.
#[derive(Clone, Copy, Debug, PartialEq, Eq)]
pub enum ZeroCopyReleaseError {
    Channel(ChannelError),
    RetrieveBufferFull,
    NothingBorrowed,
}

/// Why no value was reclaimed.
#[derive(Clone, Copy, Debug, PartialEq, Eq)]
pub enum ZeroCopyReclaimError {
    Channel(ChannelError),
    ReceiverReturnedCorruptedPointerOffset,
}
