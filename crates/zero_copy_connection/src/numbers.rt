ghost use Rattle.std.specs.Prelude.{◌≡◌};
ghost use Rattle.zero_copy_connection.specs.Numbers.{channel_number, send_number, receive_number, release_number, reclaim_number};

use crate::{
    ChannelError, ZeroCopyReceiveError, ZeroCopyReclaimError, ZeroCopyReleaseError,
    ZeroCopySendError,
};
use connection_ports::Numbered;

impl Numbered for ChannelError {
    ghost number = { channel_number };

    fn number(self) -> u64 {
        match self {
            ChannelError::Unsound => 50,
            ChannelError::BadChannel => 51,
        }
    }
}

impl Numbered for ZeroCopySendError {
    ghost number = { send_number };

    fn number(self) -> u64 {
        match self {
            ZeroCopySendError::Channel(refusal) => refusal.number(),
            ZeroCopySendError::ReceiveBufferFull => 20,
            ZeroCopySendError::BadSegment => 21,
            ZeroCopySendError::ZeroSize => 22,
            ZeroCopySendError::SizeChanged => 23,
            ZeroCopySendError::Misaligned => 24,
            ZeroCopySendError::IndexTooLarge => 25,
            ZeroCopySendError::AlreadyUsed => 26,
            ZeroCopySendError::ConnectionCorrupted => 27,
        }
    }
}

// A table for each error, since their cases differ.
impl Numbered for ZeroCopyReceiveError {
    ghost number = { receive_number };

    fn number(self) -> u64 {
        match self {
            ZeroCopyReceiveError::Channel(refusal) => refusal.number(),
            ZeroCopyReceiveError::ReceiveWouldExceedMaxBorrowValue => 40,
        }
    }
}

impl Numbered for ZeroCopyReleaseError {
    ghost number = { release_number };

    fn number(self) -> u64 {
        match self {
            ZeroCopyReleaseError::Channel(refusal) => refusal.number(),
            ZeroCopyReleaseError::RetrieveBufferFull => 41,
            ZeroCopyReleaseError::NothingBorrowed => 42,
        }
    }
}

impl Numbered for ZeroCopyReclaimError {
    ghost number = { reclaim_number };

    fn number(self) -> u64 {
        match self {
            ZeroCopyReclaimError::Channel(refusal) => refusal.number(),
            ZeroCopyReclaimError::ReceiverReturnedCorruptedPointerOffset => 32,
        }
    }
}

// One for each error: a blanket impl over them would overlap with that of core.

impl From<ChannelError> for ZeroCopySendError {
    ghost from_gives = { λ refusal error. send_number error ≡ channel_number refusal };

    fn from(refusal: ChannelError) -> ZeroCopySendError {
        ZeroCopySendError::Channel(refusal)
    }
}

impl From<ChannelError> for ZeroCopyReceiveError {
    ghost from_gives = { λ refusal error. receive_number error ≡ channel_number refusal };

    fn from(refusal: ChannelError) -> ZeroCopyReceiveError {
        ZeroCopyReceiveError::Channel(refusal)
    }
}

impl From<ChannelError> for ZeroCopyReleaseError {
    ghost from_gives = { λ refusal error. release_number error ≡ channel_number refusal };

    fn from(refusal: ChannelError) -> ZeroCopyReleaseError {
        ZeroCopyReleaseError::Channel(refusal)
    }
}

impl From<ChannelError> for ZeroCopyReclaimError {
    ghost from_gives = { λ refusal error. reclaim_number error ≡ channel_number refusal };

    fn from(refusal: ChannelError) -> ZeroCopyReclaimError {
        ZeroCopyReclaimError::Channel(refusal)
    }
}
