ghost use Rattle.std.specs.Prelude.{◌≡◌};
ghost use Rattle.zero_copy_connection.specs.Numbers.{channel_number, send_number};
ghost use Rattle.blocking_send.specs.Numbers.{blocking_number};

use crate::ZeroCopyBlockingSendError;
use connection_ports::Numbered;
use zero_copy_connection::{ChannelError, ZeroCopySendError};

impl Numbered for ZeroCopyBlockingSendError {
    ghost number = { blocking_number };

    fn number(self) -> u64 {
        match self {
            ZeroCopyBlockingSendError::Send(refusal) => refusal.number(),
            ZeroCopyBlockingSendError::NoConnectedReceiverAndBufferIsFull => 28,
            ZeroCopyBlockingSendError::ChannelIsClosed => 29,
            ZeroCopyBlockingSendError::UnableToDeliver => 30,
            ZeroCopyBlockingSendError::WaitSpent => 31,
        }
    }
}

impl From<ZeroCopySendError> for ZeroCopyBlockingSendError {
    ghost from_gives = { λ refusal error. blocking_number error ≡ send_number refusal };

    fn from(refusal: ZeroCopySendError) -> ZeroCopyBlockingSendError {
        Self::Send(refusal)
    }
}

impl From<ChannelError> for ZeroCopyBlockingSendError {
    ghost from_gives = { λ refusal error. blocking_number error ≡ channel_number refusal };

    fn from(refusal: ChannelError) -> ZeroCopyBlockingSendError {
        ZeroCopyBlockingSendError::from(ZeroCopySendError::from(refusal))
    }
}
