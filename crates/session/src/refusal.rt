ghost use Rattle.std.specs.Prelude.{◌≡◌, Some};
ghost use Rattle.session.specs.Refusals.{refusal_number, refusal_text};
ghost use Rattle.session.specs.declared.refusal.Refusal.TheVariants.{State, Creation, Close, Send, Receive, Release, Reclaim, Channel};

use connection_ports::{ChannelStateNewError, Numbered, PortCloseError, ZeroCopyCreationError};
use std::error::Error;
use std::fmt;
use zero_copy_connection::{
    ChannelError, ZeroCopyReceiveError, ZeroCopyReclaimError, ZeroCopyReleaseError,
    ZeroCopySendError,
};

/// Why a call of a script was refused.
#[derive(Clone, Copy, Debug, PartialEq, Eq)]
pub enum Refusal {
    State(ChannelStateNewError),
    Creation(ZeroCopyCreationError),
    Close(PortCloseError),
    Send(ZeroCopySendError),
    Receive(ZeroCopyReceiveError),
    Release(ZeroCopyReleaseError),
    Reclaim(ZeroCopyReclaimError),
    Channel(ChannelError),
}

impl Numbered for Refusal {
    ghost number = { refusal_number };

    fn number(self) -> u64 {
        match self {
            Refusal::State(error) => error.number(),
            Refusal::Creation(error) => error.number(),
            Refusal::Close(error) => error.number(),
            Refusal::Send(error) => error.number(),
            Refusal::Receive(error) => error.number(),
            Refusal::Release(error) => error.number(),
            Refusal::Reclaim(error) => error.number(),
            Refusal::Channel(error) => error.number(),
        }
    }
}

impl fmt::Display for Refusal {
    ghost output = { λ refusal. Some (refusal_text refusal) };

    fn fmt<W: fmt::Write>(&self, f: &mut fmt::Formatter<W>) -> fmt::Result {
        let number = self.number();
        write!(f, "{number} {}", answers::name(number))
    }
}

impl Error for Refusal {}

// From by hand, since a derived one states no from_gives.

impl From<ChannelStateNewError> for Refusal {
    ghost from_gives = { λ error refusal. refusal ≡ State error };

    fn from(error: ChannelStateNewError) -> Refusal {
        Self::State(error)
    }
}

impl From<ZeroCopyCreationError> for Refusal {
    ghost from_gives = { λ error refusal. refusal ≡ Creation error };

    fn from(error: ZeroCopyCreationError) -> Refusal {
        Self::Creation(error)
    }
}

impl From<PortCloseError> for Refusal {
    ghost from_gives = { λ error refusal. refusal ≡ Close error };

    fn from(error: PortCloseError) -> Refusal {
        Self::Close(error)
    }
}

impl From<ZeroCopySendError> for Refusal {
    ghost from_gives = { λ error refusal. refusal ≡ Send error };

    fn from(error: ZeroCopySendError) -> Refusal {
        Self::Send(error)
    }
}

impl From<ZeroCopyReceiveError> for Refusal {
    ghost from_gives = { λ error refusal. refusal ≡ Receive error };

    fn from(error: ZeroCopyReceiveError) -> Refusal {
        Self::Receive(error)
    }
}

impl From<ZeroCopyReleaseError> for Refusal {
    ghost from_gives = { λ error refusal. refusal ≡ Release error };

    fn from(error: ZeroCopyReleaseError) -> Refusal {
        Self::Release(error)
    }
}

impl From<ZeroCopyReclaimError> for Refusal {
    ghost from_gives = { λ error refusal. refusal ≡ Reclaim error };

    fn from(error: ZeroCopyReclaimError) -> Refusal {
        Self::Reclaim(error)
    }
}

impl From<ChannelError> for Refusal {
    ghost from_gives = { λ error refusal. refusal ≡ Channel error };

    fn from(error: ChannelError) -> Refusal {
        Self::Channel(error)
    }
}
