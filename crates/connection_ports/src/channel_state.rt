ghost use Rattle.std.specs.Prelude.{◌≡◌, ◌^◌, IfOk, if◌then◌else◌, Some, None, nat_lt};
ghost use Rattle.connection_ports.specs.Numbers.{refused_by, state_number};

use crate::ChannelStateNewError;

// A number, as the words state it, in which the largest is closed: the Rust has it so.

/// The state of a channel: closed, or a number up to 2^62 that its ports give a meaning to, 0 for open.
#[derive(Clone, Copy, Debug, PartialEq, Eq)]
pub struct ChannelState(u64);

impl ChannelState {
    pub fn new(value: u64) -> Result<ChannelState, ChannelStateNewError>
        ensures answer { refused_by state_number result ≡ (if nat_lt (2 ^ 62) value then Some 52 else None) }
        ensures value { IfOk result (λ state. state.0 ≡ value) }
    {
        if value > 1 << 62 {
            return Err(ChannelStateNewError::ValueOutOfBounds);
        }
        Ok(ChannelState(value))
    }

    pub fn open() -> ChannelState
        ensures { result.0 ≡ 0 }
    {
        ChannelState(0)
    }

    pub fn closed() -> ChannelState
        ensures { result.0 ≡ 18446744073709551615 }
    {
        ChannelState(u64::MAX)
    }

    pub fn value(self) -> u64
        ensures { result ≡ self.0 }
    {
        self.0
    }
}
