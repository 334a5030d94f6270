ghost use Rattle.std.specs.Prelude.{◌≡◌};
ghost use Rattle.connection_words.specs.PortStates.{state_word, Decodes};

/// Which ports are registered, as the first word of a connection states it.
#[derive(Clone, Copy, Debug, PartialEq, Eq)]
pub enum PortState {
    Neither,
    Sender,
    Receiver,
    Both,
    MarkedForDestruction,
}

/// A word that states no port state.
#[derive(Clone, Copy, Debug, PartialEq, Eq)]
pub struct UnknownPortState(pub u64);

impl TryFrom<u64> for PortState {
    type Error = UnknownPortState;

    ghost try_from_gives = { Decodes };

    fn try_from(word: u64) -> Result<PortState, UnknownPortState> {
        match word {
            0 => Ok(PortState::Neither),
            1 => Ok(PortState::Sender),
            2 => Ok(PortState::Receiver),
            3 => Ok(PortState::Both),
            128 => Ok(PortState::MarkedForDestruction),
            _ => Err(UnknownPortState(word)),
        }
    }
}

/// The word that states a port state.
impl From<PortState> for u64 {
    ghost from_gives = { λ state word. word ≡ state_word state };

    fn from(state: PortState) -> u64 {
        match state {
            PortState::Neither => 0,
            PortState::Sender => 1,
            PortState::Receiver => 2,
            PortState::Both => 3,
            PortState::MarkedForDestruction => 128,
        }
    }
}
