ghost use Rattle.std.specs.Prelude.{◌≡◌, ◌+◌, IfOk, if◌then◌else◌, Some, None, ◌==◌};
ghost use Rattle.connection_words.specs.PortStates.{state_word};
ghost use Rattle.connection_ports.specs.Numbers.{creation_number, refused_by, fault_of, bit_of};
ghost use Rattle.connection_ports.specs.Creation.{holds};
ghost use Rattle.connection_ports.specs.Closing.{state_without};
ghost use Rattle.connection_ports.specs.Laws.{other};
ghost use Rattle.connection_ports.specs.declared.error.ZeroCopyCreationError.TheVariants as creation;

use crate::{Port, ZeroCopyCreationError};
use connection_words::{PortState, UnknownPortState};

/// The port state in which a port is the only one.
impl From<Port> for PortState {
    ghost from_gives = { λ port state. state_word state ≡ bit_of port };

    fn from(port: Port) -> PortState {
        match port {
            Port::Sender => PortState::Sender,
            Port::Receiver => PortState::Receiver,
        }
    }
}

impl From<UnknownPortState> for ZeroCopyCreationError {
    ghost from_gives = { λ _ error. error ≡ creation.ConnectionMaybeCorrupted };

    fn from(_word: UnknownPortState) -> ZeroCopyCreationError {
        ZeroCopyCreationError::ConnectionMaybeCorrupted
    }
}

impl Port {
    /// The other port.
    pub fn other(self) -> Port
        ensures { result ≡ other self }
    {
        match self {
            Port::Sender => Port::Receiver,
            Port::Receiver => Port::Sender,
        }
    }

    /// The port state with this port more, or why the port cannot join.
    pub(crate) fn joins(self, state: PortState) -> Result<PortState, ZeroCopyCreationError>
        ensures answer { refused_by creation_number result ≡ (if holds self (state_word state) then Some 7 else if state_word state == 128 then Some 8 else None) }
        ensures fault { fault_of result ≡ None }
        ensures joined { IfOk result (λ joined. state_word joined ≡ state_word state + bit_of self) }
    {
        match (self, state) {
            (_, PortState::Both)
            | (Port::Sender, PortState::Sender)
            | (Port::Receiver, PortState::Receiver) => {
                Err(ZeroCopyCreationError::AnotherInstanceIsAlreadyConnected)
            }
            (_, PortState::MarkedForDestruction) => Err(ZeroCopyCreationError::IsBeingCleanedUp),
            (_, PortState::Neither) => Ok(PortState::from(self)),
            (Port::Sender, PortState::Receiver) | (Port::Receiver, PortState::Sender) => {
                Ok(PortState::Both)
            }
        }
    }

    /// The port state without this port: the last one marks the connection for destruction.
    pub(crate) fn leaves(self, state: PortState) -> PortState
        ensures { state_word result ≡ state_without (bit_of self) (state_word state) }
    {
        match (self, state) {
            (Port::Sender, PortState::Sender) | (Port::Receiver, PortState::Receiver) => {
                PortState::MarkedForDestruction
            }
            (Port::Sender, PortState::Both) => PortState::Receiver,
            (Port::Receiver, PortState::Both) => PortState::Sender,
            _ => state,
        }
    }
}
