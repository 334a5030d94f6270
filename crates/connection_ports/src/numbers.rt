ghost use Rattle.std.specs.Prelude.{◌≡◌};
ghost use Rattle.connection_ports.specs.Numbers.{creation_number, as_creation, close_number, state_number};

use crate::{
    ChannelStateNewError, DynamicStorageOpenError, Numbered, PortCloseError, ZeroCopyCreationError,
};

impl Numbered for ZeroCopyCreationError {
    ghost number = { creation_number };

    fn number(self) -> u64 {
        match self {
            ZeroCopyCreationError::SettingTooLarge => 1,
            ZeroCopyCreationError::RoomTooSmall => 2,
            ZeroCopyCreationError::InitializationNotYetFinalized(_) => 3,
            ZeroCopyCreationError::VersionMismatch(_) => 4,
            ZeroCopyCreationError::InternalError(_) => 5,
            ZeroCopyCreationError::ConnectionMaybeCorrupted => 6,
            ZeroCopyCreationError::AnotherInstanceIsAlreadyConnected => 7,
            ZeroCopyCreationError::IsBeingCleanedUp => 8,
            ZeroCopyCreationError::IncompatibleBufferSize => 9,
            ZeroCopyCreationError::IncompatibleMaxBorrowedSamplesPerChannelSetting => 10,
            ZeroCopyCreationError::IncompatibleOverflowSetting => 11,
            ZeroCopyCreationError::IncompatibleNumberOfSamples => 12,
            ZeroCopyCreationError::IncompatibleNumberOfSegments => 13,
            ZeroCopyCreationError::IncompatibleNumberOfChannels => 14,
        }
    }
}

impl From<DynamicStorageOpenError> for ZeroCopyCreationError {
    ghost from_gives = { λ fault error. error ≡ as_creation fault };

    fn from(fault: DynamicStorageOpenError) -> ZeroCopyCreationError {
        match fault {
            DynamicStorageOpenError::InitializationNotYetFinalized => {
                ZeroCopyCreationError::InitializationNotYetFinalized(fault)
            }
            DynamicStorageOpenError::VersionMismatch => ZeroCopyCreationError::VersionMismatch(
                fault,
            ),
            DynamicStorageOpenError::DoesNotExist | DynamicStorageOpenError::InternalError => {
                ZeroCopyCreationError::InternalError(fault)
            }
        }
    }
}

impl Numbered for PortCloseError {
    ghost number = { close_number };

    fn number(self) -> u64 {
        match self {
            PortCloseError::Unsound => 50,
        }
    }
}

impl Numbered for ChannelStateNewError {
    ghost number = { state_number };

    fn number(self) -> u64 {
        match self {
            ChannelStateNewError::ValueOutOfBounds => 52,
        }
    }
}
