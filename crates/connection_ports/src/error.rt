/// Why a storage cannot be opened.
#[derive(Clone, Copy, Debug, PartialEq, Eq)]
pub enum DynamicStorageOpenError {
    DoesNotExist,
    InitializationNotYetFinalized,
    VersionMismatch,
    InternalError,
}

/// Why a port is not created.
#[derive(Clone, Copy, Debug, PartialEq, Eq)]
pub enum ZeroCopyCreationError {
    SettingTooLarge,
    RoomTooSmall,
    InitializationNotYetFinalized(DynamicStorageOpenError),
    VersionMismatch(DynamicStorageOpenError),
    InternalError(DynamicStorageOpenError),
    ConnectionMaybeCorrupted,
    AnotherInstanceIsAlreadyConnected,
    IsBeingCleanedUp,
    IncompatibleBufferSize,
    IncompatibleMaxBorrowedSamplesPerChannelSetting,
    IncompatibleOverflowSetting,
    IncompatibleNumberOfSamples,
    IncompatibleNumberOfSegments,
    IncompatibleNumberOfChannels,
}

/// Why closing a port changes nothing.
#[derive(Clone, Copy, Debug, PartialEq, Eq)]
pub enum PortCloseError {
    Unsound,
}

/// Why a number is no state of a channel.
#[derive(Clone, Copy, Debug, PartialEq, Eq)]
pub enum ChannelStateNewError {
    ValueOutOfBounds,
}
