//! The names of the answers of a connection.
#![tactic(auto)]

ghost use Rattle.std.specs.Prelude.{◌≡◌, ℕ, ◌≤◌, [], ◌++◌, length, drop, ◌≢◌};
ghost use Rattle.answers.specs.Names.{name_of};

/// The name of an answer. A number that is no answer has the empty name.
// By its number, whichever error that came from.
#[tactic(auto, unfolding(crate::specs::Names::name_of))]
pub fn name(number: u64) -> &'static str
    ensures { result.now ≡ name_of number }
{
    match number {
        1 => "SettingTooLarge",
        2 => "RoomTooSmall",
        3 => "InitializationNotYetFinalized",
        4 => "VersionMismatch",
        5 => "InternalError",
        6 => "ConnectionMaybeCorrupted",
        7 => "AnotherInstanceIsAlreadyConnected",
        8 => "IsBeingCleanedUp",
        9 => "IncompatibleBufferSize",
        10 => "IncompatibleMaxBorrowedSamplesPerChannelSetting",
        11 => "IncompatibleOverflowSetting",
        12 => "IncompatibleNumberOfSamples",
        13 => "IncompatibleNumberOfSegments",
        14 => "IncompatibleNumberOfChannels",
        15 => "DoesNotExist",
        20 => "ReceiveBufferFull",
        21 => "BadSegment",
        22 => "ZeroSize",
        23 => "SizeChanged",
        24 => "Misaligned",
        25 => "IndexTooLarge",
        26 => "AlreadyUsed",
        27 => "ConnectionCorrupted",
        28 => "NoConnectedReceiverAndBufferIsFull",
        29 => "ChannelIsClosed",
        30 => "UnableToDeliver",
        31 => "WaitSpent",
        32 => "ReceiverReturnedCorruptedPointerOffset",
        33 => "ListTooShort",
        40 => "ReceiveWouldExceedMaxBorrowValue",
        41 => "RetrieveBufferFull",
        42 => "NothingBorrowed",
        50 => "Unsound",
        51 => "BadChannel",
        52 => "ValueOutOfBounds",
        _ => "",
    }
}

/// Writes the name of an answer to the front of some bytes, leaves those behind it, and answers its length.
#[tactic(auto, using(crate::proofs::Table::fits))]
pub fn write_name(number: u64, bytes: &mut [u8; 47]) -> usize
    ensures written { bytes.new ≡ name_of number ++ drop (length (name_of number)) bytes.old }
    ensures counted { result ≡ length (name_of number) }
{
    // The bytes are the caller's, so that nothing is allocated.
    let text = name(number).as_bytes();
    bytes[..text.len()].copy_from_slice(text);
    text.len()
}

/// No name is longer than 47 bytes, and no two numbers have the same name, unless it is empty.
#[tactic(auto, using(crate::proofs::Table::fits, crate::proofs::Table::differ))]
pub fn names_fit()
    ensures fit { (n : ℕ) → length (name_of n) ≤ 47 }
    ensures differ { (m n : ℕ) → name_of m ≡ name_of n → (name_of m ≢ []) → m ≡ n }
{}
