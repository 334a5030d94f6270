use connection_ports::Port;
use connection_words::Settings;
use dynamic_storage::Stage;

/// What holds the words of a storage.
#[derive(Clone, Copy, Debug, PartialEq, Eq)]
pub enum Backing {
    Words(u64),
    Bytes(u64),
    Inner,
}

/// A window over the storage below it.
#[derive(Clone, Copy, Debug, PartialEq, Eq)]
pub struct Frame {
    pub place: u64,
    pub count: u64,
}

/// A backing with the layers over it, the lowest first.
#[derive(Clone, Copy, Debug, PartialEq, Eq)]
pub struct Pile {
    pub backing: Backing,
    pub lower: Option<Frame>,
    /// Whether the bytes of each word are reversed, between the two windows.
    // A layer without a value, there or not.
    pub swapped: bool,
    pub upper: Option<Frame>,
}

/// The word of a state, as a line writes it.
// No Option<u64>: closed is a state that is asked for, and not a missing one.
#[derive(Clone, Copy, Debug, PartialEq, Eq)]
pub enum StateWord {
    Number(u64),
    Closed,
}

/// A call that a line asks for.
#[derive(Clone, Copy, Debug, PartialEq, Eq)]
pub enum Call {
    Condition,
    Length,
    Words,
    Read(u64),
    Write(u64, u64),
    SetCondition(Stage),
    Code(u64),
    Offset(u64),
    Value(u64, u8),
    Settings(Settings, StateWord),
    Create(Port),
    Close(Port),
    Counters,
    Send {
        offset: u64,
        segment: u8,
        size: u64,
        channel: u64,
    },
    Receive(u64),
    Release(u64, u8, u64),
    Reclaim(u64),
    HasData(u64),
    BorrowCount(u64),
}

/// What a line says.
#[derive(Clone, Copy, Debug, PartialEq, Eq)]
pub enum Line {
    Blank,
    Storage(Pile),
    Call(Call),
}

/// What was expected where a line was not understood.
#[derive(Clone, Copy, Debug, PartialEq, Eq)]
pub enum Expected {
    Keyword,
    Number,
    Segment,
    Stage,
    Backing,
    Layer,
    Overflow,
    State,
    Port,
    End,
    StorageFirst,
    CodeNeedsMemory,
}
