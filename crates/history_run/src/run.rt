use crate::Answer;
use blocking_send::Waiting;
use connection_ports::{BorrowCounters, PortToken, ZeroCopyCreationError};

/// The two ports of a connection, which have to be closed, and the counters of its receiver.
#[derive(Debug, PartialEq, Eq)]
pub struct Ports {
    pub sender: PortToken,
    pub receiver: PortToken,
    pub counters: BorrowCounters,
}

/// What a history leaves to its caller, beside the storage.
#[derive(Debug, PartialEq, Eq)]
pub struct Run {
    pub ports: Ports,
    /// The sends that are still pending, by their slots.
    // By number, since a call of a history names a send by its slot.
    pub waits: Vec<Option<Waiting>>,
    /// What the calls answered, in order.
    pub answers: Vec<Answer>,
}

/// What is reserved before anything is changed.
#[derive(Drop)]
pub(crate) struct Memory {
    pub(crate) answers: Vec<Answer>,
    pub(crate) waits: Vec<Option<Waiting>>,
}

/// Why no history was made.
#[derive(Clone, Copy, Debug, PartialEq, Eq)]
pub enum RunError {
    OutOfMemory,
    /// The storage is in use, so that the connection would not be a new one.
    NotAbsent,
    /// The first port was refused.
    Creation(ZeroCopyCreationError),
}
