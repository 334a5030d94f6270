use crate::Refusal;
use connection_words::PortState;
use dynamic_storage::Condition;
use std::fmt;

/// What a call of a script answers.
#[derive(Clone, Copy, Debug, PartialEq, Eq)]
pub enum Answer {
    Yes,
    No,
    None,
    Value(u64),
    Count(u64),
    /// The condition of the storage.
    Shows(Condition),
    /// A value taken apart.
    Place { segment: u8, offset: u64 },
    /// All words, which whoever prints the answer reads off the storage.
    List,
    Ok,
    /// A value was sent, and this one left the buffer for it.
    Evicted(u64),
    /// The port state that a close leaves.
    State(PortState),
    /// The call was refused.
    Refused(Refusal),
    /// The script holds no such port.
    NoPort,
    /// The borrow counters, which whoever prints the answer reads off the session.
    Counters,
}

impl fmt::Display for Answer {
    fn fmt<W: fmt::Write>(&self, f: &mut fmt::Formatter<W>) -> fmt::Result {
        match self {
            Answer::Yes => write!(f, "yes"),
            Answer::No => write!(f, "no"),
            Answer::None => write!(f, "none"),
            Answer::Value(value) => write!(f, "value {value}"),
            Answer::Count(count) => write!(f, "count {count}"),
            Answer::Shows(condition) => write!(f, "{condition}"),
            Answer::Place { segment, offset } => write!(f, "segment {segment} offset {offset}"),
            Answer::List | Answer::Counters => write!(f, "list"),
            Answer::Ok => write!(f, "ok"),
            Answer::Evicted(value) => write!(f, "evicted {value}"),
            Answer::State(state) => write!(f, "state {}", u64::from(*state)),
            Answer::Refused(refusal) => write!(f, "refused {refusal}"),
            Answer::NoPort => write!(f, "noport"),
        }
    }
}
