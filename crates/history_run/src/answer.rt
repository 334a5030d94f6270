/// What a call of a history answers.
#[derive(Clone, Copy, Debug, PartialEq, Eq)]
pub enum Answer {
    /// A refusal by its number: the theorems compare answers, and the definition of an answer gives numbers.
    Refused(u64),
    Nothing,
    Value(u64),
    Flag(bool),
    Number(u64),
    /// A value was sent on a channel, at once or by a step, and another may have left the buffer for it.
    Sent {
        value: u64,
        channel: u64,
        evicted: Option<u64>,
    },
    Begun,
    /// There is no such slot.
    NoSlot,
    /// The send goes on waiting.
    Pending,
    /// No send waits in the slot.
    NoWait,
}
