/// The values of a channel, by where they are.
#[derive(Debug, PartialEq, Eq, Drop)]
pub struct Lists {
    /// Sent, and neither received nor evicted.
    pub waiting: Vec<u64>,
    /// Received, and not released.
    pub on_loan: Vec<u64>,
    /// Released, and not reclaimed.
    pub returned: Vec<u64>,
}

/// What a call moved on a channel.
#[derive(Clone, Copy, Debug, PartialEq, Eq)]
pub(crate) struct Moves {
    pub(crate) channel: u64,
    pub(crate) sent: Option<u64>,
    pub(crate) evicted: Option<u64>,
    pub(crate) received: Option<u64>,
    pub(crate) released: Option<u64>,
    pub(crate) reclaimed: Option<u64>,
}
