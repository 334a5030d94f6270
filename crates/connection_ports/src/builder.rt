use crate::ChannelState;
use connection_words::Settings;

/// What a connection is created with: its settings, and the state of its channels at first.
#[derive(Clone, Copy, Debug, PartialEq, Eq)]
pub struct Builder {
    pub settings: Settings,
    pub initial_channel_state: ChannelState,
}
