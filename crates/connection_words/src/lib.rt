//! The words of a connection: what its settings are, where its parts stand, and its queues.
#![tactic(auto)]

mod channel;
mod laws;
mod layout;
mod limits;
mod port_state;
mod queue;
mod ring;
mod settings;
mod soundness;
mod used_chunk_list;
mod words;

pub use channel::Channel;
pub use laws::{others_stay, places_apart, queue_order, small_connection};
pub use layout::Layout;
pub use port_state::{PortState, UnknownPortState};
pub use queue::Queue;
pub use ring::Ring;
pub use settings::Settings;
pub use soundness::layout_of;
pub use used_chunk_list::chunk_mark;
pub use words::{put, word};
