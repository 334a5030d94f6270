//! Calls on the channels of a connection: sending, receiving, releasing and reclaiming values.
#![tactic(auto)]

mod asking;
mod common;
mod error;
mod mark;
mod numbers;
mod receiving;
mod reclaiming;
mod sending;
mod used_chunk_list;

pub use asking::{borrow_count, has_data};
pub use common::open_channel;
pub use error::{
    ChannelError, ZeroCopyReceiveError, ZeroCopyReclaimError, ZeroCopyReleaseError,
    ZeroCopySendError,
};
pub use receiving::{receive, release};
pub use reclaiming::reclaim;
pub use sending::{is_full, try_send};
