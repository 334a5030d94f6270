//! The two ports of a connection: their creation over a storage, and their end.
#![tactic(auto)]

mod borrow_counters;
mod builder;
mod channel_state;
mod closing;
mod creation;
mod error;
mod fresh;
mod laws;
mod numbered;
mod numbers;
mod port;
mod port_states;
mod queues;

pub use borrow_counters::BorrowCounters;
pub use builder::Builder;
pub use channel_state::ChannelState;
pub use closing::close;
pub use error::{
    ChannelStateNewError, DynamicStorageOpenError, PortCloseError, ZeroCopyCreationError,
};
pub use laws::{port_refusals_leave, ports_in_either_order, small_room};
pub use numbered::Numbered;
pub use port::{Port, PortToken};
