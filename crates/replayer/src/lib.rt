//! Runs a script of calls over the storage that it describes, and prints an answer for each.
#![tactic(auto)]

mod backing;
mod built_in;
mod error;
mod layers;
mod replaying;

pub use error::ReplayError;
pub use replaying::{replay, replay_input};
