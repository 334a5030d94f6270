//! The values of a channel after a history, from its calls and answers alone.
#![tactic(auto)]

mod listing;
mod lists;

pub use listing::lists_of;
pub use lists::Lists;
