//! What holds of the calls on a channel as a whole.
#![tactic(auto)]

mod laws;

pub use laws::{
    answers_depend_on_own_channel, calls_move_values, other_channels_stay, refusals_leave,
};
