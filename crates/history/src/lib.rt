//! What holds of a connection after every history of calls and of steps of pending sends.
#![tactic(auto)]

mod guarantee;

pub use guarantee::{guarantee_holds, guarantee_is_met, ports_make_fresh};
