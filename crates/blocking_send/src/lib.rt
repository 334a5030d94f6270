//! Sends that wait for room, step by step, as a policy says.
#![tactic(auto)]

mod action;
mod error;
mod laws;
mod numbers;
mod policy;
mod stepping;
mod waiting;

pub use action::BackpressureToReceiverAction;
pub use error::ZeroCopyBlockingSendError;
pub use laws::{follows_and_fails, steps_leave, waits_end};
pub use policy::{BackpressurePolicy, FixedAction, RetryThenFail};
pub use waiting::{Step, Waiting};
