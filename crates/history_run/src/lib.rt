//! A whole history of calls: both ports are created, the calls are made in order, and their answers are kept.
#![tactic(auto)]

mod answer;
mod call;
mod errors;
mod performing;
mod ports;
mod run;
mod running;
mod slots;

pub use answer::Answer;
pub use call::Call;
pub use performing::perform;
pub use run::{Ports, Run, RunError};
pub use running::{free_slots, run_history};
