//! The calls of a script, performed one by one over any storage.
#![tactic(auto)]

mod answer;
mod holding;
mod performing;
mod refusal;

pub use answer::Answer;
pub use holding::Session;
pub use performing::{list_words, perform_on};
pub use refusal::Refusal;
