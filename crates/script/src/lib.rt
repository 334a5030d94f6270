#![tactic(auto)]

mod arguments;
pub mod call;
mod digits;
mod errors;
mod keywords;
mod layers;
mod lines;
pub mod parsing;
mod ports;
pub mod scripts;
mod splits;
mod transfers;
mod words;
