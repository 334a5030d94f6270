//! Layers over any storage, which are storages again.
#![tactic(auto)]

mod byte_swapped;
mod window;

pub use byte_swapped::ByteSwapped;
pub use window::Window;
