//! Where a payload lies.
#![tactic(auto)]

mod pointer_offset;

pub use pointer_offset::{PointerOffset, SegmentId, offsets_are_inverse};
