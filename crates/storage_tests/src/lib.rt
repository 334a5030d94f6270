//! Examples of storages, run: what stands in memory byte for byte, and the edges.
#![tactic(auto)]

#[cfg(test)]
mod edges;
#[cfg(test)]
mod images;
#[cfg(test)]
mod memories;
#[cfg(test)]
mod scripts;
mod stamping;

pub use stamping::{stamp, stamp_bytes, stamp_layers, stamp_words};
