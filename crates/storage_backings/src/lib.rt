//! The memory that a storage can stand in: borrowed words, borrowed bytes, any memory that holds words, or an array inside.
#![tactic(auto)]

mod borrowed;
mod borrowed_bytes;
mod borrowed_slice;
mod borrowed_words;
mod process_local;

pub use borrowed::{Borrowed, WordMemory};
pub use borrowed_bytes::BorrowedBytes;
pub use borrowed_slice::{BorrowedSlice, WordElement};
pub use borrowed_words::BorrowedWords;
pub use process_local::ProcessLocal;
