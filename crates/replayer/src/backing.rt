use dynamic_storage::DynamicStorage;
use storage_backings::{BorrowedSlice, ProcessLocal, WordElement};

/// A backing whose code a script can spoil.
pub trait Spoiled: DynamicStorage {
    /// Writes the code of the condition, and answers whether there is one.
    fn spoil(&mut self, code: u64) -> bool;
}

impl<T: WordElement> Spoiled for BorrowedSlice<'_, T> {
    fn spoil(&mut self, code: u64) -> bool {
        self.write_code(code)
    }
}

impl Spoiled for ProcessLocal {
    fn spoil(&mut self, _code: u64) -> bool {
        false
    }
}
