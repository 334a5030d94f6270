ghost use Rattle.std.specs.Prelude.{[], ◌∷◌};

use crate::borrowed::WordMemory;
use crate::borrowed_slice::{BorrowedSlice, WordElement};

impl WordElement for u64 {
    ghost all_words = { λ m. m };

    ghost rest = { λ _. [] };

    fn count(memory: &[u64]) -> usize {
        memory.len()
    }

    fn load(memory: &[u64], index: usize) -> Option<u64> {
        memory.get(index).copied()
    }

    fn store(memory: &mut [u64], index: usize, word: u64) -> bool {
        if index < memory.len() {
            memory[index] = word;
            true
        } else {
            false
        }
    }
}

// An impl for each kind of loan: each names its words and its rest without those of the element.
impl WordMemory for &mut [u64] {
    ghost all_words = { λ m. m.now };

    ghost rest = { λ m. (m.ghost_name ∷ []) ∷ [] };

    fn count(&self) -> usize {
        u64::count(self)
    }

    fn load(&self, index: usize) -> Option<u64> {
        u64::load(self, index)
    }

    fn store(&mut self, index: usize, word: u64) -> bool {
        u64::store(self, index, word)
    }
}

/// A storage in borrowed words.
pub type BorrowedWords<'a> = BorrowedSlice<'a, u64>;
