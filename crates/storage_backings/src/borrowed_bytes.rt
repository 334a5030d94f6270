#![tactic(auto, using(crate::proofs::Bytes::length_words))]

ghost use Rattle.std.specs.Prelude.{[], ◌∷◌};
ghost use Rattle.storage_backings.specs.Bytes.{words_in, odd_bytes};

use crate::borrowed::WordMemory;
use crate::borrowed_slice::{BorrowedSlice, WordElement};

/// Eight bytes to a word, the lowest first. Odd bytes at the end belong to no word.
impl WordElement for u8 {
    ghost all_words = { words_in };

    ghost rest = { λ m. odd_bytes m ∷ [] };

    fn count(memory: &[u8]) -> usize {
        memory.len() / 8
    }

    fn load(memory: &[u8], index: usize) -> Option<u64> {
        let (words, _) = memory.as_chunks::<8>();
        Some(u64::from_le_bytes(*words.get(index)?))
    }

    fn store(memory: &mut [u8], index: usize, word: u64) -> bool {
        if index >= Self::count(memory) {
            return false;
        }
        let first = 8 * index;
        memory[first..first + 8].copy_from_slice(&word.to_le_bytes());
        true
    }
}

/// The words of `u8`, in bytes that somebody lends.
impl WordMemory for &mut [u8] {
    ghost all_words = { λ m. words_in m.now };

    ghost rest = { λ m. odd_bytes m.now ∷ (m.ghost_name ∷ []) ∷ [] };

    fn count(&self) -> usize {
        u8::count(self)
    }

    fn load(&self, index: usize) -> Option<u64> {
        u8::load(self, index)
    }

    fn store(&mut self, index: usize, word: u64) -> bool {
        u8::store(self, index, word)
    }
}

/// A storage in borrowed bytes.
pub type BorrowedBytes<'a> = BorrowedSlice<'a, u8>;
