ghost use Rattle.std.specs.Prelude.{◌≡◌, ℕ, List, ◌∷◌, length, drop, slice_set};
ghost use Rattle.dynamic_storage.specs.Meaning.{inside, word_at};
ghost use Rattle.dynamic_storage.specs.Codes.{stated_at, fixed_code};

use dynamic_storage::{Condition, DynamicStorage, Stage};

/// Memory as a list of words whose length never changes.
///
/// `all_words` is what it holds, and `rest` what no call may change: what belongs to no word, and which memory it is.
// Beside `WordElement`, since memory may be no slice.
pub trait WordMemory {
    ghost all_words: { Self → List ℕ };

    ghost rest: { Self → List (List ℕ) };

    /// How many words there are.
    fn count(&self) -> usize
        ensures { result ≡ length (all_words self.now) };

    /// The word at an index, if there is one.
    fn load(&self, index: usize) -> Option<u64>
        ensures { result ≡ word_at (all_words self.now) index };

    /// Replaces the word at an index, and answers whether there is one.
    fn store(&mut self, index: usize, word: u64) -> bool
        ensures answer { result ≡ inside (all_words self.old) index }
        ensures words { all_words self.new ≡ slice_set (all_words self.old) index word }
        ensures rest { rest self.new ≡ rest self.old };
}

/// A storage in any memory: the first word is the code of the condition, and the storage's words follow it. Dropping it
/// drops the memory; where that is a loan, the lender finds in it what the storage held last.
// Beside `BorrowedSlice`, whose `drop` says so in its contract, since memory may be no slice.
#[derive(Drop)]
pub struct Borrowed<M> {
    memory: M,
}

impl<M: WordMemory> Borrowed<M> {
    pub fn new(memory: M) -> Borrowed<M>
        ensures { result.memory ≡ memory }
    {
        Borrowed { memory }
    }

    /// Replaces the code of the condition, whatever it states, and answers whether there is one. This is for tools that
    /// spoil or mend memory: no part of a connection calls it.
    pub fn write_code(&mut self, code: u64) -> bool
        ensures answer { result ≡ inside (M.WordMemory.all_words self.old.memory) 0 }
        ensures words { M.WordMemory.all_words self.new.memory ≡ slice_set (M.WordMemory.all_words self.old.memory) 0 code }
        ensures rest { M.WordMemory.rest self.new.memory ≡ M.WordMemory.rest self.old.memory }
    {
        self.memory.store(0, code)
    }
}

impl<T> Borrowed<&mut [T]> {
    /// Ends the loan: the lender finds in its memory what the storage held last.
    pub fn hand_back(self)
        ensures { self.exit.0.now ≡ self.entry.memory.now }
    {}
}

// Asking for and setting the condition are a line each, as in a window, whose code is a word of a storage.

impl<M: WordMemory> DynamicStorage for Borrowed<M> {
    ghost condition = { λ s. stated_at (M.WordMemory.all_words s.memory) 0 };

    ghost words = { λ s. drop 1 (M.WordMemory.all_words s.memory) };

    ghost outside = { λ s. fixed_code (M.WordMemory.all_words s.memory) 0 ∷ M.WordMemory.rest s.memory };

    fn condition(&self) -> Condition {
        let code = self.memory.load(0);
        code.map_or(Condition::Broken, Condition::from)
    }

    fn len(&self) -> u64 {
        self.memory.count().saturating_sub(1) as u64
    }

    fn read(&self, place: u64) -> Option<u64> {
        if place < self.len() {
            self.memory.load(1 + place as usize)
        } else {
            None
        }
    }

    fn write(&mut self, place: u64, word: u64) -> bool {
        place < self.len() && self.memory.store(1 + place as usize, word)
    }

    fn set_condition(&mut self, to: Stage) -> bool {
        self.condition().is_settable() && self.memory.store(0, to.into())
    }
}
