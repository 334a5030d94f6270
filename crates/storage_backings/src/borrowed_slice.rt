ghost use Rattle.std.specs.Prelude.{◌≡◌, ℕ, ◌+◌, List, [], ◌∷◌, ◌++◌, if◌then◌else◌, Some, None, length, drop, slice_set};
ghost use Rattle.dynamic_storage.specs.Meaning.{inside, word_at};
ghost use Rattle.dynamic_storage.specs.Codes.{stated_at, fixed_code};

use dynamic_storage::{Condition, DynamicStorage, Stage};

/// What a slice is made of that holds a list of words, whose length never changes.
///
/// `all_words` is what the slice holds, and `rest` what belongs to no word; no call may change the rest.
pub trait WordElement: Sized {
    ghost all_words: { List Self → List ℕ };

    ghost rest: { List Self → List (List ℕ) };

    /// How many words there are.
    fn count(memory: &[Self]) -> usize
        ensures { result ≡ length (all_words memory.now) };

    /// The word at an index, if there is one.
    fn load(memory: &[Self], index: usize) -> Option<u64>
        ensures { result ≡ word_at (all_words memory.now) index };

    /// Replaces the word at an index, and answers whether there is one.
    fn store(memory: &mut [Self], index: usize, word: u64) -> bool
        ensures answer { result ≡ inside (all_words memory.old) index }
        ensures words { all_words memory.new ≡ slice_set (all_words memory.old) index word }
        ensures rest { rest memory.new ≡ rest memory.old };
}

/// A storage in a slice that somebody lends: the first word is the code of the condition, and the storage's words follow
/// it.
// A slice, and not any memory: of a type parameter `drop` could not say what it leaves behind the loan.
pub struct BorrowedSlice<'a, T> {
    memory: &'a mut [T],
}

// The lender finds in its memory what the storage held last.
impl<T> Drop for BorrowedSlice<'_, T> {
    fn drop(self)
        ensures { self.exit.0.now ≡ self.entry.memory.now }
    {
        let Self { memory: _ } = self;
    }
}

impl<'a, T: WordElement> BorrowedSlice<'a, T> {
    pub fn new(memory: &'a mut [T]) -> BorrowedSlice<'a, T>
        ensures memory { result.memory.now ≡ memory.old }
        ensures lent { result.memory.ghost_name ≡ memory.entry.ghost_name }
        ensures same { result.memory ≡ memory.entry }
    {
        BorrowedSlice { memory }
    }

    /// Replaces the code of the condition, whatever it states, and answers whether there is one. This is for tools that
    /// spoil or mend memory: no part of a connection calls it.
    pub fn write_code(&mut self, code: u64) -> bool
        ensures answer { result ≡ inside (T.WordElement.all_words self.old.memory.now) 0 }
        ensures words { T.WordElement.all_words self.new.memory.now ≡ slice_set (T.WordElement.all_words self.old.memory.now) 0 code }
        ensures rest { T.WordElement.rest self.new.memory.now ≡ T.WordElement.rest self.old.memory.now }
        ensures lent { self.new.memory.ghost_name ≡ self.old.memory.ghost_name }
    {
        T::store(self.memory, 0, code)
    }

    /// Where in the memory the storage's word at a place stands, if there is one: the code is before it.
    fn index_of(&self, place: u64) -> Option<usize>
        ensures { result ≡ (if inside (drop 1 (T.WordElement.all_words self.now.memory.now)) place then Some (place + 1) else None) }
    {
        let count = T::count(self.memory) as u64;
        let index = place.checked_add(1)?;
        (index < count).then_some(index as usize)
    }
}

impl<T> BorrowedSlice<'_, T> {
    /// Ends the loan: the lender finds in its memory what the storage held last.
    pub fn hand_back(self)
        ensures { self.exit.0.now ≡ self.entry.memory.now }
    {
        let BorrowedSlice { memory: _ } = self;
    }
}

// Asking for and setting the condition are a line each, as in a window, whose code is a word of a storage.

impl<T: WordElement> DynamicStorage for BorrowedSlice<'_, T> {
    ghost condition = { λ s. stated_at (T.WordElement.all_words s.memory.now) 0 };

    ghost words = { λ s. drop 1 (T.WordElement.all_words s.memory.now) };

    ghost outside = { λ s. fixed_code (T.WordElement.all_words s.memory.now) 0 ∷ (T.WordElement.rest s.memory.now ++ ((s.memory.ghost_name ∷ []) ∷ [])) };

    fn condition(&self) -> Condition {
        let code = T::load(self.memory, 0);
        code.map_or(Condition::Broken, Condition::from)
    }

    fn len(&self) -> u64 {
        T::count(self.memory).saturating_sub(1) as u64
    }

    fn read(&self, place: u64) -> Option<u64> {
        T::load(self.memory, self.index_of(place)?)
    }

    fn write(&mut self, place: u64, word: u64) -> bool {
        let Some(index) = self.index_of(place) else {
            return false;
        };
        T::store(self.memory, index, word)
    }

    fn set_condition(&mut self, to: Stage) -> bool {
        self.condition().is_settable() && T::store(self.memory, 0, to.into())
    }
}
