//! Words of 64 bits that any part of a connection can live in, behind one interface.
#![tactic(auto)]

ghost use Rattle.std.specs.Prelude.{◌≡◌, ℕ, List, length, slice_set};
ghost use Rattle.dynamic_storage.specs.Meaning.{inside, word_at, settable, after_asking};
ghost use Rattle.dynamic_storage.specs.declared.condition.Condition.{Condition};

mod codes;
mod condition;

pub use condition::{Condition, Stage};

/// A condition and a list of words whose length never changes.
///
/// `condition` and `words` are what the storage means. `outside` is the rest of the memory that it stands in, part by
/// part: what is neither of the two, and no call may change.
// A call that changes more than the words says in one equation that the outside stays, which a name would not shorten.
pub trait DynamicStorage {
    ghost condition: { Self → Condition };

    ghost words: { Self → List ℕ };

    ghost outside: { Self → List (List ℕ) };

    fn condition(&self) -> Condition
        ensures { result ≡ condition self.now };

    /// How many words there are.
    fn len(&self) -> u64
        ensures { result ≡ length (words self.now) };

    /// The word at a place, if there is one.
    fn read(&self, place: u64) -> Option<u64>
        ensures { result ≡ word_at (words self.now) place };

    /// Replaces the word at a place, and answers whether there is one.
    fn write(&mut self, place: u64, word: u64) -> bool
        ensures answer { result ≡ inside (words self.old) place }
        ensures words { words self.new ≡ slice_set (words self.old) place word }
        ensures condition { condition self.new ≡ condition self.old }
        ensures outside { outside self.new ≡ outside self.old };

    /// Sets the condition, and answers whether it could be set.
    fn set_condition(&mut self, to: Stage) -> bool
        ensures answer { result ≡ settable (condition self.old) }
        ensures words { words self.new ≡ words self.old }
        ensures condition { condition self.new ≡ after_asking (condition self.old) to }
        ensures outside { outside self.new ≡ outside self.old };
}
