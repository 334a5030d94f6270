ghost use Rattle.std.specs.Prelude.{◌≡◌, ℕ};
ghost use Rattle.dynamic_storage.specs.Codes.{stated_at};
ghost use Rattle.storage_layers.specs.Layers.{framed, framed_at, around_window};

use dynamic_storage::{Condition, DynamicStorage, Stage};

/// A part of the storage below: the word at `place` is the code of its condition, and the next `count` are its words,
/// or as many as there are. Without a word at `place` it is broken and empty.
#[derive(Drop)]
pub struct Window<S> {
    below: S,
    place: u64,
    count: u64,
}

impl<S: DynamicStorage> Window<S> {
    pub fn new(below: S, place: u64, count: u64) -> Window<S>
        ensures below { result.below ≡ below }
        ensures place { result.place ≡ place }
        ensures count { result.count ≡ count }
    {
        Window {
            below,
            place,
            count,
        }
    }

    /// The storage below, with the window taken away.
    pub fn into_below(self) -> S
        ensures { result ≡ self.below }
    {
        self.below
    }

    /// Where the window's word at a place stands below, if there is one.
    fn place_below(&self, place: u64) -> Option<u64>
        ensures { result ≡ framed_at (S.DynamicStorage.words self.now.below) self.now.place self.now.count place }
    {
        // A length is below 2^64, so a sum that overflows is past the end.
        let all = self.below.len();
        let found = self.place.checked_add(1)?.checked_add(place)?;
        (place < self.count && found < all).then_some(found)
    }
}

impl<S: DynamicStorage> DynamicStorage for Window<S> {
    ghost condition = { λ w. stated_at (S.DynamicStorage.words w.below) w.place };

    ghost words = { λ w. framed (S.DynamicStorage.words w.below) w.place w.count };

    ghost outside = { λ w. around_window (S.DynamicStorage.words w.below) w.place w.count (S.DynamicStorage.condition w.below) (S.DynamicStorage.outside w.below) };

    fn condition(&self) -> Condition {
        let code = self.below.read(self.place);
        code.map_or(Condition::Broken, Condition::from)
    }

    fn len(&self) -> u64 {
        let all = self.below.len();
        let behind = all.saturating_sub(self.place).saturating_sub(1);
        behind.min(self.count)
    }

    fn read(&self, place: u64) -> Option<u64> {
        self.below.read(self.place_below(place)?)
    }

    fn write(&mut self, place: u64, word: u64) -> bool {
        let Some(found) = self.place_below(place) else {
            return false;
        };
        self.below.write(found, word)
    }

    fn set_condition(&mut self, to: Stage) -> bool {
        self.condition().is_settable() && self.below.write(self.place, to.into())
    }
}
