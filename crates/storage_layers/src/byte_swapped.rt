ghost use Rattle.std.specs.Prelude.{◌≡◌, map};
ghost use Rattle.storage_layers.specs.Layers.{reversed};

use dynamic_storage::{Condition, DynamicStorage, Stage};

/// The storage below with the eight bytes of each word in reverse order, and its condition as it is.
#[derive(Drop)]
pub struct ByteSwapped<S> {
    below: S,
}

impl<S: DynamicStorage> ByteSwapped<S> {
    pub fn new(below: S) -> ByteSwapped<S>
        ensures { result.below ≡ below }
    {
        ByteSwapped { below }
    }

    /// The storage below, with this layer taken away.
    pub fn into_below(self) -> S
        ensures { result ≡ self.below }
    {
        self.below
    }
}

impl<S: DynamicStorage> DynamicStorage for ByteSwapped<S> {
    ghost condition = { λ s. S.DynamicStorage.condition s.below };

    ghost words = { λ s. map reversed (S.DynamicStorage.words s.below) };

    ghost outside = { λ s. S.DynamicStorage.outside s.below };

    fn condition(&self) -> Condition {
        self.below.condition()
    }

    fn len(&self) -> u64 {
        self.below.len()
    }

    fn read(&self, place: u64) -> Option<u64> {
        self.below.read(place).map(u64::swap_bytes)
    }

    fn write(&mut self, place: u64, word: u64) -> bool {
        self.below.write(place, word.swap_bytes())
    }

    fn set_condition(&mut self, to: Stage) -> bool {
        self.below.set_condition(to)
    }
}
