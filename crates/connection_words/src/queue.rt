ghost use Rattle.std.specs.Prelude.{◌≡◌, if◌then◌else◌, Some, None};
ghost use Rattle.dynamic_storage.specs.Changes.{WordsBecome};
ghost use Rattle.connection_words.specs.Queues.{Placed, count, entry, queue_sound, has_room, has_entry, pushed, popped};

use crate::{Ring, put, word};
use dynamic_storage::DynamicStorage;

/// A queue in the words, whose places fit 64 bits.
#[derive(Clone, Copy)]
pub struct Queue {
    pub(crate) ring: Ring,
    ghost placed: { Placed ring },
}

impl Queue {
    /// How many entries there can be.
    pub fn capacity(&self) -> u64
        ensures { result ≡ self.now.ring.capacity }
    {
        self.ring.capacity
    }

    /// Whether the start and the count lie within the capacity.
    pub fn is_sound<S: DynamicStorage>(&self, storage: &S) -> bool
        ensures { result ≡ queue_sound (S.DynamicStorage.words storage.now) self.now.ring }
    {
        word(storage, self.ring.heads) < self.ring.capacity
            && self.len(storage) <= self.ring.capacity
    }

    /// How many entries the count states.
    pub fn len<S: DynamicStorage>(&self, storage: &S) -> u64
        ensures { result ≡ count (S.DynamicStorage.words storage.now) self.now.ring }
    {
        word(storage, self.ring.heads + 1)
    }

    /// Puts a value behind the entries, and answers whether there was room.
    pub fn push<S: DynamicStorage>(&self, storage: &mut S, value: u64) -> bool
        ensures answer { result ≡ has_room (S.DynamicStorage.words storage.old) self.now.ring }
        ensures storage { WordsBecome S.DynamicStorage storage.old storage.new (if has_room (S.DynamicStorage.words storage.old) self.now.ring then pushed (S.DynamicStorage.words storage.old) self.now.ring value else S.DynamicStorage.words storage.old) }
    {
        let start = word(storage, self.ring.heads);
        let count = self.len(storage);
        if start >= self.ring.capacity || count >= self.ring.capacity {
            return false;
        }
        put(
            storage,
            self.ring.slots + (start + count) % self.ring.capacity,
            value,
        );
        put(storage, self.ring.heads + 1, count + 1);
        true
    }

    /// Takes the oldest entry away, if there is one.
    pub fn pop<S: DynamicStorage>(&self, storage: &mut S) -> Option<u64>
        ensures answer { result ≡ (if has_entry (S.DynamicStorage.words storage.old) self.now.ring then Some (entry (S.DynamicStorage.words storage.old) self.now.ring 0) else None) }
        ensures storage { WordsBecome S.DynamicStorage storage.old storage.new (if has_entry (S.DynamicStorage.words storage.old) self.now.ring then popped (S.DynamicStorage.words storage.old) self.now.ring else S.DynamicStorage.words storage.old) }
    {
        let count = self.len(storage);
        if count == 0 || !self.is_sound(storage) {
            return None;
        }
        let start = word(storage, self.ring.heads);
        let oldest = word(storage, self.ring.slots + start % self.ring.capacity);
        put(storage, self.ring.heads, (start + 1) % self.ring.capacity);
        put(storage, self.ring.heads + 1, count - 1);
        Some(oldest)
    }
}
