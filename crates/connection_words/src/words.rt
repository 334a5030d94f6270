ghost use Rattle.std.specs.Prelude.{◌≡◌, slice_index, slice_set};
ghost use Rattle.dynamic_storage.specs.Changes.{WordsBecome};

use dynamic_storage::DynamicStorage;

/// The word at a place, and 0 past the end.
pub fn word<S: DynamicStorage>(storage: &S, place: u64) -> u64
    ensures { result ≡ slice_index (S.DynamicStorage.words storage.now) place }
{
    storage.read(place).unwrap_or(0)
}

/// Replaces the word at a place, where there is one.
pub fn put<S: DynamicStorage>(storage: &mut S, place: u64, word: u64)
    ensures { WordsBecome S.DynamicStorage storage.old storage.new (slice_set (S.DynamicStorage.words storage.old) place word) }
{
    let _ = storage.write(place, word);
}
