ghost use Rattle.std.specs.Prelude.{◌≡◌, is_some};
ghost use Rattle.dynamic_storage.specs.Changes.{WordsBecome};
ghost use Rattle.zero_copy_connection.specs.Marks.{mark_word, is_mark, mark_changed};
ghost use Rattle.zero_copy_connection.specs.Sending.{freed_words};

use crate::mark::Mark;
use connection_words::{Channel, chunk_mark, put, word};
use dynamic_storage::DynamicStorage;

/// The word that is written for a mark.
impl From<Mark> for u64 {
    ghost from_gives = { λ mark word. word ≡ mark_word mark };

    fn from(mark: Mark) -> u64 {
        match mark {
            Mark::Free => 0,
            Mark::Used => 1,
        }
    }
}

impl Mark {
    /// Whether a word is this mark.
    // No From<u64>: what a mark says is asked of the mark that is expected.
    pub(crate) fn is_stated_by(self, word: u64) -> bool
        ensures { result ≡ is_mark self word }
    {
        (word != 0) == (self == Mark::Used)
    }
}

/// Changes the mark of the chunk that a value names, and answers whether it named one with the first mark.
pub(crate) fn change_mark<S: DynamicStorage>(
    storage: &mut S,
    channel: &Channel,
    value: u64,
    from: Mark,
    to: Mark,
) -> bool
    ensures answer { result ≡ is_some (mark_changed (S.DynamicStorage.words storage.old) channel.now.layout.settings channel.now.index value from to) }
    ensures storage { WordsBecome S.DynamicStorage storage.old storage.new (freed_words (mark_changed (S.DynamicStorage.words storage.old) channel.now.layout.settings channel.now.index value from to) (S.DynamicStorage.words storage.old)) }
{
    let Some(place) = chunk_mark(channel, storage, value) else {
        return false;
    };
    if !from.is_stated_by(word(storage, place)) {
        return false;
    }
    put(storage, place, u64::from(to));
    true
}
