ghost use Rattle.std.specs.Prelude.{◌≡◌};
ghost use Rattle.dynamic_storage.specs.Changes.{WordsBecome};
ghost use Rattle.zero_copy_connection.specs.Numbers.{reclaim_number};
ghost use Rattle.zero_copy_connection.specs.Answers.{answer_of, optional};
ghost use Rattle.zero_copy_connection.specs.Sending.{reclaim_answer, reclaim_words};

use crate::ZeroCopyReclaimError;
use crate::common::open_channel;
use crate::mark::Mark;
use crate::used_chunk_list::change_mark;
use dynamic_storage::DynamicStorage;

/// Takes the value back that was released first on a channel, if one was, and frees its chunk.
pub fn reclaim<S: DynamicStorage>(
    storage: &mut S,
    channel: u64,
) -> Result<Option<u64>, ZeroCopyReclaimError>
    ensures answer { answer_of optional reclaim_number result ≡ reclaim_answer (S.DynamicStorage.condition storage.old) (S.DynamicStorage.words storage.old) channel }
    ensures storage { WordsBecome S.DynamicStorage storage.old storage.new (reclaim_words (S.DynamicStorage.condition storage.old) (S.DynamicStorage.words storage.old) channel) }
{
    let opened = open_channel(storage, channel)?;
    let popped = opened.completion().pop(storage);
    let Some(value) = popped else {
        return Ok(None);
    };
    let true = change_mark(storage, &opened, value, Mark::Used, Mark::Free) else {
        return Err(ZeroCopyReclaimError::ReceiverReturnedCorruptedPointerOffset);
    };
    Ok(Some(value))
}
