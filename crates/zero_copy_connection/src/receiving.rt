ghost use Rattle.std.specs.Prelude.{◌≡◌};
ghost use Rattle.dynamic_storage.specs.Changes.{WordsBecome};
ghost use Rattle.zero_copy_connection.specs.Numbers.{receive_number, release_number};
ghost use Rattle.zero_copy_connection.specs.Answers.{answer_of, optional, done};
ghost use Rattle.zero_copy_connection.specs.Receiving.{receive_answer, receive_words, receive_counts, release_answer, release_words, release_counts};

use crate::common::open_channel;
use crate::{ZeroCopyReceiveError, ZeroCopyReleaseError};
use connection_ports::BorrowCounters;
use dynamic_storage::DynamicStorage;
use shm_allocator::PointerOffset;

/// Takes the oldest value that waits on a channel, if one waits, and counts it as borrowed.
pub fn receive<S: DynamicStorage>(
    storage: &mut S,
    counters: &mut BorrowCounters,
    channel: u64,
) -> Result<Option<u64>, ZeroCopyReceiveError>
    ensures answer { answer_of optional receive_number result ≡ receive_answer (S.DynamicStorage.condition storage.old) (S.DynamicStorage.words storage.old) counters.old.counts channel }
    ensures storage { WordsBecome S.DynamicStorage storage.old storage.new (receive_words (S.DynamicStorage.condition storage.old) (S.DynamicStorage.words storage.old) counters.old.counts channel) }
    ensures counts { counters.new.counts ≡ receive_counts (S.DynamicStorage.condition storage.old) (S.DynamicStorage.words storage.old) counters.old.counts channel }
{
    let opened = open_channel(storage, channel)?;
    let borrowed = counters.counts[channel as usize];
    if borrowed >= opened.settings().max_borrowed_samples_per_channel {
        return Err(ZeroCopyReceiveError::ReceiveWouldExceedMaxBorrowValue);
    }
    let Some(value) = opened.submission().pop(storage) else {
        return Ok(None);
    };
    counters.counts[channel as usize] = borrowed + 1;
    Ok(Some(value))
}

/// Gives a borrowed value back, so that the sender can reclaim it.
pub fn release<S: DynamicStorage>(
    storage: &mut S,
    counters: &mut BorrowCounters,
    value: PointerOffset,
    channel: u64,
) -> Result<(), ZeroCopyReleaseError>
    ensures answer { answer_of done release_number result ≡ release_answer (S.DynamicStorage.condition storage.old) (S.DynamicStorage.words storage.old) counters.old.counts channel }
    ensures storage { WordsBecome S.DynamicStorage storage.old storage.new (release_words (S.DynamicStorage.condition storage.old) (S.DynamicStorage.words storage.old) counters.old.counts value.0 channel) }
    ensures counts { counters.new.counts ≡ release_counts (S.DynamicStorage.condition storage.old) (S.DynamicStorage.words storage.old) counters.old.counts channel }
{
    let opened = open_channel(storage, channel)?;
    let returned = opened.completion();
    if returned.len(storage) >= returned.capacity() {
        return Err(ZeroCopyReleaseError::RetrieveBufferFull);
    }
    let borrowed = counters.counts[channel as usize];
    if borrowed == 0 {
        return Err(ZeroCopyReleaseError::NothingBorrowed);
    }
    let _ = returned.push(storage, value.as_value());
    counters.counts[channel as usize] = borrowed - 1;
    Ok(())
}
