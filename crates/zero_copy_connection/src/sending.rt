ghost use Rattle.std.specs.Prelude.{◌≡◌, true, IfOk, if◌then◌else◌, Some, None, slice_set};
ghost use Rattle.dynamic_storage.specs.Changes.{WordsBecome};
ghost use Rattle.shm_allocator.specs.Offsets.{segment_of};
ghost use Rattle.connection_words.specs.Places.{submission_of, size_at};
ghost use Rattle.connection_words.specs.Queues.{queue_sound};
ghost use Rattle.connection_words.specs.Chunks.{mark_of};
ghost use Rattle.connection_ports.specs.Numbers.{refused_by};
ghost use Rattle.zero_copy_connection.specs.Numbers.{send_number};
ghost use Rattle.zero_copy_connection.specs.Answers.{answer_of, optional, nothing};
ghost use Rattle.zero_copy_connection.specs.Marks.{mark_changed};
ghost use Rattle.zero_copy_connection.specs.declared.mark.Mark.TheVariants.{Free, Used};
ghost use Rattle.zero_copy_connection.specs.Sending.{is_full, full_refusal, chunk_refusal, queued, sent_words, oldest, evicted, freed_answer, freed_words, send_answer, send_words};

use crate::ZeroCopySendError;
use crate::common::open_channel;
use crate::mark::Mark;
use crate::used_chunk_list::change_mark;
use connection_words::{Channel, put, word};
use dynamic_storage::DynamicStorage;
use shm_allocator::PointerOffset;

/// Where the sample size and the mark of a chunk stand.
#[derive(Clone, Copy)]
struct ChunkPlaces {
    size: u64,
    mark: u64,
}

// The storage and the channel are passed side by side: a struct with both would hold a loan, whose end each contract
// would have to tell.

/// Whether as many values wait as the buffer takes.
pub fn is_full<S: DynamicStorage>(storage: &S, channel: &Channel) -> bool
    ensures { result ≡ is_full (S.DynamicStorage.words storage.now) channel.now.layout.settings channel.now.index }
{
    let waiting = channel.submission();
    waiting.len(storage) >= waiting.capacity()
}

/// Refuses where the buffer is full and does not overflow.
fn check_room<S: DynamicStorage>(storage: &S, channel: &Channel) -> Result<(), ZeroCopySendError>
    ensures { refused_by send_number result ≡ full_refusal (S.DynamicStorage.words storage.now) channel.now.layout.settings channel.now.index }
{
    if is_full(storage, channel) && !channel.settings().enable_safe_overflow {
        return Err(ZeroCopySendError::ReceiveBufferFull);
    }
    Ok(())
}

/// Refuses a value that is no free chunk of samples of a size.
fn check_chunk<S: DynamicStorage>(
    storage: &S,
    channel: &Channel,
    value: PointerOffset,
    sample_size: u64,
) -> Result<ChunkPlaces, ZeroCopySendError>
    ensures answer { refused_by send_number result ≡ chunk_refusal (S.DynamicStorage.words storage.now) channel.now.layout.settings channel.now.index value.0 sample_size }
    ensures size { IfOk result (λ places. places.size ≡ size_at channel.now.layout.settings channel.now.index (segment_of value.0)) }
    ensures mark { IfOk result (λ places. places.mark ≡ mark_of channel.now.layout.settings channel.now.index sample_size value.0) }
{
    let (segment, offset) = value.parts();
    let Some(size) = channel.size_place(segment) else {
        return Err(ZeroCopySendError::BadSegment);
    };
    if sample_size == 0 {
        return Err(ZeroCopySendError::ZeroSize);
    }
    let recorded = word(storage, size);
    if recorded != 0 && recorded != sample_size {
        return Err(ZeroCopySendError::SizeChanged);
    }
    if offset % sample_size != 0 {
        return Err(ZeroCopySendError::Misaligned);
    }
    let Some(mark) = channel.mark_place(segment, offset / sample_size) else {
        return Err(ZeroCopySendError::IndexTooLarge);
    };
    if Mark::Used.is_stated_by(word(storage, mark)) {
        return Err(ZeroCopySendError::AlreadyUsed);
    }
    Ok(ChunkPlaces { size, mark })
}

/// Records the sample size of a chunk and marks it as used.
fn record_chunk<S: DynamicStorage>(storage: &mut S, places: ChunkPlaces, sample_size: u64)
    ensures { WordsBecome S.DynamicStorage storage.old storage.new (slice_set (slice_set (S.DynamicStorage.words storage.old) places.size sample_size) places.mark 1) }
{
    put(storage, places.size, sample_size);
    put(storage, places.mark, u64::from(Mark::Used));
}

/// Puts a value behind those that wait, and answers the oldest if it had to leave.
fn enqueue<S: DynamicStorage>(storage: &mut S, channel: &Channel, value: u64) -> Option<u64>
    requires { queue_sound (S.DynamicStorage.words storage.old) (submission_of channel.now.layout.settings channel.now.index) ≡ true }
    ensures answer { result ≡ (if is_full (S.DynamicStorage.words storage.old) channel.now.layout.settings channel.now.index then Some (oldest (S.DynamicStorage.words storage.old) channel.now.layout.settings channel.now.index) else None) }
    ensures storage { WordsBecome S.DynamicStorage storage.old storage.new (queued (S.DynamicStorage.words storage.old) channel.now.layout.settings channel.now.index value (is_full (S.DynamicStorage.words storage.old) channel.now.layout.settings channel.now.index)) }
{
    let waiting = channel.submission();
    if !is_full(storage, channel) {
        let _ = waiting.push(storage, value);
        return None;
    }
    let oldest = waiting.pop(storage);
    let _ = waiting.push(storage, value);
    oldest
}

/// Frees the chunk of a value that was evicted, and refuses one that is no used chunk.
fn free_evicted<S: DynamicStorage>(
    storage: &mut S,
    channel: &Channel,
    value: u64,
) -> Result<Option<u64>, ZeroCopySendError>
    ensures answer { answer_of optional send_number result ≡ freed_answer (mark_changed (S.DynamicStorage.words storage.old) channel.now.layout.settings channel.now.index value Used Free) value 27 }
    ensures storage { WordsBecome S.DynamicStorage storage.old storage.new (freed_words (mark_changed (S.DynamicStorage.words storage.old) channel.now.layout.settings channel.now.index value Used Free) (S.DynamicStorage.words storage.old)) }
{
    if !change_mark(storage, channel, value, Mark::Used, Mark::Free) {
        return Err(ZeroCopySendError::ConnectionCorrupted);
    }
    Ok(Some(value))
}

/// Sends a value that nothing refuses, and answers the value that it evicted.
fn deliver<S: DynamicStorage>(
    storage: &mut S,
    channel: &Channel,
    places: ChunkPlaces,
    value: u64,
    sample_size: u64,
) -> Result<Option<u64>, ZeroCopySendError>
    requires sound { queue_sound (S.DynamicStorage.words storage.old) (submission_of channel.now.layout.settings channel.now.index) ≡ true }
    requires size { places.size ≡ size_at channel.now.layout.settings channel.now.index (segment_of value) }
    requires mark { places.mark ≡ mark_of channel.now.layout.settings channel.now.index sample_size value }
    ensures answer { answer_of optional send_number result ≡ (if is_full (S.DynamicStorage.words storage.old) channel.now.layout.settings channel.now.index then freed_answer (evicted (S.DynamicStorage.words storage.old) channel.now.layout.settings channel.now.index value sample_size) (oldest (S.DynamicStorage.words storage.old) channel.now.layout.settings channel.now.index) 27 else nothing) }
    ensures storage { WordsBecome S.DynamicStorage storage.old storage.new (if is_full (S.DynamicStorage.words storage.old) channel.now.layout.settings channel.now.index then freed_words (evicted (S.DynamicStorage.words storage.old) channel.now.layout.settings channel.now.index value sample_size) (sent_words (S.DynamicStorage.words storage.old) channel.now.layout.settings channel.now.index value sample_size) else sent_words (S.DynamicStorage.words storage.old) channel.now.layout.settings channel.now.index value sample_size) }
{
    record_chunk(storage, places, sample_size);
    let Some(oldest) = enqueue(storage, channel, value) else {
        return Ok(None);
    };
    free_evicted(storage, channel, oldest)
}

// The three arguments are those of the Rust.

/// Sends a value on a channel, and answers the value that it evicted from a full buffer.
pub fn try_send<S: DynamicStorage>(
    storage: &mut S,
    value: PointerOffset,
    sample_size: u64,
    channel: u64,
) -> Result<Option<u64>, ZeroCopySendError>
    ensures answer { answer_of optional send_number result ≡ send_answer (S.DynamicStorage.condition storage.old) (S.DynamicStorage.words storage.old) channel value.0 sample_size }
    ensures storage { WordsBecome S.DynamicStorage storage.old storage.new (send_words (S.DynamicStorage.condition storage.old) (S.DynamicStorage.words storage.old) channel value.0 sample_size) }
{
    let opened = open_channel(storage, channel)?;
    check_room(storage, &opened)?;
    let places = check_chunk(storage, &opened, value, sample_size)?;
    deliver(storage, &opened, places, value.as_value(), sample_size)
}
