ghost use Rattle.std.specs.Prelude.{◌≡◌};
ghost use Rattle.connection_words.specs.Chunks.{chunk_mark};

use crate::{Channel, word};
use dynamic_storage::DynamicStorage;
use shm_allocator::PointerOffset;

/// Where the mark of the chunk stands that a value names by the recorded size of its segment, if it names one.
pub fn chunk_mark<S: DynamicStorage>(channel: &Channel, storage: &S, value: u64) -> Option<u64>
    ensures { result ≡ chunk_mark (S.DynamicStorage.words storage.now) channel.now.layout.settings channel.now.index value }
{
    let (segment, offset) = PointerOffset::from_value(value).parts();
    let size = word(storage, channel.size_place(segment)?);
    if size == 0 || offset % size != 0 {
        return None;
    }
    channel.mark_place(segment, offset / size)
}
