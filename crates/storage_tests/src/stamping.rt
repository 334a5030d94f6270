ghost use Rattle.std.specs.Prelude.{◌≡◌, drop, slice_set};
ghost use Rattle.dynamic_storage.specs.Meaning.{after_asking};
ghost use Rattle.dynamic_storage.specs.declared.condition.Stage.TheVariants as stage;
ghost use Rattle.storage_backings.specs.Bytes.{words_in, odd_bytes};

use dynamic_storage::{DynamicStorage, Stage};
use script::call::Call;
use session::perform_on;
use storage_backings::{BorrowedBytes, BorrowedWords};
use storage_layers::{ByteSwapped, Window};

/// Sets a storage up with two words, and writes past its end, by the calls that the program makes.
pub fn stamp<S: DynamicStorage>(storage: &mut S)
    ensures words { S.DynamicStorage.words storage.new ≡ slice_set (slice_set (slice_set (S.DynamicStorage.words storage.old) 0 72623859790382856) 1 255) 18446744073709551615 7 }
    ensures outside { S.DynamicStorage.outside storage.new ≡ S.DynamicStorage.outside storage.old }
{
    let _ = perform_on(storage, Call::SetCondition(Stage::Forming));
    let _ = perform_on(storage, Call::Write(0, 0x0102_0304_0506_0708));
    let _ = perform_on(storage, Call::Write(1, 255));
    let _ = perform_on(storage, Call::Write(u64::MAX, 7));
    let _ = perform_on(storage, Call::SetCondition(Stage::Ready));
}

/// The same in a window of borrowed bytes with reversed words: it is the same memory afterwards, and its odd bytes are as
/// they were.
pub fn stamp_layers(bytes: BorrowedBytes<'_>, place: u64, count: u64) -> BorrowedBytes<'_>
    ensures odd { odd_bytes result.memory.now ≡ odd_bytes bytes.entry.memory.now }
    ensures lent { result.memory.ghost_name ≡ bytes.entry.memory.ghost_name }
{
    let mut storage = ByteSwapped::new(Window::new(bytes, place, count));
    stamp(&mut storage);
    storage.into_below().into_below()
}

/// What the lender of the bytes finds: the two words behind the code, and its odd bytes as they were.
pub fn stamp_bytes(memory: &mut [u8])
    ensures words { drop 1 (words_in memory.new) ≡ slice_set (slice_set (slice_set (drop 1 (words_in memory.old)) 0 72623859790382856) 1 255) 18446744073709551615 7 }
    ensures odd { odd_bytes memory.new ≡ odd_bytes memory.old }
{
    let mut bytes = BorrowedBytes::new(memory);
    stamp(&mut bytes);
}

/// What the lender of words finds, where the storage is dropped by hand: the two words behind the code.
pub fn stamp_words(memory: &mut [u64])
    ensures { drop 1 memory.new ≡ slice_set (slice_set (slice_set (drop 1 memory.old) 0 72623859790382856) 1 255) 18446744073709551615 7 }
{
    let mut words = BorrowedWords::new(memory);
    stamp(&mut words);
    drop(words);
}
