ghost use Rattle.std.specs.Prelude.{◌≡◌, ℕ, IfOk};
ghost use Rattle.shm_allocator.specs.Offsets.{value_of};
ghost use Rattle.session.specs.Answers.{answered, words_after, condition_after, yes_or_no, value_or_none};

use crate::Answer;
use dynamic_storage::DynamicStorage;
use script::call::Call;
use shm_allocator::{PointerOffset, SegmentId};
use std::alloc::{AllocError, Global};

impl From<bool> for Answer {
    ghost from_gives = { λ yes answer. answer ≡ yes_or_no yes };

    fn from(yes: bool) -> Answer {
        if yes { Answer::Yes } else { Answer::No }
    }
}

impl From<Option<u64>> for Answer {
    ghost from_gives = { λ value answer. answer ≡ value_or_none value };

    fn from(value: Option<u64>) -> Answer {
        value.map_or(Answer::None, Answer::Value)
    }
}

pub(crate) fn pointer_offset(offset: u64, segment: u8) -> PointerOffset
    ensures { result.0 ≡ value_of offset segment }
{
    PointerOffset::from_offset_and_segment_id(offset, SegmentId::new(segment))
}

/// Performs a call on the storage alone. A `Code` is for the backing below it and a call on a port or a channel for a
/// session, so here they answer no.
pub fn perform_on<S: DynamicStorage>(storage: &mut S, call: Call) -> Answer
    ensures answer { result ≡ answered call (S.DynamicStorage.condition storage.old) (S.DynamicStorage.words storage.old) }
    ensures words { S.DynamicStorage.words storage.new ≡ words_after call (S.DynamicStorage.words storage.old) }
    ensures condition { S.DynamicStorage.condition storage.new ≡ condition_after call (S.DynamicStorage.condition storage.old) }
    ensures outside { S.DynamicStorage.outside storage.new ≡ S.DynamicStorage.outside storage.old }
{
    match call {
        Call::Condition => Answer::Shows(storage.condition()),
        Call::Length => Answer::Count(storage.len()),
        Call::Words => Answer::List,
        Call::Read(place) => storage.read(place).into(),
        Call::Write(place, word) => storage.write(place, word).into(),
        Call::SetCondition(to) => storage.set_condition(to).into(),
        Call::Code(_)
        | Call::Settings(_, _)
        | Call::Create(_)
        | Call::Close(_)
        | Call::Counters
        | Call::Send { .. }
        | Call::Receive(_)
        | Call::Release(_, _, _)
        | Call::Reclaim(_)
        | Call::HasData(_)
        | Call::BorrowCount(_) => Answer::No,
        Call::Offset(value) => {
            let (segment, offset) = PointerOffset::from_value(value).parts();
            Answer::Place { segment, offset }
        }
        Call::Value(offset, segment) => {
            Answer::Value(pointer_offset(offset, segment).as_value())
        }
    }
}

/// All words of a storage.
pub fn list_words<S: DynamicStorage>(heap: Global, storage: &S) -> Result<Vec<u64>, AllocError>
    ensures { IfOk result (λ v. v.items ≡ S.DynamicStorage.words storage.now) }
{
    (0..storage.len())
        .map_while(|place| storage.read(place))
        .collect(heap)
}
