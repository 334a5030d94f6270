ghost use Rattle.std.specs.Prelude.{◌≡◌, ◌≤◌, [], length, replicate, IfOk, None, vec_len, vec_capacity, MatchResult, OnErr};
ghost use Rattle.connection_ports.specs.declared.port.Port.TheVariants as port;
ghost use Rattle.history_run.specs.Course.{Course};
ghost use Rattle.history_run.specs.Made.{held_in, next, told};
ghost use Rattle.connection_ports.specs.Tokens.{Open};
ghost use Rattle.history_run.specs.Ran.{Ran, Unmade};

use crate::performing::perform;
use crate::ports::create_ports;
use crate::run::Memory;
use crate::{Answer, Call, Run, RunError};
use blocking_send::{BackpressurePolicy, Waiting};
use connection_ports::{BorrowCounters, Builder, Port};
use dynamic_storage::{Condition, DynamicStorage};
use std::alloc::{AllocError, Global};

/// Slots with no pending send in them.
pub fn free_slots(heap: Global) -> Result<Vec<Option<Waiting>>, AllocError>
    ensures { IfOk result (λ waits. waits.items ≡ replicate 64 None) }
{
    (0..64usize).map(|_| None).collect(heap)
}

/// Memory for the slots and for as many answers as there are calls.
fn reserve(heap: Global, calls: usize) -> Result<Memory, AllocError>
    ensures slots { IfOk result (λ memory. memory.waits.items ≡ replicate 64 None) }
    ensures answers { IfOk result (λ memory. (memory.answers.items ≡ []) × (vec_len memory.answers ≡ 0) × (calls ≤ vec_capacity memory.answers)) }
{
    let answers = Vec::with_capacity(heap, calls)?;
    let waits = free_slots(heap)?;
    Ok(Memory { answers, waits })
}

/// Makes the calls in order and answers what each answered.
fn make_calls<S: DynamicStorage, P: BackpressurePolicy>(
    storage: &mut S,
    counters: &mut BorrowCounters,
    waits: &mut [Option<Waiting>],
    calls: &[Call<P>],
    mut answers: Vec<Answer>,
) -> Vec<Answer>
    requires empty { (answers.items ≡ []) × (vec_len answers ≡ 0) }
    requires room { length calls.now ≤ vec_capacity answers }
    ensures course { Course (next P.BackpressurePolicy.acts) (told P.BackpressurePolicy.acts) (held_in S.DynamicStorage.condition S.DynamicStorage.words storage.old counters.old.counts waits.old) calls.now result.items (held_in S.DynamicStorage.condition S.DynamicStorage.words storage.new counters.new.counts waits.new) }
    ensures outside { S.DynamicStorage.outside storage.new ≡ S.DynamicStorage.outside storage.old }
{
    for call in calls {
        answers.push_reserved(perform(storage, counters, waits, call));
    }
    answers
}

/// Creates both ports over an absent storage, makes the calls in order, and answers what each answered.
///
/// Where it fails, no port was created and no call was made.
pub fn run_history<S: DynamicStorage, P: BackpressurePolicy>(
    heap: Global,
    storage: &mut S,
    first: Port,
    builder: &Builder,
    calls: &[Call<P>],
) -> Result<Run, RunError>
    ensures ran { MatchResult result (λ run. Ran P.BackpressurePolicy.acts first builder.now.settings builder.now.initial_channel_state.0 (S.DynamicStorage.condition storage.old) (S.DynamicStorage.words storage.old) calls.now run.answers.items (held_in S.DynamicStorage.condition S.DynamicStorage.words storage.new run.ports.counters.counts run.waits.items)) (λ error. Unmade error first builder.now.settings (S.DynamicStorage.condition storage.old) (S.DynamicStorage.words storage.old)) }
    ensures ports { IfOk result (λ run. Open port.Sender run.ports.sender × Open port.Receiver run.ports.receiver) }
    ensures left { OnErr result ((S.DynamicStorage.condition storage.new ≡ S.DynamicStorage.condition storage.old) × (S.DynamicStorage.words storage.new ≡ S.DynamicStorage.words storage.old)) }
    ensures outside { S.DynamicStorage.outside storage.new ≡ S.DynamicStorage.outside storage.old }
{
    let Memory { answers, mut waits } = reserve(heap, calls.len())?;
    let Condition::Absent = storage.condition() else {
        return Err(RunError::NotAbsent);
    };
    let mut ports = create_ports(storage, first, builder)?;
    let answers = make_calls(
        storage,
        &mut ports.counters,
        waits.as_mut_slice(),
        calls,
        answers,
    );
    Ok(Run {
        ports,
        waits,
        answers,
    })
}
