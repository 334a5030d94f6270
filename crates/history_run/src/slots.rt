ghost use Rattle.std.specs.Prelude.{◌≡◌, ℕ, List, Some, None, length, nat_lt, slice_set};
ghost use Rattle.std.specs.Option.{option_map};
ghost use Rattle.blocking_send.specs.Seen.{view_of};
ghost use Rattle.history_run.specs.declared.call.Call.TheVariants as call;
ghost use Rattle.history_run.specs.Made.{views, slot_of, held_in, next, told, begin_answer};

use crate::Answer;
use crate::performing::answer_to_send;
use blocking_send::{BackpressurePolicy, Step, Waiting};
use dynamic_storage::DynamicStorage;

// A slot is found by its index: after `get_mut` nothing would be proved of the slots that are left.

/// Takes a pending send out of its slot.
fn take_at(waits: &mut [Option<Waiting>], id: usize) -> Option<Waiting>
    ensures leaves { views waits.new ≡ slice_set (views waits.old) id None }
    ensures answer { option_map view_of result ≡ slot_of (views waits.old) id }
{
    if id < waits.len() {
        waits[id].take()
    } else {
        None
    }
}

/// Puts a pending send into a slot, and answers whether there is one.
fn put_at(waits: &mut [Option<Waiting>], id: usize, waiting: Waiting) -> bool
    ensures leaves { views waits.new ≡ slice_set (views waits.old) id (Some (view_of waiting)) }
    ensures answer { result ≡ nat_lt id (length (views waits.old)) }
{
    if id >= waits.len() {
        return false;
    }
    waits[id] = Some(waiting);
    true
}

/// Begins a send in a slot.
pub(crate) fn begin_at(waits: &mut [Option<Waiting>], id: usize, waiting: Waiting) -> Answer
    ensures leaves { views waits.new ≡ slice_set (views waits.old) id (Some (view_of waiting)) }
    ensures answer { result ≡ begin_answer (views waits.old) id }
{
    if put_at(waits, id, waiting) {
        Answer::Begun
    } else {
        Answer::NoSlot
    }
}

/// Steps the pending send of a slot.
pub(crate) fn step_at<S: DynamicStorage, P: BackpressurePolicy>(
    storage: &mut S,
    waits: &mut [Option<Waiting>],
    id: usize,
    policy: &P,
) -> Answer
    ensures leaves { (counts : List ℕ) → (held_in S.DynamicStorage.condition S.DynamicStorage.words storage.new counts waits.new) ≡ next P.BackpressurePolicy.acts (held_in S.DynamicStorage.condition S.DynamicStorage.words storage.old counts waits.old) (call.Step id policy.now) }
    ensures answer { (counts : List ℕ) → result ≡ told P.BackpressurePolicy.acts (held_in S.DynamicStorage.condition S.DynamicStorage.words storage.old counts waits.old) (call.Step id policy.now) }
    ensures outside { S.DynamicStorage.outside storage.new ≡ S.DynamicStorage.outside storage.old }
{
    let Some(waiting) = take_at(waits, id) else {
        return Answer::NoWait;
    };
    let value = waiting.value().as_value();
    let channel = waiting.channel();
    match waiting.step(storage, policy) {
        Step::Pending(waiting) => {
            let _ = put_at(waits, id, waiting);
            Answer::Pending
        }
        Step::Ended(result) => answer_to_send(value, channel, result),
    }
}
