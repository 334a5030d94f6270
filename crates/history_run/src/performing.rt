ghost use Rattle.std.specs.Prelude.{◌≡◌};
ghost use Rattle.zero_copy_connection.specs.Answers as calls;
ghost use Rattle.zero_copy_connection.specs.Answers.{answer_of, optional, done, flag, number};
ghost use Rattle.history_run.specs.Made.{plain, sent, held_in, next, told};

use crate::slots::{begin_at, step_at};
use crate::{Answer, Call};
use blocking_send::{BackpressurePolicy, Waiting};
use connection_ports::{BorrowCounters, Numbered};
use dynamic_storage::DynamicStorage;
use zero_copy_connection::{borrow_count, has_data, receive, reclaim, release, try_send};

/// What a call on a channel gives where it is not refused.
// A trait of its own, and not From: the contract of `answer_to` names what is given.
trait Given {
    ghost given: { Self → calls.Answer };

    fn told(self) -> Answer
        ensures { result ≡ plain (given self) };
}

impl Given for Option<u64> {
    ghost given = { optional };

    fn told(self) -> Answer {
        match self {
            Some(value) => Answer::Value(value),
            None => Answer::Nothing,
        }
    }
}

impl Given for () {
    ghost given = { done };

    fn told(self) -> Answer {
        Answer::Nothing
    }
}

impl Given for bool {
    ghost given = { flag };

    fn told(self) -> Answer {
        Answer::Flag(self)
    }
}

impl Given for u64 {
    ghost given = { number };

    fn told(self) -> Answer {
        Answer::Number(self)
    }
}

/// The answer that a call on a channel gives.
fn answer_to<T: Given, E: Numbered>(outcome: Result<T, E>) -> Answer
    ensures { result ≡ plain (answer_of T.given E.number outcome) }
{
    match outcome {
        Ok(given) => given.told(),
        Err(refusal) => Answer::Refused(refusal.number()),
    }
}

/// The answer that a send gives, at once or by a step.
pub(crate) fn answer_to_send<E: Numbered>(
    value: u64,
    channel: u64,
    outcome: Result<Option<u64>, E>,
) -> Answer
    ensures { result ≡ sent value channel (answer_of optional E.number outcome) }
{
    match outcome {
        Ok(evicted) => Answer::Sent {
            value,
            channel,
            evicted,
        },
        Err(refusal) => Answer::Refused(refusal.number()),
    }
}

/// Makes a call.
// Three loans side by side: a struct of them would have to give them back by a contract of its own.
pub fn perform<S: DynamicStorage, P: BackpressurePolicy>(
    storage: &mut S,
    counters: &mut BorrowCounters,
    waits: &mut [Option<Waiting>],
    call: &Call<P>,
) -> Answer
    ensures leaves { held_in S.DynamicStorage.condition S.DynamicStorage.words storage.new counters.new.counts waits.new ≡ next P.BackpressurePolicy.acts (held_in S.DynamicStorage.condition S.DynamicStorage.words storage.old counters.old.counts waits.old) call.now }
    ensures answer { result ≡ told P.BackpressurePolicy.acts (held_in S.DynamicStorage.condition S.DynamicStorage.words storage.old counters.old.counts waits.old) call.now }
    ensures outside { S.DynamicStorage.outside storage.new ≡ S.DynamicStorage.outside storage.old }
{
    match call {
        Call::Send {
            value,
            sample_size,
            channel,
        } => {
            let outcome = try_send(storage, *value, *sample_size, *channel);
            answer_to_send(value.as_value(), *channel, outcome)
        }
        Call::Receive { channel } => answer_to(receive(storage, counters, *channel)),
        Call::Release { value, channel } => {
            answer_to(release(storage, counters, *value, *channel))
        }
        Call::Reclaim { channel } => answer_to(reclaim(storage, *channel)),
        Call::HasData { channel } => answer_to(has_data(storage, *channel)),
        Call::BorrowCount { channel } => answer_to(borrow_count(storage, counters, *channel)),
        Call::Begin {
            id,
            value,
            sample_size,
            channel,
            strategy,
            budget,
        } => {
            let waiting = Waiting::new(*value, *sample_size, *channel, *strategy, *budget);
            begin_at(waits, *id, waiting)
        }
        Call::Step { id, policy } => step_at(storage, waits, *id, policy),
    }
}
