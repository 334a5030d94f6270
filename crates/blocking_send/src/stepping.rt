ghost use Rattle.std.specs.Prelude.{◌≡◌, ◌+◌, ◌<◌, ◌≤◌, if◌then◌else◌};
ghost use Rattle.dynamic_storage.specs.Changes.{WordsBecome};
ghost use Rattle.connection_ports.specs.Numbers.{refused_by};
ghost use Rattle.zero_copy_connection.specs.Sending.{send_answer, send_words};
ghost use Rattle.zero_copy_connection.specs.Answers.{answer_of, optional};
ghost use Rattle.blocking_send.specs.Numbers.{blocking_number};
ghost use Rattle.blocking_send.specs.declared.action.BackpressureToReceiverAction.TheVariants.{Retry};
ghost use Rattle.blocking_send.specs.Waits.{begun, elapsed, later, wait_refusal, full_way, step_way, step_outcome, step_words};
ghost use Rattle.blocking_send.specs.Seen.{view_of, way_of, outcome_of};

use crate::{
    BackpressurePolicy, BackpressureToReceiverAction as Action, Step, Waiting,
    ZeroCopyBlockingSendError as Error,
};
use connection_ports::ChannelState;
use connection_words::{Channel, PortState, word};
use dynamic_storage::DynamicStorage;
use shm_allocator::PointerOffset;
use zero_copy_connection::{is_full, open_channel, try_send};

/// Refuses where no receiver is connected or the channel is closed.
fn check_receiver<S: DynamicStorage>(storage: &S, channel: &Channel) -> Result<(), Error>
    ensures { refused_by blocking_number result ≡ wait_refusal (S.DynamicStorage.words storage.now) channel.now.layout.settings channel.now.index }
{
    if word(storage, 0) != u64::from(PortState::Both) {
        return Err(Error::NoConnectedReceiverAndBufferIsFull);
    }
    if word(storage, channel.state_place()) == ChannelState::closed().value() {
        return Err(Error::ChannelIsClosed);
    }
    Ok(())
}

impl Waiting {
    /// A send of a value that may stay pending for so many steps.
    pub fn new(
        value: PointerOffset,
        sample_size: u64,
        channel: u64,
        strategy: Action,
        budget: u64,
    ) -> Waiting
        ensures { view_of result ≡ begun value.0 sample_size channel strategy budget }
    {
        Waiting {
            value,
            sample_size,
            channel,
            strategy,
            budget,
            retries: 0,
            steps: 0,
            until_delivered: false,
        }
    }

    /// The value that waits to be sent.
    pub fn value(&self) -> PointerOffset
        ensures { result.0 ≡ (view_of self.now).value }
    {
        self.value
    }

    /// The channel that it is to be sent on.
    pub fn channel(&self) -> u64
        ensures { result ≡ (view_of self.now).channel }
    {
        self.channel
    }

    /// How long the send has been pending.
    fn elapsed(&self) -> u64
        ensures { result ≡ elapsed (view_of self.now) }
    {
        self.steps
    }

    /// The policy's action; a send that was told to retry until delivered retries and does not ask again.
    fn ask<P: BackpressurePolicy>(&self, policy: &P) -> Action
        ensures { result ≡ (if self.now.until_delivered then Retry else P.BackpressurePolicy.acts policy.now self.now.retries (elapsed (view_of self.now))) }
    {
        if self.until_delivered {
            return Action::Retry;
        }
        policy.action(self.retries, self.elapsed())
    }

    /// The send one step later.
    fn later(&self, retries: u64, until_delivered: bool) -> Waiting
        requires left { 0 < self.now.budget }
        requires asked { retries ≤ self.now.steps + 1 }
        ensures { view_of result ≡ later (view_of self.now) retries until_delivered }
    {
        // The rest by `..` is refused in a literal of a struct with ghost fields.
        Waiting {
            value: self.value,
            sample_size: self.sample_size,
            channel: self.channel,
            strategy: self.strategy,
            budget: self.budget - 1,
            retries,
            steps: self.steps + 1,
            until_delivered,
        }
    }

    /// What is done where there is no room: the send stays pending, or it is tried for the last time.
    fn wait<P: BackpressurePolicy>(&self, policy: &P) -> Result<Option<Waiting>, Error>
        ensures { way_of result ≡ full_way (view_of self.now) (P.BackpressurePolicy.acts policy.now self.now.retries (elapsed (view_of self.now))) }
    {
        match (self.ask(policy), self.strategy) {
            (Action::Retry, _) | (Action::FollowBackpressureyStrategy, Action::Retry)
                if self.budget == 0 => { Err(Error::WaitSpent) }
            (Action::Retry, _) if self.until_delivered => Ok(Some(self.later(self.retries, true))),
            (Action::Retry, _) => Ok(Some(self.later(self.retries + 1, false))),
            (Action::FollowBackpressureyStrategy, Action::Retry) => {
                Ok(Some(self.later(self.retries + 1, true)))
            }
            (Action::DiscardPointerOffsetAndFail, _)
            | (Action::FollowBackpressureyStrategy, Action::DiscardPointerOffsetAndFail) => {
                Err(Error::UnableToDeliver)
            }
            _ => Ok(None),
        }
    }

    /// Which way a step goes.
    fn choose<S: DynamicStorage, P: BackpressurePolicy>(
        &self,
        storage: &S,
        policy: &P,
    ) -> Result<Option<Waiting>, Error>
        ensures { way_of result ≡ step_way (S.DynamicStorage.condition storage.now) (S.DynamicStorage.words storage.now) (view_of self.now) (P.BackpressurePolicy.acts policy.now self.now.retries (elapsed (view_of self.now))) }
    {
        let opened = open_channel(storage, self.channel)?;
        let full = is_full(storage, &opened);
        if self.steps == 0 && (opened.settings().enable_safe_overflow || !full) {
            return Ok(None);
        }
        check_receiver(storage, &opened)?;
        if !full {
            return Ok(None);
        }
        self.wait(policy)
    }

    fn send<S: DynamicStorage>(&self, storage: &mut S) -> Result<Option<u64>, Error>
        ensures answer { answer_of optional blocking_number result ≡ send_answer (S.DynamicStorage.condition storage.old) (S.DynamicStorage.words storage.old) self.now.channel self.now.value.0 self.now.sample_size }
        ensures storage { WordsBecome S.DynamicStorage storage.old storage.new (send_words (S.DynamicStorage.condition storage.old) (S.DynamicStorage.words storage.old) self.now.channel self.now.value.0 self.now.sample_size) }
    {
        Ok(try_send(storage, self.value, self.sample_size, self.channel)?)
    }

    /// Sends the value if there is room, and else does as the policy says.
    pub fn step<S: DynamicStorage, P: BackpressurePolicy>(self, storage: &mut S, policy: &P) -> Step
        ensures outcome { outcome_of result ≡ step_outcome (S.DynamicStorage.condition storage.old) (S.DynamicStorage.words storage.old) (view_of self) (P.BackpressurePolicy.acts policy.now (view_of self).retries (elapsed (view_of self))) }
        ensures storage { WordsBecome S.DynamicStorage storage.old storage.new (step_words (S.DynamicStorage.condition storage.old) (S.DynamicStorage.words storage.old) (view_of self) (P.BackpressurePolicy.acts policy.now (view_of self).retries (elapsed (view_of self)))) }
    {
        match self.choose(storage, policy) {
            Ok(None) => Step::Ended(self.send(storage)),
            Ok(Some(waiting)) => Step::Pending(waiting),
            Err(error) => Step::Ended(Err(error)),
        }
    }
}
