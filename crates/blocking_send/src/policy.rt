ghost use Rattle.std.specs.Prelude.{◌≡◌, ℕ};
ghost use Rattle.blocking_send.specs.declared.action.BackpressureToReceiverAction.{BackpressureToReceiverAction};
ghost use Rattle.blocking_send.specs.Policies.{retry_then_fail};

use crate::BackpressureToReceiverAction;

/// Says what is done with a value for which there is no room, from how often it said so before and how long the send waits.
pub trait BackpressurePolicy {
    ghost acts: { Self → ℕ → ℕ → BackpressureToReceiverAction };

    fn action(&self, retries: u64, elapsed: u64) -> BackpressureToReceiverAction
        ensures { result ≡ acts self.now retries elapsed };
}

/// Always the same action.
#[derive(Clone, Copy, Debug, PartialEq, Eq)]
pub struct FixedAction(pub BackpressureToReceiverAction);

impl BackpressurePolicy for FixedAction {
    ghost acts = { λ policy retries elapsed. policy.0 };

    fn action(&self, _retries: u64, _elapsed: u64) -> BackpressureToReceiverAction {
        self.0
    }
}

/// Retries so many times, and then fails.
#[derive(Clone, Copy, Debug, PartialEq, Eq)]
pub struct RetryThenFail {
    pub max_retries: u64,
}

impl BackpressurePolicy for RetryThenFail {
    ghost acts = { λ policy retries elapsed. retry_then_fail policy.max_retries retries };

    fn action(&self, retries: u64, _elapsed: u64) -> BackpressureToReceiverAction {
        if retries < self.max_retries {
            return BackpressureToReceiverAction::Retry;
        }
        BackpressureToReceiverAction::DiscardPointerOffsetAndFail
    }
}
