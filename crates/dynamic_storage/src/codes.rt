ghost use Rattle.std.specs.Prelude.{◌≡◌};
ghost use Rattle.dynamic_storage.specs.Codes.{stated, code_of};
ghost use Rattle.dynamic_storage.specs.Meaning.{asked, settable};

use crate::{Condition, Stage};

impl Condition {
    /// Whether a call may set this condition to another.
    pub fn is_settable(self) -> bool
        ensures { result ≡ settable self }
    {
        !matches!(self, Condition::Broken | Condition::OtherVersion)
    }
}

/// The condition that a code states.
impl From<u64> for Condition {
    ghost from_gives = { λ code condition. condition ≡ stated code };

    fn from(code: u64) -> Condition {
        match code {
            0 => Condition::Absent,
            1 => Condition::Forming,
            2 => Condition::Ready,
            3 | 4 => Condition::Broken,
            _ => Condition::OtherVersion,
        }
    }
}

/// The condition that a stage asks for.
impl From<Stage> for Condition {
    ghost from_gives = { λ stage condition. condition ≡ asked stage };

    fn from(stage: Stage) -> Condition {
        match stage {
            Stage::Absent => Condition::Absent,
            Stage::Forming => Condition::Forming,
            Stage::Ready => Condition::Ready,
        }
    }
}

/// The code that states a stage.
impl From<Stage> for u64 {
    ghost from_gives = { λ stage code. code ≡ code_of stage };

    fn from(stage: Stage) -> u64 {
        match stage {
            Stage::Absent => 0,
            Stage::Forming => 1,
            Stage::Ready => 2,
        }
    }
}
