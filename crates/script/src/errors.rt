ghost use Rattle.std.specs.Prelude.{◌≡◌, Some};
ghost use Rattle.script.specs.declared.scripts.ScriptError.TheVariants.{OutOfMemory};
ghost use Rattle.script.specs.Texts.{expected_text, script_error_text};

use crate::call::Expected;
use crate::scripts::ScriptError;
use std::alloc::AllocFailed;
use std::error::Error;
use std::fmt;

// By hand, since the texts are proved.

impl fmt::Display for Expected {
    ghost output = { λ expected. Some (expected_text expected) };

    fn fmt<W: fmt::Write>(&self, f: &mut fmt::Formatter<W>) -> fmt::Result {
        f.write_str(match self {
            Expected::Keyword => "a call",
            Expected::Number => "a number below 2^64",
            Expected::Segment => "a segment, 0 to 255",
            Expected::Stage => "absent, forming or ready",
            Expected::Backing => "words N, bytes N or inner",
            Expected::Layer => "window A N or swapped, each at most once and in order",
            Expected::Overflow => "0 or 1",
            Expected::State => "a number below 2^64 or closed",
            Expected::Port => "sender or receiver",
            Expected::End => "the end of the line",
            Expected::StorageFirst => "storage on the first line only",
            Expected::CodeNeedsMemory => "code over words or bytes only",
        })
    }
}

impl fmt::Display for ScriptError {
    ghost output = { λ error. Some (script_error_text error) };

    fn fmt<W: fmt::Write>(&self, f: &mut fmt::Formatter<W>) -> fmt::Result {
        match self {
            ScriptError::NotUnderstood { line, expected } => {
                write!(f, "line {line}: expected {expected}")
            }
            ScriptError::OutOfMemory => f.write_str("out of memory"),
        }
    }
}

impl Error for ScriptError {}

impl<T: Drop> From<AllocFailed<T>> for ScriptError {
    ghost from_gives = { λ _ error. error ≡ OutOfMemory };

    fn from(_: AllocFailed<T>) -> Self {
        Self::OutOfMemory
    }
}
