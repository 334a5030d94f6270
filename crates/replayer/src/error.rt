ghost use Rattle.std.specs.Prelude.{◌≡◌};
ghost use Rattle.replayer.specs.declared.error.ReplayError.TheVariants.{Script, Output};

use script::scripts::ScriptError;
use std::error::Error;
use std::{fmt, io};

/// Why a script did not run to its end.
// No ==, since io::Error has none.
#[derive(Debug, Drop)]
pub enum ReplayError {
    /// A line is not understood, or there is no memory to hold the script.
    Script(ScriptError),
    /// The answers could not be printed, or there is no memory for the storage.
    Output(io::Error),
}

// By hand, so that no crate more is needed than before.
impl fmt::Display for ReplayError {
    fn fmt<W: fmt::Write>(&self, f: &mut fmt::Formatter<W>) -> fmt::Result {
        match self {
            ReplayError::Script(error) => fmt::Display::fmt(error, f),
            ReplayError::Output(error) => fmt::Display::fmt(error, f),
        }
    }
}

impl Error for ReplayError {}

// From by hand, since a derived one states no from_gives.

impl From<ScriptError> for ReplayError {
    ghost from_gives = { λ cause error. error ≡ Script cause };

    fn from(cause: ScriptError) -> ReplayError {
        ReplayError::Script(cause)
    }
}

impl From<io::Error> for ReplayError {
    ghost from_gives = { λ cause error. error ≡ Output cause };

    fn from(cause: io::Error) -> ReplayError {
        ReplayError::Output(cause)
    }
}
