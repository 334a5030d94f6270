ghost use Rattle.std.specs.Prelude.{◌≡◌};
ghost use Rattle.script.specs.declared.call.Expected.{Expected};
ghost use Rattle.script.specs.Numbers.{number_of};
ghost use Rattle.script.specs.Grammar.{port_of, state_of, overflow_in, settings};
ghost use Rattle.script.specs.Cursor.{Reads};

use crate::arguments::{Argument, next_argument};
use crate::call::{Expected, StateWord};
use crate::digits;
use crate::words::Words;
use connection_ports::Port;
use connection_words::Settings;

impl Argument for Port {
    const EXPECTED: Expected = Expected::Port;

    ghost EXPECTED = { Expected.Port };

    ghost parsed = { port_of };

    fn parse(word: &[u8]) -> Result<Port, Expected> {
        match word {
            b"sender" => Ok(Port::Sender),
            b"receiver" => Ok(Port::Receiver),
            _ => Err(Expected::Port),
        }
    }
}

impl Argument for StateWord {
    const EXPECTED: Expected = Expected::State;

    ghost EXPECTED = { Expected.State };

    ghost parsed = { state_of };

    fn parse(word: &[u8]) -> Result<StateWord, Expected> {
        match word {
            b"closed" => Ok(StateWord::Closed),
            _ => digits::number(word)
                .map(StateWord::Number)
                .ok_or(Expected::State),
        }
    }
}

// Whether a full queue gives way.
impl Argument for bool {
    const EXPECTED: Expected = Expected::Overflow;

    ghost EXPECTED = { Expected.Overflow };

    ghost parsed = { λ w. overflow_in (number_of w) };

    fn parse(word: &[u8]) -> Result<bool, Expected> {
        match digits::number(word) {
            Some(0) => Ok(false),
            Some(1) => Ok(true),
            _ => Err(Expected::Overflow),
        }
    }
}

/// The next words as the settings of a connection.
pub(crate) fn next_settings(words: &mut Words<'_>) -> Result<Settings, Expected>
    ensures { Reads settings words.old words.new result }
{
    Ok(Settings {
        buffer_size: next_argument(words)?,
        max_borrowed_samples_per_channel: next_argument(words)?,
        number_of_samples_per_segment: next_argument(words)?,
        number_of_segments: next_argument(words)?,
        number_of_channels: next_argument(words)?,
        enable_safe_overflow: next_argument(words)?,
    })
}
