ghost use Rattle.std.specs.Prelude.{◌≡◌, ℕ, List, Result};
ghost use Rattle.script.specs.declared.call.Expected.{Expected};
ghost use Rattle.script.specs.declared.call.Call.{Call};
ghost use Rattle.script.specs.Grammar.{word, from_option, segment_in, stage_of, alone};
ghost use Rattle.script.specs.Numbers.{number_of};
ghost use Rattle.script.specs.Cursor.{ahead, Reads};
ghost use Rattle.script.specs.Calls.{Makes1, Makes2, one_by, two_by};

use crate::call::{Call, Expected};
use crate::digits;
use crate::words::Words;
use dynamic_storage::Stage;

/// What one word of a line can say.
pub(crate) trait Argument: Copy {
    /// What was expected where no word is left.
    const EXPECTED: Expected;

    ghost EXPECTED: { Expected };

    ghost parsed: { List ℕ → Result Self Expected };

    /// What a word says.
    fn parse(word: &[u8]) -> Result<Self, Expected>
        ensures { result ≡ parsed word.now };
}

impl Argument for u64 {
    const EXPECTED: Expected = Expected::Number;

    ghost EXPECTED = { Expected.Number };

    ghost parsed = { λ w. from_option Expected.Number (number_of w) };

    fn parse(word: &[u8]) -> Result<u64, Expected> {
        digits::number(word).ok_or(Expected::Number)
    }
}

// The number of a segment.
impl Argument for u8 {
    const EXPECTED: Expected = Expected::Segment;

    ghost EXPECTED = { Expected.Segment };

    ghost parsed = { λ w. segment_in (number_of w) };

    fn parse(word: &[u8]) -> Result<u8, Expected> {
        digits::number(word)
            .and_then(|n| u8::try_from(n).ok())
            .ok_or(Expected::Segment)
    }
}

impl Argument for Stage {
    const EXPECTED: Expected = Expected::Stage;

    ghost EXPECTED = { Expected.Stage };

    ghost parsed = { stage_of };

    fn parse(word: &[u8]) -> Result<Stage, Expected> {
        match word {
            b"absent" => Ok(Stage::Absent),
            b"forming" => Ok(Stage::Forming),
            b"ready" => Ok(Stage::Ready),
            _ => Err(Expected::Stage),
        }
    }
}

/// The next word, by what it says.
pub(crate) fn next_argument<T: Argument>(words: &mut Words<'_>) -> Result<T, Expected>
    ensures { Reads (word T.EXPECTED T.parsed) words.old words.new result }
{
    match words.next() {
        Some(word) => T::parse(word),
        None => Err(T::EXPECTED),
    }
}

/// The call of one word more, where the line ends after it.
pub(crate) fn one<T: Argument, F: FnOnce(T) -> Call>(
    words: &mut Words<'_>,
    make: F,
) -> Result<Call, Expected>
    requires { F.IsAlwaysCallable make }
    ensures { (f : T → Call) → Makes1 (F.post make) f → result ≡ one_by (word T.EXPECTED T.parsed) f (ahead words.old) }
{
    let first = next_argument(words)?;
    alone(words, make(first))
}

/// The call of two words more, where the line ends after them.
pub(crate) fn two<T: Argument, U: Argument, F: FnOnce(T, U) -> Call>(
    words: &mut Words<'_>,
    make: F,
) -> Result<Call, Expected>
    requires { F.IsAlwaysCallable make }
    ensures { (f : T → U → Call) → Makes2 (F.post make) f → result ≡ two_by (word T.EXPECTED T.parsed) (word U.EXPECTED U.parsed) f (ahead words.old) }
{
    let first = next_argument(words)?;
    let second = next_argument(words)?;
    alone(words, make(first, second))
}

/// The call, where the line ends here.
pub(crate) fn alone(words: &mut Words<'_>, call: Call) -> Result<Call, Expected>
    ensures { result ≡ alone call (ahead words.old) }
{
    match words.next() {
        Some(_) => Err(Expected::End),
        None => Ok(call),
    }
}
