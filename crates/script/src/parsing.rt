ghost use Rattle.std.specs.Prelude.{◌≡◌};
ghost use Rattle.script.specs.Tokens.{tokens};
ghost use Rattle.script.specs.Grammar.{parsed_line};

use crate::call::{Expected, Line};
use crate::keywords::call;
use crate::layers::pile;
use crate::words::Words;

/// What a line says.
pub fn parse_line(line: &[u8]) -> Result<Line, Expected>
    ensures { result ≡ parsed_line (tokens line.now) }
{
    let mut words = Words::of(line);
    match words.next() {
        None => Ok(Line::Blank),
        Some(b"storage") => pile(&mut words).map(Line::Storage),
        Some(keyword) => call(keyword, &mut words).map(Line::Call),
    }
}
