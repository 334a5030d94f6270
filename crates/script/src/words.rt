ghost use Rattle.std.specs.Prelude.{◌≡◌, ◌||◌, ◌==◌, length};
ghost use Rattle.std.specs.Iterator.{YieldsFirstBy, at_most};
ghost use Rattle.script.specs.Tokens.{blank, tokens};

use crate::splits::split_before;

/// The words of a line that are still to come.
#[derive(Clone, Copy)]
pub(crate) struct Words<'a> {
    rest: &'a [u8],
}

fn is_blank(byte: u8) -> bool
    ensures { result ≡ blank byte }
{
    matches!(byte, b' ' | b'\t' | b'\r')
}

fn ends_word(byte: u8) -> bool
    ensures { result ≡ (byte == 35 || blank byte) }
{
    byte == b'#' || is_blank(byte)
}

impl<'a> Words<'a> {
    /// The words of a line.
    pub(crate) fn of(line: &'a [u8]) -> Words<'a>
        ensures { tokens result.rest.now ≡ tokens line.now }
    {
        Words { rest: line }
    }
}

impl<'a> Iterator for Words<'a> {
    type Item = &'a [u8];

    ghost next_gives = { YieldsFirstBy (λ w. w.now) (λ s. tokens s.rest.now) };

    ghost remaining = { λ s. at_most (length s.rest.now) };

    fn next(&mut self) -> Option<&'a [u8]> {
        let (_, start) = split_before(self.rest, |byte| !is_blank(byte));
        let (word, rest) = split_before(start, ends_word);
        self.rest = rest;
        if word.is_empty() { None } else { Some(word) }
    }
}
