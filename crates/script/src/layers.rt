ghost use Rattle.std.specs.Prelude.{◌≡◌};
ghost use Rattle.script.specs.Grammar.{backing, window, swapped, last_layer, pile};
ghost use Rattle.script.specs.Cursor.{ahead, Reads};

use crate::arguments::next_argument;
use crate::call::{Backing, Expected, Frame, Pile};
use crate::words::Words;

// The backing that the next words name.
fn next_backing(words: &mut Words<'_>) -> Result<Backing, Expected>
    ensures { Reads backing words.old words.new result }
{
    match words.next() {
        Some(b"words") => next_argument(words).map(Backing::Words),
        Some(b"bytes") => next_argument(words).map(Backing::Bytes),
        Some(b"inner") => Ok(Backing::Inner),
        _ => Err(Expected::Backing),
    }
}

// The window that the next words name, if they do.
fn next_window(words: &mut Words<'_>) -> Result<Option<Frame>, Expected>
    ensures { Reads window words.old words.new result }
{
    let mut after = *words;
    let Some(b"window") = after.next() else {
        return Ok(None);
    };
    let place = next_argument(&mut after)?;
    let count = next_argument(&mut after)?;
    *words = after;
    Ok(Some(Frame { place, count }))
}

// Whether the next word is `swapped`, which is then passed.
fn next_swapped(words: &mut Words<'_>) -> bool
    ensures { swapped (ahead words.old) ≡ (result, ahead words.new) }
{
    let mut after = *words;
    let Some(b"swapped") = after.next() else {
        return false;
    };
    *words = after;
    true
}

// The pile, where no more layers follow.
fn whole_pile(words: &mut Words<'_>, pile: Pile) -> Result<Pile, Expected>
    ensures { result ≡ last_layer pile (ahead words.old) }
{
    match (words.next(), pile.upper) {
        (None, _) => Ok(pile),
        (Some(_), None) => Err(Expected::Layer),
        (Some(_), Some(_)) => Err(Expected::End),
    }
}

/// The storage that the words describe.
pub(crate) fn pile(words: &mut Words<'_>) -> Result<Pile, Expected>
    ensures { result ≡ pile (ahead words.old) }
{
    let backing = next_backing(words)?;
    let lower = next_window(words)?;
    let swapped = next_swapped(words);
    let upper = next_window(words)?;
    let pile = Pile {
        backing,
        lower,
        swapped,
        upper,
    };
    whole_pile(words, pile)
}
