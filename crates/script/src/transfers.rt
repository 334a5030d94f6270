ghost use Rattle.std.specs.Prelude.{◌≡◌, Err};
ghost use Rattle.script.specs.Grammar.{by_table, transfer_lines, sent, released};
ghost use Rattle.script.specs.Cursor.{ahead};

use crate::arguments::{next_argument, one, two};
use crate::call::{Call, Expected};
use crate::words::Words;

// The two lines that it shares with a release are no function, which would need a definition of its own.

// The rest of a line that sends a value.
fn send_call(words: &mut Words<'_>) -> Result<Call, Expected>
    ensures { result ≡ sent (ahead words.old) }
{
    let offset = next_argument(words)?;
    let segment = next_argument(words)?;
    two(
        words,
        |size, channel| Call::Send {
            offset,
            segment,
            size,
            channel,
        },
    )
}

// The rest of a line that gives a value back.
fn release_call(words: &mut Words<'_>) -> Result<Call, Expected>
    ensures { result ≡ released (ahead words.old) }
{
    let offset = next_argument(words)?;
    let segment = next_argument(words)?;
    one(words, |channel| Call::Release(offset, segment, channel))
}

/// The call of a line on the values that go through a connection.
pub(crate) fn transfer_call(keyword: &[u8], words: &mut Words<'_>) -> Result<Call, Expected>
    ensures { result ≡ by_table transfer_lines keyword.now (λ _. Err Expected.Keyword) (ahead words.old) }
{
    match keyword {
        b"send" => send_call(words),
        b"receive" => one(words, Call::Receive),
        b"release" => release_call(words),
        b"reclaim" => one(words, Call::Reclaim),
        b"has_data" => one(words, Call::HasData),
        b"borrow_count" => one(words, Call::BorrowCount),
        _ => Err(Expected::Keyword),
    }
}
