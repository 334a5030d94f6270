ghost use Rattle.std.specs.Prelude.{◌≡◌};
ghost use Rattle.script.specs.Grammar.{call, by_table, condition_lines, address_lines, port_lines, address_call, port_call, transfer_call, settings_and_state};
ghost use Rattle.script.specs.Cursor.{ahead};

use crate::arguments::{alone, next_argument, one, two};
use crate::call::{Call, Expected};
use crate::ports::next_settings;
use crate::transfers::transfer_call;
use crate::words::Words;

// A function for each of the five tables of the grammar, each with the tables behind it. The keyword goes beside the words
// behind it, as in the grammar.

/// The call of a line that begins with a keyword, first of those on the words of the storage.
pub(crate) fn call(keyword: &[u8], words: &mut Words<'_>) -> Result<Call, Expected>
    ensures { result ≡ call keyword.now (ahead words.old) }
{
    match keyword {
        b"length" => alone(words, Call::Length),
        b"words" => alone(words, Call::Words),
        b"read" => one(words, Call::Read),
        b"write" => two(words, Call::Write),
        _ => condition_call(keyword, words),
    }
}

// The call of a line on the condition of the storage.
fn condition_call(keyword: &[u8], words: &mut Words<'_>) -> Result<Call, Expected>
    ensures { result ≡ by_table condition_lines keyword.now (address_call keyword.now) (ahead words.old) }
{
    match keyword {
        b"condition" => alone(words, Call::Condition),
        b"set_condition" => one(words, Call::SetCondition),
        b"code" => one(words, Call::Code),
        _ => address_call(keyword, words),
    }
}

// The call of a line on an address.
fn address_call(keyword: &[u8], words: &mut Words<'_>) -> Result<Call, Expected>
    ensures { result ≡ by_table address_lines keyword.now (port_call keyword.now) (ahead words.old) }
{
    match keyword {
        b"offset" => one(words, Call::Offset),
        b"value" => two(words, Call::Value),
        _ => port_call(keyword, words),
    }
}

// The call of a line on the ports of a connection.
fn port_call(keyword: &[u8], words: &mut Words<'_>) -> Result<Call, Expected>
    ensures { result ≡ by_table port_lines keyword.now (transfer_call keyword.now) (ahead words.old) }
{
    match keyword {
        b"settings" => settings_call(words),
        b"create" => one(words, Call::Create),
        b"close" => one(words, Call::Close),
        b"counters" => alone(words, Call::Counters),
        _ => transfer_call(keyword, words),
    }
}

// The rest of a line that describes a connection.
fn settings_call(words: &mut Words<'_>) -> Result<Call, Expected>
    ensures { result ≡ settings_and_state Call.Settings (ahead words.old) }
{
    let settings = next_settings(words)?;
    one(words, |state| Call::Settings(settings, state))
}
