ghost use Rattle.std.specs.Prelude.{◌≡◌, Ok, MatchResult};
ghost use Rattle.std.specs.Option.{unwrap_or};
ghost use Rattle.script.specs.Tokens.{tokens};
ghost use Rattle.script.specs.Scripts.{usual, is_inner, is_code, line_on, with_pile, with_call, after_line, parsed_script};
ghost use Rattle.script.specs.Progress.{sofar, Took, Parsed};

use crate::call::{Backing, Call, Expected, Line, Pile};
use crate::lines::Lines;
use crate::parsing::parse_line;
use crate::words::Words;
use std::alloc::Global;

/// What a text asks for.
#[derive(Drop)]
pub struct Script {
    pub pile: Pile,
    pub calls: Vec<Call>,
}

/// Why a text gives no script.
#[derive(Clone, Copy, Debug, PartialEq, Eq)]
pub enum ScriptError {
    NotUnderstood { line: u64, expected: Expected },
    OutOfMemory,
}

// What was read of a script: its storage, once a line came that is not blank, and its calls.
#[derive(Drop)]
struct Reading {
    pile: Option<Pile>,
    calls: Vec<Call>,
}

/// The storage of a script that does not describe one.
impl Default for Pile {
    ghost is_default = { λ pile. pile ≡ usual };

    fn default() -> Pile {
        Pile {
            backing: Backing::Words(4097),
            lower: None,
            swapped: false,
            upper: None,
        }
    }
}

fn is_inner(backing: Backing) -> bool
    ensures { result ≡ is_inner backing }
{
    matches!(backing, Backing::Inner)
}

// Whether a line begins with `code`.
fn is_code(line: &[u8]) -> bool
    ensures { result ≡ is_code (tokens line.now) }
{
    matches!(Words::of(line).next(), Some(b"code"))
}

// What a line says over a storage: an inner one has no code to write.
fn line_on(backing: Backing, line: &[u8]) -> Result<Line, Expected>
    ensures { result ≡ line_on backing line.now }
{
    if is_inner(backing) && is_code(line) {
        return Err(Expected::CodeNeedsMemory);
    }
    parse_line(line)
}

impl Reading {
    // The storage, or the one of a script that does not describe one.
    fn pile(&self) -> Pile
        ensures { result ≡ unwrap_or self.now.pile usual }
    {
        self.pile.unwrap_or_default()
    }

    // A storage line, which stands before all calls.
    fn take_pile(&mut self, number: u64, pile: Pile) -> Result<(), ScriptError>
        ensures { Took (with_pile (sofar self.old) pile) number self.new result }
    {
        if self.pile.is_some() {
            return Err(ScriptError::NotUnderstood {
                line: number,
                expected: Expected::StorageFirst,
            });
        }
        self.pile = Some(pile);
        Ok(())
    }

    // A call, unless memory is short.
    fn take_call(&mut self, call: Call) -> Result<(), ScriptError>
        ensures { MatchResult result (λ _. with_call (sofar self.old) call ≡ Ok (sofar self.new)) (λ e. e ≡ ScriptError.OutOfMemory) }
    {
        self.pile = Some(self.pile());
        self.calls.push(call)?;
        Ok(())
    }

    // One line more.
    fn take_line(&mut self, number: u64, line: &[u8]) -> Result<(), ScriptError>
        ensures { Took (after_line (sofar self.old) line.now) number self.new result }
    {
        let not_understood = |expected| ScriptError::NotUnderstood {
            line: number,
            expected,
        };
        match line_on(self.pile().backing, line).map_err(not_understood)? {
            Line::Blank => Ok(()),
            Line::Storage(pile) => self.take_pile(number, pile),
            Line::Call(call) => self.take_call(call),
        }
    }

    // What was read, as a whole.
    fn whole(self) -> Script
        ensures pile { result.pile ≡ unwrap_or self.pile usual }
        ensures calls { result.calls.items ≡ self.calls.items }
    {
        let pile = self.pile();
        let Reading { pile: _, calls } = self;
        Script { pile, calls }
    }
}

/// What a text says, line by line.
pub fn parse_script(heap: Global, text: &[u8]) -> Result<Script, ScriptError>
    ensures { Parsed (parsed_script text.now) result }
{
    let mut reading = Reading {
        pile: None,
        calls: Vec::new(heap),
    };
    for (index, line) in Lines::of(text).enumerate() {
        reading.take_line(index as u64 + 1, line)?;
    }
    Ok(reading.whole())
}
