ghost use Rattle.std.specs.Prelude.{◌≡◌, ℕ, ◌++◌, length, IfOk, None, OnOk};
ghost use Rattle.history.specs.Books.{books, minus};
ghost use Rattle.history_run.specs.Course.{answers_of};
ghost use Rattle.history_run.specs.Made.{Acts, Held, listed, next, told, events};
ghost use Rattle.history_lists.specs.Lists.{moves, tally_of, tally_in, empty, value_in, granted, moved_by_send, moves_of, moved, moved_to, tallied};

use crate::Lists;
use crate::lists::Moves;
use history_run::{Answer, Call};
use std::alloc::{AllocError, Global};

/// Takes the first occurrence of a value out of a list.
fn take_out(list: &mut Vec<u64>, value: Option<u64>)
    ensures { list.new.items ≡ minus list.old.items (listed value) }
{
    let Some(value) = value else {
        return;
    };
    if let Some(first) = list.iter().position(|entry| *entry == value) {
        let _ = list.remove(first);
    }
}

/// Puts a value behind a list.
fn put_in(list: &mut Vec<u64>, value: Option<u64>) -> Result<(), AllocError>
    ensures { OnOk result (list.new.items ≡ list.old.items ++ listed value) }
{
    let Some(value) = value else {
        return Ok(());
    };
    Ok(list.push(value)?)
}

/// The value that is answered.
fn value_in(answer: Answer) -> Option<u64>
    ensures { result ≡ value_in answer }
{
    match answer {
        Answer::Value(value) => Some(value),
        _ => None,
    }
}

/// The value that was given, unless it was refused.
fn granted(answer: Answer, value: u64) -> Option<u64>
    ensures { result ≡ granted answer value }
{
    match answer {
        Answer::Refused(_) => None,
        _ => Some(value),
    }
}

impl Moves {
    fn on(channel: u64) -> Moves
        ensures { result ≡ moves channel None None None None None }
    {
        Moves {
            channel,
            sent: None,
            evicted: None,
            received: None,
            released: None,
            reclaimed: None,
        }
    }

    /// What was sent, at once or by a step.
    fn by_send(answer: Answer) -> Moves
        ensures { result ≡ moved_by_send answer }
    {
        match answer {
            Answer::Sent {
                value,
                channel,
                evicted,
            } => {
                Moves {
                    sent: Some(value),
                    evicted,
                    ..Moves::on(channel)
                }
            }
            _ => Moves::on(0),
        }
    }

    fn of<P>(call: &Call<P>, answer: Answer) -> Moves
        ensures { result ≡ moves_of call.now answer }
    {
        match call {
            Call::Send { .. } | Call::Step { .. } => Moves::by_send(answer),
            Call::Receive { channel } => {
                Moves {
                    received: value_in(answer),
                    ..Moves::on(*channel)
                }
            }
            Call::Release { value, channel } => {
                Moves {
                    released: granted(answer, value.as_value()),
                    ..Moves::on(*channel)
                }
            }
            Call::Reclaim { channel } => {
                Moves {
                    reclaimed: value_in(answer),
                    ..Moves::on(*channel)
                }
            }
            _ => Moves::on(0),
        }
    }
}

impl Lists {
    fn new(heap: Global) -> Lists
        ensures { tally_in result ≡ empty }
    {
        Lists {
            waiting: Vec::new(heap),
            on_loan: Vec::new(heap),
            returned: Vec::new(heap),
        }
    }

    fn make_moves(&mut self, moves: Moves) -> Result<(), AllocError>
        ensures { OnOk result (tally_in self.new ≡ moved_to moves (tally_in self.old)) }
    {
        take_out(&mut self.waiting, moves.evicted);
        take_out(&mut self.waiting, moves.received);
        put_in(&mut self.waiting, moves.sent)?;
        take_out(&mut self.on_loan, moves.released);
        put_in(&mut self.on_loan, moves.received)?;
        take_out(&mut self.returned, moves.reclaimed);
        put_in(&mut self.returned, moves.released)
    }

    fn add<P>(&mut self, call: &Call<P>, answer: Answer, channel: u64) -> Result<(), AllocError>
        ensures { OnOk result (tally_in self.new ≡ moved channel (moves_of call.now answer) (tally_in self.old)) }
    {
        let moves = Moves::of(call, answer);
        if moves.channel != channel {
            return Ok(());
        }
        self.make_moves(moves)
    }
}

/// The lists of a channel after calls with these answers.
// Two lists: the calls are the caller's, and the answers those of a run.
fn tally<P>(
    heap: Global,
    calls: &[Call<P>],
    answers: &[Answer],
    channel: u64,
) -> Result<Lists, AllocError>
    ensures { IfOk result (λ lists. tally_in lists ≡ tallied channel calls.now answers.now empty) }
{
    let mut lists = Lists::new(heap);
    for (call, answer) in calls.iter().zip(answers) {
        lists.add(call, *answer, channel)?;
    }
    Ok(lists)
}

/// The values that wait on a channel, are on loan and are returned after a history, from its calls and answers alone.
pub fn lists_of<P>(
    heap: Global,
    calls: &[Call<P>],
    answers: &[Answer],
    channel: u64,
) -> Result<Lists, AllocError>
    ensures { IfOk result (λ lists. (acts : Acts P) (h : Held) → answers.now ≡ answers_of (next acts) (told acts) h calls.now → tally_in lists ≡ tally_of (books channel (events acts h calls.now))) }
{
    tally(heap, calls, answers, channel)
}
