ghost use Rattle.script.specs.Scripts.{parsed_script};
ghost use Rattle.replayer.specs.Replayed.{Replayed};

use crate::backing::Spoiled;
use crate::built_in::STORY;
use crate::error::ReplayError;
use crate::layers::{CloseAll, Perform, visit_through};
use script::call::{Backing, Call};
use script::scripts::{Script, parse_script};
use session::{Answer, Session};
use std::io;
use std::io::Read;
use storage_backings::{BorrowedBytes, BorrowedWords, ProcessLocal};

/// Runs the script on standard input, or the built-in one where there is none, and answers why it stopped.
pub fn replay_input(rt: &HostRuntime) -> anyhow::Result<()> {
    let mut text = Vec::new(rt.alloc());
    rt.stdin().read_to_end(&mut text)?;
    let script = if text.is_empty() {
        STORY
    } else {
        text.as_slice()
    };
    replay(rt, script)?;
    Ok(())
}

/// Runs a script and prints an answer a line. Where a line is not understood, nothing is run.
pub fn replay(rt: &HostRuntime, text: &[u8]) -> Result<(), ReplayError>
    ensures { Replayed (parsed_script text.now) result }
{
    let script = parse_script(rt.alloc(), text)?;
    run(rt, &script)?;
    Ok(())
}

// An arm for each type of lent memory, which names its own zero.
fn run(rt: &HostRuntime, script: &Script) -> io::Result<()> {
    match script.pile.backing {
        Backing::Words(count) => {
            let mut memory = vec![in rt.alloc(); 0u64; count as usize]?;
            run_over(rt, BorrowedWords::new(memory.as_mut_slice()), script)
        }
        Backing::Bytes(count) => {
            let mut memory = vec![in rt.alloc(); 0u8; count as usize]?;
            run_over(rt, BorrowedBytes::new(memory.as_mut_slice()), script)
        }
        Backing::Inner => run_over(rt, ProcessLocal::new(), script),
    }
}

fn run_over<B: Spoiled + Drop>(rt: &HostRuntime, backing: B, script: &Script) -> io::Result<()> {
    let mut session = Session::new();
    let end = run_calls(rt, &mut session, backing, script);
    session.abandon();
    end
}

fn run_calls<B: Spoiled + Drop>(
    rt: &HostRuntime,
    session: &mut Session,
    mut backing: B,
    script: &Script,
) -> io::Result<()> {
    for call in &script.calls {
        if let Call::Code(code) = *call {
            let written = Answer::from(backing.spoil(code));
            println!(rt; "{written}")?;
        } else {
            let perform = Perform {
                rt,
                session,
                call: *call,
            };
            backing = visit_through(backing, &script.pile, perform)?;
        }
    }
    visit_through(backing, &script.pile, CloseAll { session })?;
    Ok(())
}
