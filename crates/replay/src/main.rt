//! Runs the script on standard input, or a built-in one where there is none.
#![tactic(auto)]

use replayer::replay_input;

fn main(rt: HostRuntime) -> anyhow::Result<()> {
    replay_input(&rt)
}
