//! The same program as `replay`, run on a script that visits what calls on a channel answer.
#![tactic(auto)]

use replayer::replay_input;

fn main(rt: HostRuntime) -> anyhow::Result<()> {
    replay_input(&rt)
}
