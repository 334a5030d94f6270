//! The same program as `replay`, run on a script that visits what creating and closing ports answers.
#![tactic(auto)]

use replayer::replay_input;

fn main(rt: HostRuntime) -> anyhow::Result<()> {
    replay_input(&rt)
}
