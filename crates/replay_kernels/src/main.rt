// Replays the oracle's kernels (kernels.rt): a line for each list, how many of our numbers are those due.
#![tactic(auto)]

mod kernel_answers;
mod kernels;

use std::io;

fn main(rt: HostRuntime) -> io::Result<()> {
    let stdout = rt.stdout();
    replay_cases::control(stdout)?;
    kernels::show_kernels(stdout)
}
