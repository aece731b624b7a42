// Replays the oracle's regions (values.rt) against answers.rt: a line for each group, how many of our answers have the oracle's bits.
#![tactic(auto)]

mod answers;
mod values;

use std::io;

fn main(rt: HostRuntime) -> io::Result<()> {
    let stdout = rt.stdout();
    replay_cases::control(stdout)?;
    values::show_values(stdout)
}
