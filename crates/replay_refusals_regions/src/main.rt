// Replays what the entries for C refuse of regions (refusals.rt), and what is told of their lists (told.rt), against cases.rt: a line for each group, how
// many of our answers are those due.
#![tactic(auto)]

mod cases;
mod refusals;
mod told;

use std::io;

fn main(rt: HostRuntime) -> io::Result<()> {
    let stdout = rt.stdout();
    replay_cases::control(stdout)?;
    refusals::show_refusals(stdout)?;
    told::show_told(stdout)
}
