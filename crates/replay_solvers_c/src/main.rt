// Replays what the entries for C of the solvers and of caps hand on (entries.rt), against answers.rt: for each list and for the numbers a line, how many
// are those due.
#![tactic(auto)]

mod answers;
mod entries;

use std::io;

fn main(rt: HostRuntime) -> io::Result<()> {
    let stdout = rt.stdout();
    replay_cases::control(stdout)?;
    entries::show_ended(stdout)
}
