// Replays the oracle's outlines (outlines.rt), what the entries for C of outlines and kernels refuse (refusals.rt), and what is told of their lists
// (told.rt): a line for each group, how many of our answers are those due.
#![tactic(auto)]

mod cases;
mod outlines;
mod polygon_answers;
mod refusals;
mod told;

use std::io;

fn main(rt: HostRuntime) -> io::Result<()> {
    let stdout = rt.stdout();
    replay_cases::control(stdout)?;
    outlines::show_outlines(stdout)?;
    refusals::show_refusals(stdout)?;
    told::show_told(stdout)
}
