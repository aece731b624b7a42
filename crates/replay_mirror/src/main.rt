// Replays the oracle's tables at t and at -t by the entries for C (examples.rt), what the two mirrors make of other lists and tell of theirs (lists.rt), and
// what they refuse (refusals.rt), against answers.rt: a line for each group, how many answers are those due.
#![tactic(auto)]

mod answers;
mod examples;
mod lists;
mod refusals;

use std::io;

fn main(rt: HostRuntime) -> io::Result<()> {
    let stdout = rt.stdout();
    replay_cases::control(stdout)?;
    examples::show_examples(stdout)?;
    lists::show_lists(stdout)?;
    refusals::show_refusals(stdout)
}
