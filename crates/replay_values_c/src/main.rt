// Replays what some entries for C hand on (values.rt), what the two for model files tell of their lists (told.rt), and both of the entries for the second
// derivatives (tensors.rt) and of the one for tables that grow (tables.rt), against answers.rt.
#![tactic(auto)]

mod answers;
mod tables;
mod tensors;
mod told;
mod values;

use std::io;

fn main(rt: HostRuntime) -> io::Result<()> {
    let stdout = rt.stdout();
    replay_cases::control(stdout)?;
    values::show_values(stdout)?;
    told::show_told(stdout)?;
    tensors::show_tensors(stdout)?;
    tables::show_tables(stdout)
}
