// Replays what document 01's table of refusals says of the calls on fields, matrices and caps (cases.rt): for each call a line, how many of its refusals,
// and of the places that it changes in the lists lent to it, are those due; then a line for each head of an analysed model.
#![tactic(auto)]

mod cases;
mod fields;
mod matrices;

ghost use Rattle.std.specs.Prelude.{◌≤◌, length};

use functional::Functional;
use replay_cases::{MARK, Seen, joined, size, touched};
use std::io;
use std::io::Stdout;

// What is seen of a case of a call, on a list to be read and five that hold the mark; the last column says how much of the first of these is left free.
fn see<F>(case: &[u64], call: &F) -> Seen
where
    F: Fn(
        &[u64],
        &[f64; 64],
        &mut [f64; 64],
        &mut [f64; 64],
        &mut [f64; 64],
        &mut [f64; 64],
        &mut [f64; 64],
    ) -> u64,
    requires { F.IsAlwaysCallable call.now }
{
    let list = [0.5; 64];
    let mut w = [MARK; 64];
    let mut x = [MARK; 64];
    let mut y = [MARK; 64];
    let mut z = [MARK; 64];
    let mut told = [MARK; 64];
    let number = call(case, &list, &mut w, &mut x, &mut y, &mut z, &mut told);
    let others = touched(&w, size(case, 11)) + touched(&told, 0);
    Seen {
        number,
        touched: joined(touched(&x, 0), touched(&y, 0), touched(&z, 0), others),
    }
}

// All cases of a call, twelve columns each.
fn print<F>(stdout: Stdout, name: &[u8], call: F, cases: &[u64], due: &[u64]) -> io::Result<()>
where
    F: Fn(
        &[u64],
        &[f64; 64],
        &mut [f64; 64],
        &mut [f64; 64],
        &mut [f64; 64],
        &mut [f64; 64],
        &mut [f64; 64],
    ) -> u64,
    requires call { F.IsAlwaysCallable call }
    requires lengths { (length name.now ≤ 80) × ((length cases.now ≤ 1200) × (length due.now ≤ 200)) }
{
    replay_cases::print_cases(stdout, name, 12, |case| see(case, &call), cases, due)
}

// The head of an analysed model.
fn head_of(
    nmax: usize,
    values: &[f64],
    weights: &[f64],
    latitudes: &[f64],
    trig: &[f64],
) -> [u64; 5] {
    let love = [0.5; 1];
    let mut work = [0.5; 9];
    let mut c = [0.5; 3];
    let mut s = [0.5; 3];
    replay_cases::head_words(analysis::analysis(
        Functional::GeoidHeight,
        &love,
        8.0,
        nmax,
        3.5,
        7.25,
        values,
        weights,
        latitudes,
        trig,
        &mut work,
        &mut c,
        &mut s,
    ))
}

fn print_heads(stdout: Stdout) -> io::Result<()> {
    let one = [0.5; 1];
    let two = [0.5; 2];
    let four = [0.5; 4];
    let eight = [0.5; 8];
    let sixteen = [0.5; 16];
    replay_print::show_words(
        stdout,
        b"head of analysis ",
        &head_of(0, &two, &one, &two, &four),
        &cases::HEADS,
        0,
    )?;
    replay_print::show_words(
        stdout,
        b"head of analysis ",
        &head_of(1, &eight, &two, &four, &sixteen),
        &cases::HEADS,
        5,
    )
}

fn main(rt: HostRuntime) -> io::Result<()> {
    let stdout = rt.stdout();
    replay_cases::control(stdout)?;
    print(
        stdout,
        b"grid ",
        |case, list, w, x, _, _, _| fields::grid(case, list, w, x),
        &cases::GRID,
        &cases::GRID_DUE,
    )?;
    print(
        stdout,
        b"basin_average ",
        |case, list, _, _, _, _, _| fields::basin_average(case, list),
        &cases::BASIN_AVERAGE,
        &cases::BASIN_AVERAGE_DUE,
    )?;
    print(
        stdout,
        b"analysis ",
        |case, list, w, x, y, _, _| fields::model(case, list, w, x, y),
        &cases::ANALYSIS,
        &cases::ANALYSIS_DUE,
    )?;
    print(
        stdout,
        b"symmetric_eigen ",
        |case, list, w, x, y, _, _| matrices::eigen(linalg::symmetric_eigen, case, list, w, x, y),
        &cases::SYMMETRIC_EIGEN,
        &cases::SYMMETRIC_EIGEN_DUE,
    )?;
    print(
        stdout,
        b"householder_ql ",
        |case, list, w, x, y, _, _| matrices::eigen(linalg::householder_ql, case, list, w, x, y),
        &cases::HOUSEHOLDER_QL,
        &cases::HOUSEHOLDER_QL_DUE,
    )?;
    print(
        stdout,
        b"polar_cap ",
        |case, list, w, x, y, z, told| matrices::cap(case, list, w, x, y, z, told),
        &cases::POLAR_CAP,
        &cases::POLAR_CAP_DUE,
    )?;
    print_heads(stdout)
}
