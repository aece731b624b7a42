// Replays what document 01's table of refusals says of the calls on points (cases.rt): for each call a line, how many of its refusals, and of the places
// that it changes in the lists lent to it, are those due.
#![tactic(auto)]

mod cases;
mod points;

ghost use Rattle.std.specs.Prelude.{◌≤◌, length};

use replay_cases::{MARK, Seen, joined, size, touched};
use std::io;
use std::io::Stdout;

// What is seen of a case of a call, on a list to be read and two that hold the mark; the last column says how much of the first of these is left free.
fn see<F: Fn(&[u64], &[f64; 64], &mut [f64; 64], &mut [f64; 64]) -> u64>(
    case: &[u64],
    call: &F,
) -> Seen
    requires { F.IsAlwaysCallable call.now }
{
    let list = [0.5; 64];
    let mut w = [MARK; 64];
    let mut x = [MARK; 64];
    let number = call(case, &list, &mut w, &mut x);
    let behind = touched(&w, size(case, 11));
    Seen {
        number,
        touched: joined(touched(&x, 0), 0, 0, behind),
    }
}

// All cases of a call, twelve columns each.
fn print<F: Fn(&[u64], &[f64; 64], &mut [f64; 64], &mut [f64; 64]) -> u64>(
    stdout: Stdout,
    name: &[u8],
    call: F,
    cases: &[u64],
    due: &[u64],
) -> io::Result<()>
    requires call { F.IsAlwaysCallable call }
    requires lengths { (length name.now ≤ 80) × ((length cases.now ≤ 1200) × (length due.now ≤ 200)) }
{
    replay_cases::print_cases(stdout, name, 12, |case| see(case, &call), cases, due)
}

fn main(rt: HostRuntime) -> io::Result<()> {
    let stdout = rt.stdout();
    replay_cases::control(stdout)?;
    print(
        stdout,
        b"partials ",
        |case, list, w, _| points::point(partials::partials, case, list, w),
        &cases::PARTIALS,
        &cases::PARTIALS_DUE,
    )?;
    print(
        stdout,
        b"partials_along ",
        |case, list, w, x| points::along(partials::partials_along, case, list, w, x),
        &cases::PARTIALS_ALONG,
        &cases::PARTIALS_ALONG_DUE,
    )?;
    print(
        stdout,
        b"second_partials ",
        |case, list, w, _| points::point(second_partials::second_partials, case, list, w),
        &cases::SECOND_PARTIALS,
        &cases::SECOND_PARTIALS_DUE,
    )?;
    print(
        stdout,
        b"second_partials_along ",
        |case, list, w, x| points::along(second_partials::second_partials_along, case, list, w, x),
        &cases::SECOND_PARTIALS_ALONG,
        &cases::SECOND_PARTIALS_ALONG_DUE,
    )
}
