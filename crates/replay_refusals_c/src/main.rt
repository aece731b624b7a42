// Replays what the C entries refuse by themselves (cases.rt): a number that is no functional's, a tide that is none, lists of fixed lengths; and which of
// two wrong lists they refuse; of `legendre_grow` all that it refuses. For each entry a line, how many of its refusals, and of the places that it changes
// in the lists lent to it, are those due.
#![tactic(auto)]

mod cases;
mod entries;
mod model_files;

ghost use Rattle.std.specs.Prelude.{◌≤◌, length};

use geopotential::points::geopotential_partials;
use geopotential::tensors::geopotential_second_partials;
use replay_cases::{MARK, Seen, joined, print_cases, size, touched};
use std::io;
use std::io::Stdout;

// What is seen of a case of an entry, on a list to be read and three that hold the mark; the last column says how much of the first of these is left free.
fn see<F: Fn(&[u64], &[f64; 64], &mut [f64; 64], &mut [f64; 64], &mut [f64; 64]) -> u64>(
    case: &[u64],
    call: &F,
) -> Seen
    requires { F.IsAlwaysCallable call.now }
{
    let list = [0.5; 64];
    let mut w = [MARK; 64];
    let mut x = [MARK; 64];
    let mut y = [MARK; 64];
    let number = call(case, &list, &mut w, &mut x, &mut y);
    let behind = touched(&w, size(case, 11));
    Seen {
        number,
        touched: joined(touched(&x, 0), touched(&y, 0), 0, behind),
    }
}

// All cases of an entry, twelve columns each.
fn print<F: Fn(&[u64], &[f64; 64], &mut [f64; 64], &mut [f64; 64], &mut [f64; 64]) -> u64>(
    stdout: Stdout,
    name: &[u8],
    call: F,
    cases: &[u64],
    due: &[u64],
) -> io::Result<()>
    requires call { F.IsAlwaysCallable call }
    requires lengths { (length name.now ≤ 80) × ((length cases.now ≤ 1200) × (length due.now ≤ 200)) }
{
    print_cases(stdout, name, 12, |case| see(case, &call), cases, due)
}

fn main(rt: HostRuntime) -> io::Result<()> {
    let stdout = rt.stdout();
    replay_cases::control(stdout)?;
    print(
        stdout,
        b"factor ",
        |case, list, _, x, _| entries::factor(case, list, x),
        &cases::FACTOR,
        &cases::FACTOR_DUE,
    )?;
    print(
        stdout,
        b"degree_amplitudes ",
        |case, list, _, x, _| entries::degree_amplitudes(case, list, x),
        &cases::DEGREE_AMPLITUDES,
        &cases::DEGREE_AMPLITUDES_DUE,
    )?;
    print(
        stdout,
        b"grid ",
        |case, list, w, x, _| entries::grid(case, list, w, x),
        &cases::GRID,
        &cases::GRID_DUE,
    )?;
    print(
        stdout,
        b"basin_average ",
        |case, list, _, x, _| entries::basin_average(case, list, x),
        &cases::BASIN_AVERAGE,
        &cases::BASIN_AVERAGE_DUE,
    )?;
    print(
        stdout,
        b"analysis ",
        |case, list, w, x, y| entries::analysis(case, list, w, x, y),
        &cases::ANALYSIS,
        &cases::ANALYSIS_DUE,
    )?;
    print(
        stdout,
        b"partials ",
        |case, list, w, x, _| entries::partials(geopotential_partials, case, list, w, x),
        &cases::PARTIALS,
        &cases::PARTIALS_DUE,
    )?;
    print(
        stdout,
        b"second_partials ",
        |case, list, w, x, _| entries::partials(geopotential_second_partials, case, list, w, x),
        &cases::SECOND_PARTIALS,
        &cases::SECOND_PARTIALS_DUE,
    )?;
    print(
        stdout,
        b"second_partials_along ",
        |case, list, w, x, _| entries::second_partials_along(case, list, w, x),
        &cases::SECOND_PARTIALS_ALONG,
        &cases::SECOND_PARTIALS_ALONG_DUE,
    )?;
    print(
        stdout,
        b"acceleration_neu ",
        |case, _, _, x, _| entries::acceleration_neu(case, x),
        &cases::THREE,
        &cases::THREE_DUE,
    )?;
    print(
        stdout,
        b"gravity_neu ",
        |case, _, _, x, _| entries::gravity_neu(case, x),
        &cases::THREE,
        &cases::THREE_DUE,
    )?;
    print(
        stdout,
        b"tensor_neu ",
        |case, _, _, x, _| entries::tensor_neu(case, x),
        &cases::NINE,
        &cases::NINE_DUE,
    )?;
    print(
        stdout,
        b"legendre_grow ",
        |case, _, _, x, y| entries::legendre_grow(case, x, y),
        &cases::LEGENDRE_GROW,
        &cases::LEGENDRE_GROW_DUE,
    )?;
    print_cases(
        stdout,
        b"model_read ",
        12,
        model_files::see_read,
        &cases::MODEL_READ,
        &cases::MODEL_READ_DUE,
    )?;
    print_cases(
        stdout,
        b"model_write ",
        12,
        model_files::see_write,
        &cases::MODEL_WRITE,
        &cases::MODEL_WRITE_DUE,
    )
}
