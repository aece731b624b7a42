// Replays what document 01's table of refusals says of the calls on models and tables (cases.rt): for each call a line, how many of its refusals, and of
// the places that it changes in the lists lent to it, are those due; then a line for each head of a made model.
#![tactic(auto)]

mod cases;
mod models;
mod tables;

ghost use Rattle.std.specs.Prelude.{◌≤◌, length};

use replay_cases::{MARK, Seen, joined, touched};
use std::io;
use std::io::Stdout;

// What is seen of a case of a call, on a list to be read that begins with 1, 2, 3, 4, and two that hold the mark.
fn see<F: Fn(&[u64], &[f64; 64], &mut [f64; 64], &mut [f64; 64]) -> u64>(
    case: &[u64],
    call: &F,
) -> Seen
    requires { F.IsAlwaysCallable call.now }
{
    let mut list = [0.5; 64];
    list[0] = 1.0;
    list[1] = 2.0;
    list[2] = 3.0;
    list[3] = 4.0;
    let mut x = [MARK; 64];
    let mut y = [MARK; 64];
    let number = call(case, &list, &mut x, &mut y);
    Seen {
        number,
        touched: joined(touched(&x, 0), touched(&y, 0), 0, 0),
    }
}

// All cases of a call, six columns each.
fn print<F: Fn(&[u64], &[f64; 64], &mut [f64; 64], &mut [f64; 64]) -> u64>(
    stdout: Stdout,
    name: &[u8],
    call: F,
    cases: &[u64],
    due: &[u64],
) -> io::Result<()>
    requires call { F.IsAlwaysCallable call }
    requires lengths { (length name.now ≤ 80) × ((length cases.now ≤ 600) × (length due.now ≤ 200)) }
{
    replay_cases::print_cases(stdout, name, 6, |case| see(case, &call), cases, due)
}

fn print_models(stdout: Stdout) -> io::Result<()> {
    print(
        stdout,
        b"factor ",
        |case, list, _, _| models::factor(case, list),
        &cases::FACTOR,
        &cases::FACTOR_DUE,
    )?;
    print(
        stdout,
        b"zeros ",
        |case, _, x, y| models::zeros(case, x, y),
        &cases::ZEROS,
        &cases::ZEROS_DUE,
    )?;
    print(
        stdout,
        b"truncated ",
        |case, list, x, y| models::truncated(case, list, x, y),
        &cases::TRUNCATED,
        &cases::TRUNCATED_DUE,
    )?;
    print(
        stdout,
        b"rescaled ",
        |case, list, x, y| models::rescaled(case, list, x, y),
        &cases::RESCALED,
        &cases::RESCALED_DUE,
    )?;
    print(
        stdout,
        b"degree_variances ",
        |case, list, x, _| models::degree_variances(case, list, x),
        &cases::DEGREE_VARIANCES,
        &cases::DEGREE_VARIANCES_DUE,
    )?;
    print(
        stdout,
        b"degree_amplitudes ",
        |case, list, x, _| models::degree_amplitudes(case, list, x),
        &cases::DEGREE_AMPLITUDES,
        &cases::DEGREE_AMPLITUDES_DUE,
    )?;
    print(
        stdout,
        b"c ",
        |case, list, x, _| models::c(case, list, x),
        &cases::ENTRY,
        &cases::ENTRY_DUE,
    )?;
    print(
        stdout,
        b"s ",
        |case, list, x, _| models::s(case, list, x),
        &cases::ENTRY,
        &cases::ENTRY_DUE,
    )?;
    print(
        stdout,
        b"set ",
        |case, _, x, y| models::set(case, x, y),
        &cases::SET,
        &cases::SET_DUE,
    )
}

fn print_tables(stdout: Stdout) -> io::Result<()> {
    print(
        stdout,
        b"legendre new ",
        |case, _, x, y| tables::new(case, x, y),
        &cases::LEGENDRE_NEW,
        &cases::LEGENDRE_NEW_DUE,
    )?;
    print(
        stdout,
        b"legendre grow ",
        |case, _, x, y| tables::grow(case, x, y),
        &cases::LEGENDRE_GROW,
        &cases::LEGENDRE_GROW_DUE,
    )?;
    print(
        stdout,
        b"legendre compute ",
        |case, list, x, _| tables::compute(case, list, x),
        &cases::LEGENDRE_COMPUTE,
        &cases::LEGENDRE_COMPUTE_DUE,
    )?;
    print(
        stdout,
        b"legendre compute_with_derivative ",
        |case, list, x, y| tables::compute_with_derivative(case, list, x, y),
        &cases::COMPUTE_WITH_DERIVATIVE,
        &cases::COMPUTE_WITH_DERIVATIVE_DUE,
    )?;
    print(
        stdout,
        b"legendre p ",
        |case, list, x, _| models::entry(legendre::p, case, list, x),
        &cases::ENTRY,
        &cases::ENTRY_DUE,
    )?;
    print(
        stdout,
        b"legendre dp ",
        |case, list, x, _| models::entry(legendre::dp, case, list, x),
        &cases::ENTRY,
        &cases::ENTRY_DUE,
    )?;
    print(
        stdout,
        b"gauss_legendre ",
        |case, list, x, y| tables::gauss_legendre(case, list, x, y),
        &cases::GAUSS_LEGENDRE,
        &cases::GAUSS_LEGENDRE_DUE,
    )
}

fn print_zeros_heads(stdout: Stdout) -> io::Result<()> {
    replay_print::show_words(
        stdout,
        b"head of zeros ",
        &models::zeros_head(0),
        &cases::HEADS,
        0,
    )?;
    replay_print::show_words(
        stdout,
        b"head of zeros ",
        &models::zeros_head(1),
        &cases::HEADS,
        5,
    )
}

// The head of a field of degree 1 with a tide system and a date, cut at `cut`, and the one due at index `at`.
fn print_truncated_head(
    stdout: Stdout,
    tide: u64,
    cut: usize,
    date: u64,
    at: usize,
) -> io::Result<()>
    requires { at ≤ 60 }
{
    replay_print::show_words(
        stdout,
        b"head of truncated ",
        &models::truncated_head(tide, cut, date),
        &cases::HEADS,
        at,
    )
}

fn print_truncated_heads(stdout: Stdout) -> io::Result<()> {
    print_truncated_head(stdout, 0, 0, 0, 10)?;
    print_truncated_head(stdout, 1, 0, 1, 15)?;
    print_truncated_head(stdout, 2, 0, 3, 20)?;
    print_truncated_head(stdout, 3, 0, 6, 25)?;
    print_truncated_head(stdout, 0, 1, 4, 30)?;
    print_truncated_head(stdout, 1, 2, 5, 35)?;
    print_truncated_head(stdout, 2, 2701, 0, 40)
}

// The head of a rescaled field with a tide system and a date, and the one due at index `at`.
fn print_rescaled_head(stdout: Stdout, tide: u64, date: u64, at: usize) -> io::Result<()>
    requires { at ≤ 60 }
{
    replay_print::show_words(
        stdout,
        b"head of rescaled ",
        &models::rescaled_head(tide, date),
        &cases::HEADS,
        at,
    )
}

fn print_rescaled_heads(stdout: Stdout) -> io::Result<()> {
    print_rescaled_head(stdout, 0, 0, 45)?;
    print_rescaled_head(stdout, 1, 1, 50)?;
    print_rescaled_head(stdout, 2, 8, 55)?;
    print_rescaled_head(stdout, 3, 6, 60)
}

fn main(rt: HostRuntime) -> io::Result<()> {
    let stdout = rt.stdout();
    replay_cases::control(stdout)?;
    print_models(stdout)?;
    print_tables(stdout)?;
    print_zeros_heads(stdout)?;
    print_truncated_heads(stdout)?;
    print_rescaled_heads(stdout)
}
