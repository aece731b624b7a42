// Replays the oracle's answers for the crates legendre and quadrature (answers.rt): a line for each group, how many of our answers have the
// oracle's bits.
#![tactic(auto)]

mod answers;

ghost use Rattle.std.specs.Prelude.{◌≡◌, ◌+◌, ◌<◌, ◌≤◌, length};

use legendre::Latitude;
use refusal::Refusal;
use replay_cases::{MARK, latitude_of};
use replay_print::show;
use std::io;
use std::io::Stdout;

fn show_new(stdout: Stdout) -> io::Result<()> {
    let mut a = [0.0; 15];
    let mut b = [0.0; 15];
    match legendre::new(4, &mut a, &mut b) {
        Ok(()) => {
            show(stdout, b"new a ", &a, &answers::A, 0)?;
            show(stdout, b"new b ", &b, &answers::B, 0)?;
        }
        Err(_) => {
            replay_print::print(stdout, b"new refused\n")?;
        }
    }
    Ok(())
}

// `grow` on lists of 18 numbers: a row of the answers has a and b before the call, then after it.
fn show_grow(stdout: Stdout, from: usize, nmax: usize, words: &[u64; 72]) -> io::Result<()> {
    let mut a = [0.0; 18];
    let mut b = [0.0; 18];
    replay::load(words, 0, &mut a);
    replay::load(words, 18, &mut b);
    match legendre::grow(from, nmax, &mut a, &mut b) {
        Ok(()) => {
            show(stdout, b"grow a ", &a, words, 36)?;
            show(stdout, b"grow b ", &b, words, 54)?;
        }
        Err(_) => {
            replay_print::print(stdout, b"grow refused\n")?;
        }
    }
    Ok(())
}

// Over the rows of a table, over marks, and where there is no row to write: at the degree of the table, above it with room for the rows between, and
// from degrees whose low 32 or 63 bits are a lower one's.
fn show_grown(stdout: Stdout) -> io::Result<()> {
    show_grow(stdout, 0, 4, &answers::GROW_ZERO)?;
    show_grow(stdout, 1, 3, &answers::GROW_ONE)?;
    show_grow(stdout, 2, 4, &answers::GROW_TWO)?;
    show_grow(stdout, 3, 4, &answers::GROW_THREE)?;
    show_grow(stdout, 2, 4, &answers::GROW_MARKS)?;
    show_grow(stdout, 4, 4, &answers::GROW_NONE)?;
    show_grow(stdout, 4, 2, &answers::GROW_NONE)?;
    show_grow(stdout, 4294967297, 4, &answers::GROW_NONE)?;
    show_grow(stdout, 9223372036854775809, 4, &answers::GROW_NONE)?;
    show_grow(stdout, 18446744073709551615, 4, &answers::GROW_NONE)
}

// The entry of degree 3 and order 2, due at index `at`, by the call for it.
fn show_entry<F: FnOnce(usize, &[f64], usize, usize) -> Result<f64, Refusal>>(
    stdout: Stdout,
    name: &[u8],
    call: F,
    table: &[f64; 15],
    words: &[u64; 32],
    at: usize,
) -> io::Result<()>
    requires call { F.IsAlwaysCallable call }
    requires bounds { (length name.now ≤ 80) × (at < 32) }
{
    match call(4, table, 3, 2) {
        Ok(x) => show(stdout, name, &[x], words, at)?,
        Err(_) => {
            replay_print::print(stdout, name)?;
            replay_print::print(stdout, b"refused\n")?;
        }
    }
    Ok(())
}

// P at one latitude, and its entry.
fn show_compute(
    stdout: Stdout,
    latitude: Latitude,
    a: &[f64; 15],
    b: &[f64; 15],
    words: &[u64; 32],
) -> io::Result<()> {
    let mut p = [0.0; 15];
    match legendre::compute(4, latitude, a, b, &mut p) {
        Ok(()) => {
            show(stdout, b"compute ", &p, words, 2)?;
            show_entry(stdout, b"p(3, 2) ", legendre::p, &p, words, 10)?;
        }
        Err(_) => {
            replay_print::print(stdout, b"compute refused\n")?;
        }
    }
    Ok(())
}

// P and its derivatives at one latitude: a row of the answers has t, u, 15 numbers of each.
fn show_at(stdout: Stdout, a: &[u64; 15], b: &[u64; 15], words: &[u64; 32]) -> io::Result<()> {
    let la = replay::numbers(a);
    let lb = replay::numbers(b);
    let latitude = latitude_of(words, 0);
    show_compute(stdout, latitude, &la, &lb, words)?;
    let mut p = [0.0; 15];
    let mut dp = [0.0; 15];
    match legendre::compute_with_derivative(4, latitude, &la, &lb, &mut p, &mut dp) {
        Ok(()) => {
            show(stdout, b"compute_with_derivative p ", &p, words, 2)?;
            show(stdout, b"compute_with_derivative dp ", &dp, words, 17)?;
            show_entry(stdout, b"dp(3, 2) ", legendre::dp, &dp, words, 25)?;
        }
        Err(_) => {
            replay_print::print(stdout, b"compute_with_derivative refused\n")?;
        }
    }
    Ok(())
}

// A table up to degree 130: its front, which is a table up to degree 4; at the first latitude P of degree 130, 131 numbers, then the derivatives.
fn show_large_new(stdout: Stdout, a: &mut [f64; 8646], b: &mut [f64; 8646]) -> io::Result<()> {
    match legendre::new(130, a, b) {
        Ok(()) => {
            show(
                stdout,
                b"new 130, front of a ",
                &a[..answers::A.len()],
                &answers::A,
                0,
            )?;
            show(
                stdout,
                b"new 130, front of b ",
                &b[..answers::B.len()],
                &answers::B,
                0,
            )?;
            show_large_compute(stdout, latitude_of(&answers::MIDDLE, 0), a, b)?;
            show_large_derivative(stdout, latitude_of(&answers::MIDDLE, 0), a, b)?;
        }
        Err(_) => {
            replay_print::print(stdout, b"new 130 refused\n")?;
        }
    }
    Ok(())
}

// P alone.
fn show_large_compute(
    stdout: Stdout,
    latitude: Latitude,
    a: &[f64; 8646],
    b: &[f64; 8646],
) -> io::Result<()> {
    let mut p = [0.0; 8646];
    match legendre::compute(130, latitude, a, b, &mut p) {
        Ok(()) => show_row(stdout, b"compute 130 ", &p, &answers::LARGE, 0)?,
        Err(_) => {
            replay_print::print(stdout, b"compute 130 refused\n")?;
        }
    }
    Ok(())
}

// P with its derivatives.
fn show_large_derivative(
    stdout: Stdout,
    latitude: Latitude,
    a: &[f64; 8646],
    b: &[f64; 8646],
) -> io::Result<()> {
    let mut p = [0.0; 8646];
    let mut dp = [0.0; 8646];
    match legendre::compute_with_derivative(130, latitude, a, b, &mut p, &mut dp) {
        Ok(()) => {
            show_row(
                stdout,
                b"compute_with_derivative 130, p ",
                &p,
                &answers::LARGE,
                0,
            )?;
            show_row(
                stdout,
                b"compute_with_derivative 130, dp ",
                &dp,
                &answers::LARGE,
                131,
            )?;
        }
        Err(_) => {
            replay_print::print(stdout, b"compute_with_derivative 130 refused\n")?;
        }
    }
    Ok(())
}

// The last row of a table up to degree 130.
fn show_row(
    stdout: Stdout,
    name: &[u8],
    table: &[f64],
    words: &[u64; 262],
    at: usize,
) -> io::Result<()>
    requires { (length table.now ≡ 8646) × ((at ≤ 131) × (length name.now ≤ 80)) }
{
    let from = 8515;
    show(stdout, name, &table[from..], words, at)
}

// A table that grows in two steps to degree 130: its last row, and P by all of its rows.
fn show_large_grow(
    stdout: Stdout,
    from: usize,
    between: usize,
    a: &mut [f64; 8646],
    b: &mut [f64; 8646],
) -> io::Result<()> {
    match legendre::new(from, a, b) {
        Ok(()) => show_first_step(stdout, from, between, a, b)?,
        Err(_) => {
            replay_print::print(stdout, b"new refused\n")?;
        }
    }
    Ok(())
}

fn show_first_step(
    stdout: Stdout,
    from: usize,
    between: usize,
    a: &mut [f64; 8646],
    b: &mut [f64; 8646],
) -> io::Result<()> {
    match legendre::grow(from, between, a, b) {
        Ok(()) => show_last_step(stdout, between, a, b)?,
        Err(_) => {
            replay_print::print(stdout, b"grow refused\n")?;
        }
    }
    Ok(())
}

fn show_last_step(
    stdout: Stdout,
    from: usize,
    a: &mut [f64; 8646],
    b: &mut [f64; 8646],
) -> io::Result<()> {
    match legendre::grow(from, 130, a, b) {
        Ok(()) => {
            show_row(stdout, b"grow 130, a ", a, &answers::LARGE_TABLES, 0)?;
            show_row(stdout, b"grow 130, b ", b, &answers::LARGE_TABLES, 131)?;
            show_large_compute(stdout, latitude_of(&answers::MIDDLE, 0), a, b)?;
        }
        Err(_) => {
            replay_print::print(stdout, b"grow 130 refused\n")?;
        }
    }
    Ok(())
}

// Tables up to degree 130 in lists of marks: by one call; by seven rows with guesses from a short list, then three without; by five with guesses from a
// long list.
fn show_large(stdout: Stdout) -> io::Result<()> {
    let mut a = [MARK; 8646];
    let mut b = [MARK; 8646];
    show_large_new(stdout, &mut a, &mut b)?;
    a = [MARK; 8646];
    b = [MARK; 8646];
    show_large_grow(stdout, 120, 127, &mut a, &mut b)?;
    a = [MARK; 8646];
    b = [MARK; 8646];
    show_large_grow(stdout, 125, 125, &mut a, &mut b)
}

// A rule of N nodes: a row of the answers has the guesses, the nodes and the weights.
fn show_rule<const HALF: usize, const N: usize>(stdout: Stdout, words: &[u64]) -> io::Result<()>
    requires { HALF + N + N ≤ length words.now }
{
    let mut guesses = [0.0; HALF];
    let mut x = [0.0; N];
    let mut w = [0.0; N];
    replay::load(words, 0, &mut guesses);
    match quadrature::gauss_legendre(N, &guesses, &mut x, &mut w) {
        Ok(()) => {
            show(stdout, b"gauss_legendre nodes ", &x, words, HALF)?;
            show(stdout, b"gauss_legendre weights ", &w, words, HALF + N)?;
        }
        Err(_) => {
            replay_print::print(stdout, b"gauss_legendre refused\n")?;
        }
    }
    Ok(())
}

// The last two: guesses that are no roots (NaN, 2, -0), and one so far from the root that a hundred corrections do not reach it.
fn show_rules(stdout: Stdout) -> io::Result<()> {
    show_rule::<1, 1>(stdout, &answers::GAUSS_ONE)?;
    show_rule::<1, 2>(stdout, &answers::GAUSS_TWO)?;
    show_rule::<2, 3>(stdout, &answers::GAUSS_THREE)?;
    show_rule::<4, 8>(stdout, &answers::GAUSS_EIGHT)?;
    show_rule::<3, 5>(stdout, &answers::GAUSS_STRANGE)?;
    show_rule::<1, 2>(stdout, &answers::GAUSS_FAR)
}

fn main(rt: HostRuntime) -> io::Result<()> {
    let stdout = rt.stdout();
    replay_print::control(stdout)?;
    show_new(stdout)?;
    show_grown(stdout)?;
    show_at(stdout, &answers::A, &answers::B, &answers::MIDDLE)?;
    show_at(stdout, &answers::A, &answers::B, &answers::POLE)?;
    show_at(stdout, &answers::A, &answers::B, &answers::EQUATOR)?;
    show_at(stdout, &answers::A, &answers::B, &answers::OUTSIDE)?;
    show_at(
        stdout,
        &answers::SPECIAL_A,
        &answers::SPECIAL_B,
        &answers::SPECIAL,
    )?;
    show_rules(stdout)?;
    show_large(stdout)
}
