// Replays what the entries for the solvers and for caps hand on, how the solver ended among it, and what is told of the lists of a cap (answers.rt).
ghost use Rattle.std.specs.Prelude.{◌+◌, ◌≤◌, length};

use crate::answers;
use geopotential::lists::geopotential_polar_cap_lengths;
use geopotential::matrices::{geopotential_householder_ql, geopotential_symmetric_eigen};
use geopotential::polar_caps::geopotential_polar_cap;
use replay_cases::{MARK, MARK_LENGTH, print_lengths};
use replay_print::{show, show_words};
use std::io;
use std::io::Stdout;

// What stands before a call in a number that is lent.
const MARK_NUMBER: u32 = 1234;

// A matrix of up to three rows by either solver, with places behind its values and its vectors.
fn show_solved<F>(
    stdout: Stdout,
    solver: F,
    ended_name: &[u8],
    values_name: &[u8],
    vectors_name: &[u8],
    n: usize,
    a: &[f64],
    due: &[u64; 17],
) -> io::Result<()>
where
    F: FnOnce(usize, &[f64], &mut [f64], &mut [f64], &mut [f64], &mut u32, &mut usize) -> u32,
    requires solver { F.IsAlwaysCallable solver }
    requires names { (length ended_name.now ≤ 80) × ((length values_name.now ≤ 80) × (length vectors_name.now ≤ 80)) }
{
    let mut work = [MARK; 21];
    let mut values = [MARK; 4];
    let mut vectors = [MARK; 10];
    let mut settled = MARK_NUMBER;
    let mut count = MARK_LENGTH;
    let number = solver(
        n,
        a,
        &mut work,
        &mut values,
        &mut vectors,
        &mut settled,
        &mut count,
    );
    show_words(
        stdout,
        ended_name,
        &[number as u64, settled as u64, count as u64],
        due,
        0,
    )?;
    show(stdout, values_name, &values, due, 3)?;
    show(stdout, vectors_name, &vectors, due, 7)
}

fn show_rotations(stdout: Stdout, n: usize, a: &[f64], due: &[u64; 17]) -> io::Result<()> {
    show_solved(
        stdout,
        geopotential_symmetric_eigen,
        b"symmetric_eigen, refusal, settled, count ",
        b"symmetric_eigen, values ",
        b"symmetric_eigen, vectors ",
        n,
        a,
        due,
    )
}

fn show_reflections(stdout: Stdout, n: usize, a: &[f64], due: &[u64; 17]) -> io::Result<()> {
    show_solved(
        stdout,
        geopotential_householder_ql,
        b"householder_ql, refusal, settled, count ",
        b"householder_ql, values ",
        b"householder_ql, vectors ",
        n,
        a,
        due,
    )
}

// A matrix whose squares overflow, one that the rotations don't settle, an ordinary one, one that the iteration does not settle, and a number too few.
fn show_all_rotations(stdout: Stdout, tiny: &[f64; 9]) -> io::Result<()> {
    show_rotations(
        stdout,
        2,
        &[1.0, 1e200, 1e200, 1.0],
        &answers::SYMMETRIC_EIGEN_LARGE,
    )?;
    show_rotations(
        stdout,
        2,
        &[0.0, 1.0, 0.0, 0.0],
        &answers::SYMMETRIC_EIGEN_UPPER,
    )?;
    show_rotations(
        stdout,
        2,
        &[2.0, 1.0, 1.0, 2.0],
        &answers::SYMMETRIC_EIGEN_ORDINARY,
    )?;
    show_rotations(stdout, 3, tiny, &answers::SYMMETRIC_EIGEN_TINY)?;
    show_rotations(
        stdout,
        2,
        &[2.0, 1.0, 1.0],
        &answers::SYMMETRIC_EIGEN_REFUSED,
    )
}

fn show_all_reflections(stdout: Stdout, tiny: &[f64; 9]) -> io::Result<()> {
    show_reflections(
        stdout,
        2,
        &[1.0, 1e200, 1e200, 1.0],
        &answers::HOUSEHOLDER_QL_LARGE,
    )?;
    show_reflections(
        stdout,
        2,
        &[0.0, 1.0, 0.0, 0.0],
        &answers::HOUSEHOLDER_QL_UPPER,
    )?;
    show_reflections(
        stdout,
        2,
        &[2.0, 1.0, 1.0, 2.0],
        &answers::HOUSEHOLDER_QL_ORDINARY,
    )?;
    show_reflections(stdout, 3, tiny, &answers::HOUSEHOLDER_QL_TINY)?;
    show_reflections(
        stdout,
        2,
        &[2.0, 1.0, 1.0],
        &answers::HOUSEHOLDER_QL_REFUSED,
    )
}

fn show_solvers(stdout: Stdout) -> io::Result<()> {
    let mut tiny = [0.0; 9];
    replay::load(&answers::TINY, 0, &mut tiny);
    show_all_rotations(stdout, &tiny)?;
    show_all_reflections(stdout, &tiny)
}

// The functions of a cap behind the refusal's number.
fn show_ranked(
    stdout: Stdout,
    orders: &[f64; 4],
    concentrations: &[f64; 4],
    vectors: &[f64; 6],
    due: &[u64],
) -> io::Result<()>
    requires { 15 ≤ length due.now }
{
    show(stdout, b"polar_cap, orders ", orders, due, 1)?;
    show(
        stdout,
        b"polar_cap, concentrations ",
        concentrations,
        due,
        5,
    )?;
    show(stdout, b"polar_cap, vectors ", vectors, due, 9)
}

// A cap of degree 1, with one place behind each output but the last, which is lent.
fn show_cap(stdout: Stdout, cosine: f64, settled: &mut [f64], due: &[u64]) -> io::Result<()>
    requires { 15 + length settled.old ≤ length due.now }
{
    let weights = [1.0, 0.5];
    let latitudes = [0.5, 0.875, -0.25, 0.96875];
    let mut work = [MARK; 46];
    let mut orders = [MARK; 4];
    let mut concentrations = [MARK; 4];
    let mut vectors = [MARK; 6];
    let number = geopotential_polar_cap(
        1,
        cosine,
        &weights,
        &latitudes,
        &mut work,
        &mut orders,
        &mut concentrations,
        &mut vectors,
        settled,
    );
    show_words(stdout, b"polar_cap, refusal ", &[number as u64], due, 0)?;
    show_ranked(stdout, &orders, &concentrations, &vectors, due)?;
    show(stdout, b"polar_cap, settled and counts ", settled, due, 15)
}

// One that settles, one whose order 0 does not (its cosine is infinite), and one with a place too few.
fn show_caps(stdout: Stdout) -> io::Result<()> {
    let mut settled = [MARK; 5];
    show_cap(stdout, 0.25, &mut settled, &answers::CAP)?;
    let mut partly = [MARK; 5];
    show_cap(stdout, 1.0 / 0.0, &mut partly, &answers::CAP_INFINITE)?;
    let mut short = [MARK; 3];
    show_cap(stdout, 0.25, &mut short, &answers::CAP_REFUSED)
}

// How the solver ended for each order of a cap of degree 32 at most, whose weights and pairs are lent.
fn show_long_cap(
    stdout: Stdout,
    lmax: usize,
    cosine: f64,
    weights: &[f64],
    latitudes: &[f64],
    due: &[u64; 66],
) -> io::Result<()> {
    let mut work = [MARK; 19855];
    let mut orders = [MARK; 561];
    let mut concentrations = [MARK; 561];
    let mut vectors = [MARK; 12529];
    let mut settled = [MARK; 66];
    let number = geopotential_polar_cap(
        lmax,
        cosine,
        weights,
        latitudes,
        &mut work,
        &mut orders,
        &mut concentrations,
        &mut vectors,
        &mut settled,
    );
    show_words(stdout, b"polar_cap, refusal ", &[number as u64], &[0], 0)?;
    show(stdout, b"polar_cap, settled and counts ", &settled, due, 0)
}

fn show_long_caps(stdout: Stdout) -> io::Result<()> {
    show_long_cap(
        stdout,
        16,
        1.0 / 0.0,
        &[0.5; 17],
        &[0.5; 34],
        &answers::CAP_16_INFINITE,
    )?;
    show_long_cap(stdout, 32, 0.5, &[0.5; 33], &[0.5; 66], &answers::CAP_32)
}

// The lists of lengths have a place behind the lengths, or one too few.
pub fn show_ended(stdout: Stdout) -> io::Result<()> {
    show_solvers(stdout)?;
    show_caps(stdout)?;
    show_long_caps(stdout)?;
    print_lengths(
        stdout,
        b"polar_cap_lengths ",
        |l| geopotential_polar_cap_lengths(2, l),
        &answers::CAP_LENGTHS,
    )?;
    print_lengths(
        stdout,
        b"polar_cap_lengths, 181 ",
        |l| geopotential_polar_cap_lengths(181, l),
        &answers::CAP_LENGTHS_BEYOND,
    )?;
    print_lengths(
        stdout,
        b"polar_cap_lengths, SPACE ",
        |l| geopotential_polar_cap_lengths(2, l),
        &answers::CAP_LENGTHS_SHORT,
    )
}
