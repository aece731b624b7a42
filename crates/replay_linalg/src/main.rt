// Replays the oracle's answers for the crate linalg (solvers.rt): three lines for each matrix and call, how many of its values and of its vectors have
// the oracle's bits, and whether the solver ended as the oracle's.
#![tactic(auto)]

mod solvers;

ghost use Rattle.std.specs.Prelude.{◌+◌, ◌<◌, ◌≤◌, length};

use linalg::Convergence;
use refusal::Refusal;
use replay_print::{show, show_words};
use std::io;
use std::io::Stdout;

// How a solver ended: 1 where it settled or 0, and its count.
fn show_ended(stdout: Stdout, ended: Convergence, due: &[u64], at: usize) -> io::Result<()>
    requires { at + 2 ≤ length due.now }
{
    let told = [u64::from(ended.settled), ended.count as u64];
    show_words(stdout, b"settled and count ", &told, due, at)
}

// The values of a call, its vectors behind them, and behind these how it ended.
fn show_all(
    stdout: Stdout,
    answer: Result<Convergence, Refusal>,
    values: &[f64],
    vectors: &[f64],
    due: &[u64],
    at: usize,
    first: &[u8],
    second: &[u8],
) -> io::Result<()>
    requires { (at + length values.now + length vectors.now + 2 ≤ length due.now) × ((length first.now ≤ 80) × (length second.now ≤ 80)) }
{
    match answer {
        Ok(ended) => {
            show(stdout, first, values, due, at)?;
            show(stdout, second, vectors, due, at + values.len())?;
            show_ended(stdout, ended, due, at + values.len() + vectors.len())?;
        }
        Err(_) => {
            replay_print::print(stdout, b"refused\n")?;
        }
    }
    Ok(())
}

// A matrix of n rows and `size` numbers by a call.
fn by_one<F>(
    stdout: Stdout,
    call: F,
    n: usize,
    size: usize,
    due: &[u64],
    at: usize,
    first: &[u8],
    second: &[u8],
) -> io::Result<()>
where
    F: FnOnce(&mut [f64; 1292], &mut [f64; 34], &mut [f64; 1156]) -> Result<Convergence, Refusal>,
    requires call { F.IsAlwaysCallable call }
    requires sizes { (n ≤ 34) × (size ≤ 1156) }
    requires due { at + n + size + 2 ≤ length due.now }
    requires names { (length first.now ≤ 80) × (length second.now ≤ 80) }
{
    let mut work = [0.0; 1292];
    let mut values = [0.0; 34];
    let mut vectors = [0.0; 1156];
    let answer = call(&mut work, &mut values, &mut vectors);
    show_all(
        stdout,
        answer,
        &values[..n],
        &vectors[..size],
        due,
        at,
        first,
        second,
    )
}

// A matrix of n rows and `size` numbers by both calls, whose answers are due from index `at` of two lists.
fn by_both(
    stdout: Stdout,
    n: usize,
    size: usize,
    a: &[f64],
    rotated: &[u64],
    reflected: &[u64],
    at: usize,
) -> io::Result<()>
    requires fact_1 { n ≤ 34 }
    requires fact_2 { size ≤ 1156 }
    requires fact_3 { at + n + size + 2 ≤ length rotated.now }
    requires fact_4 { at + n + size + 2 ≤ length reflected.now }
{
    by_one(
        stdout,
        |work, values, vectors| {
            linalg::symmetric_eigen(n, a, work, &mut values[..n], &mut vectors[..size])
        },
        n,
        size,
        rotated,
        at,
        b"symmetric_eigen values ",
        b"symmetric_eigen vectors ",
    )?;
    by_one(
        stdout,
        |work, values, vectors| {
            linalg::householder_ql(n, a, work, &mut values[..n], &mut vectors[..size])
        },
        n,
        size,
        reflected,
        at,
        b"householder_ql values ",
        b"householder_ql vectors ",
    )
}

// The matrix of n rows from index `start` of a list, by both calls; a has as many places as it has numbers.
fn loaded(
    stdout: Stdout,
    n: usize,
    a: &mut [f64],
    matrices: &[u64],
    start: usize,
    rotated: &[u64],
    reflected: &[u64],
    at: usize,
) -> io::Result<()>
    requires { (n ≤ 34) × ((length a.old ≤ 1156) × ((start + length a.old ≤ length matrices.now) × ((at + n + length a.old + 2 ≤ length rotated.now) × (at + n + length a.old + 2 ≤ length reflected.now)))) }
{
    replay::load(matrices, start, a);
    by_both(stdout, n, a.len(), a, rotated, reflected, at)
}

// The empty matrix.
fn of_0(stdout: Stdout) -> io::Result<()> {
    let a = [0.0; 1];
    by_both(
        stdout,
        0,
        0,
        &a[..0],
        &solvers::SYMMETRIC_EIGEN_0,
        &solvers::HOUSEHOLDER_QL_0,
        0,
    )
}

// Matrix j of 1 row.
fn of_1(stdout: Stdout, j: usize) -> io::Result<()>
    requires { j < 3 }
{
    let mut a = [0.0; 1];
    loaded(
        stdout,
        1,
        &mut a,
        &solvers::MATRICES_1,
        j,
        &solvers::SYMMETRIC_EIGEN_1,
        &solvers::HOUSEHOLDER_QL_1,
        4 * j,
    )
}

// Matrix j of 2 rows.
fn of_2(stdout: Stdout, j: usize) -> io::Result<()>
    requires { j < 11 }
{
    let mut a = [0.0; 4];
    loaded(
        stdout,
        2,
        &mut a,
        &solvers::MATRICES_2,
        4 * j,
        &solvers::SYMMETRIC_EIGEN_2,
        &solvers::HOUSEHOLDER_QL_2,
        8 * j,
    )
}

// Matrix j of 3 rows.
fn of_3(stdout: Stdout, j: usize) -> io::Result<()>
    requires { j < 4 }
{
    let mut a = [0.0; 9];
    loaded(
        stdout,
        3,
        &mut a,
        &solvers::MATRICES_3,
        9 * j,
        &solvers::SYMMETRIC_EIGEN_3,
        &solvers::HOUSEHOLDER_QL_3,
        14 * j,
    )
}

// Matrix j of 4 rows.
fn of_4(stdout: Stdout, j: usize) -> io::Result<()>
    requires { j < 4 }
{
    let mut a = [0.0; 16];
    loaded(
        stdout,
        4,
        &mut a,
        &solvers::MATRICES_4,
        16 * j,
        &solvers::SYMMETRIC_EIGEN_4,
        &solvers::HOUSEHOLDER_QL_4,
        22 * j,
    )
}

// The matrix of 5 rows.
fn of_5(stdout: Stdout) -> io::Result<()> {
    let mut a = [0.0; 25];
    loaded(
        stdout,
        5,
        &mut a,
        &solvers::MATRICES_5,
        0,
        &solvers::SYMMETRIC_EIGEN_5,
        &solvers::HOUSEHOLDER_QL_5,
        0,
    )
}

// A dense symmetric matrix of n rows: whole numbers, by the formula that the oracle's matrix has.
fn dense(n: usize, a: &mut [f64])
    requires { 0 < n }
{
    for (k, x) in a.iter_mut().enumerate() {
        *x = entry(k / n, k % n);
    }
}

fn entry(i: usize, j: usize) -> f64 {
    side(i) * side(j) + ((29 * (i % 71 + j % 71)) % 71) as f64
}

fn side(i: usize) -> f64 {
    ((5 * (i % 17)) % 17) as f64 - 8.0
}

// The dense matrix of n rows by both calls; a has as many places as it has numbers.
fn of_dense(
    stdout: Stdout,
    n: usize,
    a: &mut [f64],
    rotated: &[u64],
    reflected: &[u64],
) -> io::Result<()>
    requires { (0 < n) × ((n ≤ 34) × ((length a.old ≤ 1156) × ((n + length a.old + 2 ≤ length rotated.now) × (n + length a.old + 2 ≤ length reflected.now)))) }
{
    dense(n, a);
    by_both(stdout, n, a.len(), a, rotated, reflected, 0)
}

// The values of n rows of one number by symmetric_eigen, and how it ended; a has as many places as the rows have numbers, and values one for each row.
fn of_alike(stdout: Stdout, n: usize, a: &[f64], values: &mut [f64], due: &[u64]) -> io::Result<()>
    requires { length values.old + 2 ≤ length due.now }
{
    let mut work = [0.0; 1221];
    let mut vectors = [0.0; 1089];
    match linalg::symmetric_eigen(n, a, &mut work, values, &mut vectors) {
        Ok(ended) => {
            show(
                stdout,
                b"symmetric_eigen of rows alike values ",
                values,
                due,
                0,
            )?;
            show_ended(stdout, ended, due, values.len())?;
        }
        Err(_) => {
            replay_print::print(stdout, b"refused\n")?;
        }
    }
    Ok(())
}

fn alike(stdout: Stdout, n: usize, size: usize, cell: f64, due: &[u64]) -> io::Result<()>
    requires fact_1 { n ≤ 33 }
    requires fact_2 { size ≤ 1089 }
    requires fact_3 { n + 2 ≤ length due.now }
{
    let a = [cell; 1089];
    let mut values = [0.0; 33];
    of_alike(stdout, n, &a[..size], &mut values[..n], due)
}

fn all_of_2(stdout: Stdout) -> io::Result<()> {
    of_2(stdout, 0)?;
    of_2(stdout, 1)?;
    of_2(stdout, 2)?;
    of_2(stdout, 3)?;
    of_2(stdout, 4)?;
    of_2(stdout, 5)?;
    of_2(stdout, 6)?;
    of_2(stdout, 7)?;
    of_2(stdout, 8)?;
    of_2(stdout, 9)?;
    of_2(stdout, 10)
}

fn all_listed(stdout: Stdout) -> io::Result<()> {
    of_0(stdout)?;
    of_1(stdout, 0)?;
    of_1(stdout, 1)?;
    of_1(stdout, 2)?;
    all_of_2(stdout)?;
    of_3(stdout, 0)?;
    of_3(stdout, 1)?;
    of_3(stdout, 2)?;
    of_3(stdout, 3)?;
    of_4(stdout, 0)?;
    of_4(stdout, 1)?;
    of_4(stdout, 2)?;
    of_4(stdout, 3)?;
    of_5(stdout)
}

fn all_dense(stdout: Stdout) -> io::Result<()> {
    let mut a = [0.0; 25];
    of_dense(
        stdout,
        5,
        &mut a,
        &solvers::SYMMETRIC_EIGEN_DENSE_5,
        &solvers::HOUSEHOLDER_QL_DENSE_5,
    )?;
    let mut large = [0.0; 1156];
    of_dense(
        stdout,
        34,
        &mut large,
        &solvers::DENSE_34,
        &solvers::DENSE_34,
    )
}

// Ones, and no numbers at all.
fn all_alike(stdout: Stdout) -> io::Result<()> {
    alike(stdout, 27, 729, 1.0, &solvers::ONES_27)?;
    alike(stdout, 28, 784, 1.0, &solvers::ONES_28)?;
    alike(stdout, 29, 841, 1.0, &solvers::ONES_29)?;
    alike(stdout, 30, 900, 1.0, &solvers::ONES_30)?;
    alike(stdout, 31, 961, 1.0, &solvers::ONES_31)?;
    alike(stdout, 32, 1024, 1.0, &solvers::ONES_32)?;
    alike(stdout, 33, 1089, 1.0, &solvers::ONES_33)?;
    let nan = number::number_of_bits(0x7ff8_0000_0000_0000);
    alike(stdout, 33, 1089, nan, &solvers::NANS_33)
}

fn main(rt: HostRuntime) -> io::Result<()> {
    let stdout = rt.stdout();
    replay_print::control(stdout)?;
    all_listed(stdout)?;
    all_dense(stdout)?;
    all_alike(stdout)
}
