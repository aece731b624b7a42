// Replays the matrices and the functions of regions (answers.rt), by their entries for C: the refusal's number, 0, and the numbers.
ghost use Rattle.std.specs.Prelude.{◌≤◌, length};

use crate::answers;
use geopotential::free_regions::{geopotential_concentration_matrix, geopotential_region};
use replay::numbers;
use replay_print::{show, show_front, show_words};
use std::io;
use std::io::Stdout;

// A region's matrix, of degree 5 at most; the list for it has room for that degree.
fn show_matrix(
    stdout: Stdout,
    lmax: usize,
    weights: &[f64],
    latitudes: &[f64],
    marks: &[u8],
    s: &[f64],
    c: &[f64],
    due: &[u64],
) -> io::Result<()>
    requires { length due.now ≤ 1296 }
{
    let mut work = [0.0; 63];
    let mut matrix = [0.0; 1296];
    let number = geopotential_concentration_matrix(
        lmax,
        weights.len(),
        weights,
        latitudes,
        marks,
        s,
        c,
        &mut work,
        &mut matrix,
    );
    show_words(
        stdout,
        b"concentration_matrix, refusal ",
        &[number as u64],
        &[0],
        0,
    )?;
    show_front(stdout, b"concentration_matrix ", &matrix, due)
}

// What a call answered by its numbers: the refusal's, and how the solver ended.
fn show_ended(
    stdout: Stdout,
    number: u32,
    settled: u32,
    count: usize,
    due: &[u64; 2],
) -> io::Result<()> {
    show_words(stdout, b"region, refusal ", &[number as u64], &[0], 0)?;
    show_words(
        stdout,
        b"region, settled and count ",
        &[settled as u64, count as u64],
        due,
        0,
    )
}

// The fronts of its lists.
fn show_lists(
    stdout: Stdout,
    concentrations: &[f64; 36],
    cs: &[f64; 756],
    ss: &[f64; 756],
    due: &[u64],
    cosines: &[u64],
    sines: &[u64],
) -> io::Result<()>
    requires { (length due.now ≤ 36) × ((length cosines.now ≤ 756) × (length sines.now ≤ 756)) }
{
    show_front(stdout, b"region, concentrations ", concentrations, due)?;
    show_front(stdout, b"region, c ", cs, cosines)?;
    show_front(stdout, b"region, s ", ss, sines)
}

// Its functions.
fn show_functions(
    stdout: Stdout,
    lmax: usize,
    weights: &[f64],
    latitudes: &[f64],
    marks: &[u8],
    s: &[f64],
    c: &[f64],
    due: &[u64],
    cosines: &[u64],
    sines: &[u64],
    ended: &[u64; 2],
) -> io::Result<()>
    requires { (length due.now ≤ 36) × ((length cosines.now ≤ 756) × (length sines.now ≤ 756)) }
{
    let mut work = [0.0; 5427];
    let mut concentrations = [0.0; 36];
    let mut cs = [0.0; 756];
    let mut ss = [0.0; 756];
    let mut settled = 7;
    let mut count = 7;
    let number = geopotential_region(
        lmax,
        weights.len(),
        weights,
        latitudes,
        marks,
        s,
        c,
        &mut work,
        &mut concentrations,
        &mut cs,
        &mut ss,
        &mut settled,
        &mut count,
    );
    show_ended(stdout, number, settled, count, ended)?;
    show_lists(stdout, &concentrations, &cs, &ss, due, cosines, sines)
}

// The matrix and the functions of a region by the bit patterns of its lists.
fn show_region<const NODES: usize, const PAIRS: usize, const INTEGRALS: usize>(
    stdout: Stdout,
    lmax: usize,
    weights: &[u64; NODES],
    latitudes: &[u64; PAIRS],
    marks: &[u8; NODES],
    s: &[u64; INTEGRALS],
    c: &[u64; INTEGRALS],
    matrix: &[u64],
    concentrations: &[u64],
    cosines: &[u64],
    sines: &[u64],
    ended: &[u64; 2],
) -> io::Result<()>
    requires matrix { length matrix.now ≤ 1296 }
    requires functions { (length concentrations.now ≤ 36) × ((length cosines.now ≤ 756) × (length sines.now ≤ 756)) }
{
    let w = numbers(weights);
    let t = numbers(latitudes);
    let s = numbers(s);
    let c = numbers(c);
    show_matrix(stdout, lmax, &w, &t, marks, &s, &c, matrix)?;
    show_functions(
        stdout,
        lmax,
        &w,
        &t,
        marks,
        &s,
        &c,
        concentrations,
        cosines,
        sines,
        ended,
    )
}

// A region of degree 0, of three nodes, one of them skipped.
fn show_of_0(stdout: Stdout) -> io::Result<()> {
    show_region(
        stdout,
        0,
        &answers::OF_0_WEIGHTS,
        &answers::OF_0_LATITUDES,
        &answers::OF_0_MARKS,
        &answers::OF_0_S,
        &answers::OF_0_C,
        &answers::OF_0_MATRIX,
        &answers::OF_0_CONCENTRATIONS,
        &answers::OF_0_COSINES,
        &answers::OF_0_SINES,
        &answers::OF_0_ENDED,
    )
}

// Degree 1.
fn show_of_1(stdout: Stdout) -> io::Result<()> {
    show_region(
        stdout,
        1,
        &answers::OF_1_WEIGHTS,
        &answers::OF_1_LATITUDES,
        &answers::OF_1_MARKS,
        &answers::OF_1_S,
        &answers::OF_1_C,
        &answers::OF_1_MATRIX,
        &answers::OF_1_CONCENTRATIONS,
        &answers::OF_1_COSINES,
        &answers::OF_1_SINES,
        &answers::OF_1_ENDED,
    )
}

// Degree 2.
fn show_of_2(stdout: Stdout) -> io::Result<()> {
    show_region(
        stdout,
        2,
        &answers::OF_2_WEIGHTS,
        &answers::OF_2_LATITUDES,
        &answers::OF_2_MARKS,
        &answers::OF_2_S,
        &answers::OF_2_C,
        &answers::OF_2_MATRIX,
        &answers::OF_2_CONCENTRATIONS,
        &answers::OF_2_COSINES,
        &answers::OF_2_SINES,
        &answers::OF_2_ENDED,
    )
}

// Sums that overflow, products that vanish, zeros of either sign.
fn show_strange(stdout: Stdout) -> io::Result<()> {
    show_region(
        stdout,
        1,
        &answers::STRANGE_WEIGHTS,
        &answers::STRANGE_LATITUDES,
        &answers::STRANGE_MARKS,
        &answers::STRANGE_S,
        &answers::STRANGE_C,
        &answers::STRANGE_MATRIX,
        &answers::STRANGE_CONCENTRATIONS,
        &answers::STRANGE_COSINES,
        &answers::STRANGE_SINES,
        &answers::STRANGE_ENDED,
    )
}

// Products that overflow unless the sum is halved before them.
fn show_large(stdout: Stdout) -> io::Result<()> {
    show_region(
        stdout,
        1,
        &answers::LARGE_WEIGHTS,
        &answers::LARGE_LATITUDES,
        &answers::LARGE_MARKS,
        &answers::LARGE_S,
        &answers::LARGE_C,
        &answers::LARGE_MATRIX,
        &answers::LARGE_CONCENTRATIONS,
        &answers::LARGE_COSINES,
        &answers::LARGE_SINES,
        &answers::LARGE_ENDED,
    )
}

// An integral that is none, of one node.
fn show_none(stdout: Stdout) -> io::Result<()> {
    show_region(
        stdout,
        1,
        &answers::NONE_WEIGHTS,
        &answers::NONE_LATITUDES,
        &answers::NONE_MARKS,
        &answers::NONE_S,
        &answers::NONE_C,
        &answers::NONE_MATRIX,
        &answers::NONE_CONCENTRATIONS,
        &answers::NONE_COSINES,
        &answers::NONE_SINES,
        &answers::NONE_ENDED,
    )
}

// Degree 5, of two nodes: the front of the answer.
fn show_of_5(stdout: Stdout) -> io::Result<()> {
    show_region(
        stdout,
        5,
        &answers::OF_5_WEIGHTS,
        &answers::OF_5_LATITUDES,
        &answers::OF_5_MARKS,
        &answers::OF_5_S,
        &answers::OF_5_C,
        &answers::OF_5_MATRIX,
        &answers::OF_5_CONCENTRATIONS,
        &answers::OF_5_COSINES,
        &answers::OF_5_SINES,
        &answers::OF_5_ENDED,
    )
}

// Degree 5, of one node of a subnormal weight: the iteration does not settle.
fn show_faint(stdout: Stdout) -> io::Result<()> {
    show_region(
        stdout,
        5,
        &answers::FAINT_WEIGHTS,
        &answers::FAINT_LATITUDES,
        &answers::FAINT_MARKS,
        &answers::FAINT_S,
        &answers::FAINT_C,
        &answers::FAINT_MATRIX,
        &answers::FAINT_CONCENTRATIONS,
        &answers::FAINT_COSINES,
        &answers::FAINT_SINES,
        &answers::FAINT_ENDED,
    )
}

// Degree 1, with these lists to be written: the refusal's number. That it leaves the two numbers of the solver alone is replayed with the refusals.
fn refusal_of_1(
    work: &mut [f64],
    concentrations: &mut [f64],
    cs: &mut [f64],
    ss: &mut [f64],
) -> u64 {
    let weights = numbers(&answers::OF_1_WEIGHTS);
    let latitudes = numbers(&answers::OF_1_LATITUDES);
    let s = numbers(&answers::OF_1_S);
    let c = numbers(&answers::OF_1_C);
    let mut settled = 7;
    let mut count = 7;
    let number = geopotential_region(
        1,
        3,
        &weights,
        &latitudes,
        &answers::OF_1_MARKS,
        &s,
        &c,
        work,
        concentrations,
        cs,
        ss,
        &mut settled,
        &mut count,
    );
    number as u64
}

// One number too few in each of them, and then just enough.
fn show_short(stdout: Stdout) -> io::Result<()> {
    let mut work = [0.0; 93];
    let mut concentrations = [0.0; 4];
    let mut cs = [0.0; 12];
    let mut ss = [0.0; 12];
    let mut work_short = [0.0; 92];
    let mut concentrations_short = [0.0; 3];
    let mut numbers_short = [0.0; 11];
    let of_work = refusal_of_1(&mut work_short, &mut concentrations, &mut cs, &mut ss);
    let of_concentrations = refusal_of_1(&mut work, &mut concentrations_short, &mut cs, &mut ss);
    let of_cosines = refusal_of_1(&mut work, &mut concentrations, &mut numbers_short, &mut ss);
    let of_sines = refusal_of_1(&mut work, &mut concentrations, &mut cs, &mut numbers_short);
    let numbers = [of_work, of_concentrations, of_cosines, of_sines];
    show_words(stdout, b"region, SPACE ", &numbers, &[3, 3, 3, 3], 0)?;
    show(
        stdout,
        b"region, SPACE, concentrations ",
        &concentrations,
        &[0; 4],
        0,
    )?;
    let enough = refusal_of_1(&mut work, &mut concentrations, &mut cs, &mut ss);
    show_words(stdout, b"region, just enough ", &[enough], &[0], 0)
}

pub fn show_values(stdout: Stdout) -> io::Result<()> {
    show_of_0(stdout)?;
    show_of_1(stdout)?;
    show_of_2(stdout)?;
    show_strange(stdout)?;
    show_large(stdout)?;
    show_none(stdout)?;
    show_faint(stdout)?;
    show_of_5(stdout)?;
    show_short(stdout)
}
