// Replays the intervals and the breaks of outlines (polygon_answers.rt), by their entries for C: the refusal's number, 0, how many there are, and all
// that the output holds.
ghost use Rattle.std.specs.Prelude.{◌+◌, ◌*◌, ◌≤◌, length};

use crate::polygon_answers as answers;
use geopotential::basins::{geopotential_polygon_breaks, geopotential_polygon_intervals};
use number::bits_of_number;
use replay::numbers;
use replay_cases::{MARK, MARK_LENGTH};
use replay_print::{show, show_words};
use std::io;
use std::io::Stdout;

// What an entry hands on of an outline of up to eight vertices: ten words, due from index `at` on.
fn show_answer<F: FnOnce(&mut [f64], &mut [f64], &mut usize) -> u32>(
    stdout: Stdout,
    name: &[u8],
    entry: F,
    due: &[u64],
    at: usize,
) -> io::Result<()>
    requires entry { F.IsAlwaysCallable entry }
    requires bounds { (length name.now ≤ 80) × (at + 10 ≤ length due.now) }
{
    let mut work = [MARK; 8];
    let mut out = [MARK; 8];
    let mut count = MARK_LENGTH;
    let number = entry(&mut work, &mut out, &mut count);
    let words = [
        number as u64,
        count as u64,
        bits_of_number(out[0]),
        bits_of_number(out[1]),
        bits_of_number(out[2]),
        bits_of_number(out[3]),
        bits_of_number(out[4]),
        bits_of_number(out[5]),
        bits_of_number(out[6]),
        bits_of_number(out[7]),
    ];
    show_words(stdout, name, &words, due, at)
}

// The intervals at one colatitude.
fn show_intervals(
    stdout: Stdout,
    name: &[u8],
    vertices: usize,
    outline: &[f64],
    theta: f64,
    due: &[u64],
    at: usize,
) -> io::Result<()>
    requires { (length name.now ≤ 80) × (at + 10 ≤ length due.now) }
{
    show_answer(
        stdout,
        name,
        |work, out, count| {
            geopotential_polygon_intervals(vertices, outline, theta, work, out, count)
        },
        due,
        at,
    )
}

// At each of some colatitudes.
fn show_cuts(
    stdout: Stdout,
    name: &[u8],
    vertices: usize,
    outline: &[f64],
    colatitudes: &[u64],
    due: &[u64],
) -> io::Result<()>
    requires fact_1 { length name.now ≤ 80 }
    requires fact_2 { 10 * length colatitudes.now ≤ length due.now }
    requires fact_3 { length colatitudes.now ≤ 8 }
{
    for (i, colatitude) in colatitudes.iter().enumerate() {
        let theta = number::number_of_bits(*colatitude);
        show_intervals(stdout, name, vertices, outline, theta, due, 10 * i)?;
    }
    Ok(())
}

// The breaks.
fn show_breaks(
    stdout: Stdout,
    name: &[u8],
    vertices: usize,
    outline: &[f64],
    due: &[u64; 10],
) -> io::Result<()>
    requires { length name.now ≤ 80 }
{
    show_answer(
        stdout,
        name,
        |work, out, count| geopotential_polygon_breaks(vertices, outline, work, out, count),
        due,
        0,
    )
}

fn show_concave(stdout: Stdout) -> io::Result<()> {
    let outline = numbers(&answers::CONCAVE);
    show_cuts(
        stdout,
        b"intervals, concave ",
        6,
        &outline,
        &answers::CONCAVE_COLATITUDES,
        &answers::CONCAVE_INTERVALS,
    )?;
    show_breaks(
        stdout,
        b"breaks, concave ",
        6,
        &outline,
        &answers::CONCAVE_BREAKS,
    )
}

// One that crosses itself.
fn show_star(stdout: Stdout) -> io::Result<()> {
    let outline = numbers(&answers::STAR);
    show_cuts(
        stdout,
        b"intervals, star ",
        5,
        &outline,
        &answers::STAR_COLATITUDES,
        &answers::STAR_INTERVALS,
    )?;
    show_breaks(stdout, b"breaks, star ", 5, &outline, &answers::STAR_BREAKS)
}

// One whose vertices share colatitudes.
fn show_rectangle(stdout: Stdout) -> io::Result<()> {
    let outline = numbers(&answers::RECTANGLE);
    show_cuts(
        stdout,
        b"intervals, rectangle ",
        4,
        &outline,
        &answers::RECTANGLE_COLATITUDES,
        &answers::RECTANGLE_INTERVALS,
    )?;
    show_breaks(
        stdout,
        b"breaks, rectangle ",
        4,
        &outline,
        &answers::RECTANGLE_BREAKS,
    )
}

fn show_infinite(stdout: Stdout) -> io::Result<()> {
    let outline = numbers(&answers::INFINITE);
    show_cuts(
        stdout,
        b"intervals, infinite longitude ",
        2,
        &outline,
        &answers::INFINITE_COLATITUDES,
        &answers::INFINITE_INTERVALS,
    )?;
    show_breaks(
        stdout,
        b"breaks, infinite longitude ",
        2,
        &outline,
        &answers::INFINITE_BREAKS,
    )
}

// One with a longitude that is NaN.
fn show_lost(stdout: Stdout) -> io::Result<()> {
    let outline = numbers(&answers::LOST);
    show_cuts(
        stdout,
        b"intervals, NaN longitude ",
        4,
        &outline,
        &answers::LOST_COLATITUDES,
        &answers::LOST_INTERVALS,
    )?;
    show_breaks(
        stdout,
        b"breaks, NaN longitude ",
        4,
        &outline,
        &answers::LOST_BREAKS,
    )
}

// Longitudes whose difference overflows.
fn show_far(stdout: Stdout) -> io::Result<()> {
    let outline = numbers(&answers::FAR);
    show_cuts(
        stdout,
        b"intervals, far ",
        6,
        &outline,
        &answers::FAR_COLATITUDES,
        &answers::FAR_INTERVALS,
    )?;
    show_breaks(stdout, b"breaks, far ", 6, &outline, &answers::FAR_BREAKS)
}

// Latitudes that are NaN or infinite.
fn show_nowhere(stdout: Stdout) -> io::Result<()> {
    let outline = numbers(&answers::NOWHERE);
    show_cuts(
        stdout,
        b"intervals, NaN latitude ",
        8,
        &outline,
        &answers::NOWHERE_COLATITUDES,
        &answers::NOWHERE_INTERVALS,
    )?;
    show_breaks(
        stdout,
        b"breaks, NaN latitude ",
        8,
        &outline,
        &answers::NOWHERE_BREAKS,
    )
}

// Crossed at zeros of either sign.
fn show_zeros(stdout: Stdout) -> io::Result<()> {
    let outline = numbers(&answers::ZEROS);
    show_cuts(
        stdout,
        b"intervals, zeros ",
        6,
        &outline,
        &answers::ZEROS_COLATITUDES,
        &answers::ZEROS_INTERVALS,
    )?;
    show_breaks(
        stdout,
        b"breaks, zeros ",
        6,
        &outline,
        &answers::ZEROS_BREAKS,
    )
}

// At a pole: the product of two differences is rounded to a zero.
fn show_pole(stdout: Stdout) -> io::Result<()> {
    let outline = numbers(&answers::POLE);
    show_cuts(
        stdout,
        b"intervals, pole ",
        3,
        &outline,
        &answers::POLE_COLATITUDES,
        &answers::POLE_INTERVALS,
    )?;
    show_breaks(stdout, b"breaks, pole ", 3, &outline, &answers::POLE_BREAKS)
}

// One whose crossings show which comes first, product or quotient.
fn show_quotient(stdout: Stdout) -> io::Result<()> {
    let outline = numbers(&answers::QUOTIENT);
    show_cuts(
        stdout,
        b"intervals, quotient ",
        3,
        &outline,
        &answers::QUOTIENT_COLATITUDES,
        &answers::QUOTIENT_INTERVALS,
    )?;
    show_breaks(
        stdout,
        b"breaks, quotient ",
        3,
        &outline,
        &answers::QUOTIENT_BREAKS,
    )
}

// No vertices.
fn show_empty(stdout: Stdout) -> io::Result<()> {
    let outline: [f64; 0] = [];
    show_cuts(
        stdout,
        b"intervals, empty ",
        0,
        &outline,
        &answers::EMPTY_COLATITUDES,
        &answers::EMPTY_INTERVALS,
    )?;
    show_breaks(
        stdout,
        b"breaks, empty ",
        0,
        &outline,
        &answers::EMPTY_BREAKS,
    )
}

// An outline with more vertices and crossings than the short arrays have room for.
fn show_long_answer<F: FnOnce(&mut [f64], &mut [f64], &mut usize) -> u32>(
    stdout: Stdout,
    count_name: &[u8],
    name: &[u8],
    entry: F,
    due: &[u64; 70],
) -> io::Result<()>
    requires entry { F.IsAlwaysCallable entry }
    requires names { (length count_name.now ≤ 80) × (length name.now ≤ 80) }
{
    let mut work = [MARK; 66];
    let mut out = [MARK; 68];
    let mut count = MARK_LENGTH;
    let number = entry(&mut work, &mut out, &mut count);
    show_words(stdout, count_name, &[number as u64, count as u64], due, 0)?;
    show(stdout, name, &out, due, 2)
}

fn show_long(stdout: Stdout) -> io::Result<()> {
    let outline = numbers(&answers::LONG);
    let theta = numbers(&answers::LONG_COLATITUDES);
    show_long_answer(
        stdout,
        b"intervals, long, count ",
        b"intervals, long ",
        |work, out, count| {
            geopotential_polygon_intervals(66, &outline, theta[0], work, out, count)
        },
        &answers::LONG_INTERVALS,
    )?;
    show_long_answer(
        stdout,
        b"breaks, long, count ",
        b"breaks, long ",
        |work, out, count| geopotential_polygon_breaks(66, &outline, work, out, count),
        &answers::LONG_BREAKS,
    )
}

// What a call with an output of one number handed on.
fn show_three(
    stdout: Stdout,
    name: &[u8],
    number: u32,
    count: usize,
    out: &[f64; 1],
    due: &[u64; 3],
) -> io::Result<()>
    requires { length name.now ≤ 80 }
{
    let words = [number as u64, count as u64, bits_of_number(out[0])];
    show_words(stdout, name, &words, due, 0)
}

// The most vertices, all of them one place.
fn show_most(stdout: Stdout) -> io::Result<()> {
    let outline = [0.0; 8192];
    let mut work = [MARK; 4096];
    let mut out = [MARK; 1];
    let mut count = MARK_LENGTH;
    let number = geopotential_polygon_intervals(
        4096, &outline, 1.0, &mut work, &mut out, &mut count,
    );
    show_three(
        stdout,
        b"intervals, 4096 ",
        number,
        count,
        &out,
        &answers::MOST_INTERVALS,
    )?;
    let again = geopotential_polygon_breaks(4096, &outline, &mut work, &mut out, &mut count);
    show_three(
        stdout,
        b"breaks, 4096 ",
        again,
        count,
        &out,
        &answers::MOST_BREAKS,
    )
}

// One more.
fn show_beyond(stdout: Stdout) -> io::Result<()> {
    let outline = [0.0; 8194];
    let mut work = [MARK; 4097];
    let mut out = [MARK; 1];
    let mut count = MARK_LENGTH;
    let number = geopotential_polygon_intervals(
        4097, &outline, 1.0, &mut work, &mut out, &mut count,
    );
    show_three(
        stdout,
        b"intervals, 4097 ",
        number,
        count,
        &out,
        &answers::BEYOND,
    )?;
    let again = geopotential_polygon_breaks(4097, &outline, &mut work, &mut out, &mut count);
    show_three(
        stdout,
        b"breaks, 4097 ",
        again,
        count,
        &out,
        &answers::BEYOND,
    )
}

pub fn show_outlines(stdout: Stdout) -> io::Result<()> {
    show_concave(stdout)?;
    show_star(stdout)?;
    show_rectangle(stdout)?;
    show_infinite(stdout)?;
    show_lost(stdout)?;
    show_far(stdout)?;
    show_nowhere(stdout)?;
    show_zeros(stdout)?;
    show_pole(stdout)?;
    show_quotient(stdout)?;
    show_empty(stdout)?;
    show_long(stdout)?;
    show_most(stdout)?;
    show_beyond(stdout)
}
