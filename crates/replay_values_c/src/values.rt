// Replays what the C entries hand on (answers.rt), and refusals that replay_refusals_c has not: for each call a line, how many words are those due, its refusal
// and all that its lists and its number hold afterwards.
use crate::answers;
use geopotential::files::{geopotential_model_read, geopotential_model_write};
use geopotential::functionals::geopotential_factor;
use geopotential::models::{
    geopotential_coefficient_c, geopotential_coefficient_s, geopotential_set, geopotential_zeros,
};
use number::bits_of_number;
use replay_cases::{MARK, MARK_BYTE, MARK_WORD, print_line};
use std::io;
use std::io::Stdout;

fn pair(number: u32, value: f64) -> [u64; 2] {
    [number as u64, bits_of_number(value)]
}

// The factor of degree 3 of a functional's number.
fn factor(functional: u32, love: &[f64]) -> [u64; 2] {
    let mut value = MARK;
    let number = geopotential_factor(functional, love, 3, 3.5, 7.25, 8.0, &mut value);
    pair(number, value)
}

// Of each functional, and of the last two with one Love number too few.
fn show_factors(stdout: Stdout) -> io::Result<()> {
    let love = [0.125, 0.25, 0.5, 0.75];
    let short = [0.125, 0.25, 0.5];
    let a = factor(0, &love);
    let b = factor(1, &love);
    let c = factor(2, &love);
    let d = factor(3, &love);
    let e = factor(4, &love);
    let f = factor(5, &love);
    let g = factor(4, &short);
    let h = factor(5, &short);
    let words = [
        a[0], a[1], b[0], b[1], c[0], c[1], d[0], d[1], e[0], e[1], f[0], f[1], g[0], g[1], h[0],
        h[1],
    ];
    print_line(stdout, b"factor, values ", &words, &answers::FACTOR)
}

// The entry of n and m by a call.
fn entry<F: FnOnce(usize, &[f64], usize, usize, &mut f64) -> u32>(
    call: F,
    list: &[f64; 3],
    n: usize,
    m: usize,
) -> [u64; 2]
    requires { F.IsAlwaysCallable call }
{
    let mut value = MARK;
    let number = call(1, list, n, m, &mut value);
    pair(number, value)
}

fn entry_c(n: usize, m: usize) -> [u64; 2] {
    entry(geopotential_coefficient_c, &[1.0, 2.0, 3.0], n, m)
}

fn entry_s(n: usize, m: usize) -> [u64; 2] {
    entry(geopotential_coefficient_s, &[4.0, 5.0, 6.0], n, m)
}

fn show_entries(stdout: Stdout) -> io::Result<()> {
    let a = entry_c(1, 0);
    let b = entry_c(1, 2);
    let c = entry_c(2, 0);
    let words = [a[0], a[1], b[0], b[1], c[0], c[1]];
    print_line(
        stdout,
        b"coefficient_c, values ",
        &words,
        &answers::COEFFICIENT_C,
    )?;
    let d = entry_s(1, 0);
    let e = entry_s(1, 2);
    let f = entry_s(2, 0);
    let other = [d[0], d[1], e[0], e[1], f[0], f[1]];
    print_line(
        stdout,
        b"coefficient_s, values ",
        &other,
        &answers::COEFFICIENT_S,
    )
}

// c and s with an entry set.
fn set(n: usize, m: usize) -> [u64; 7] {
    let mut c = [1.0, 2.0, 3.0];
    let mut s = [4.0, 5.0, 6.0];
    let number = geopotential_set(1, &mut c, &mut s, n, m, 0.625, -0.375);
    [
        number as u64,
        bits_of_number(c[0]),
        bits_of_number(c[1]),
        bits_of_number(c[2]),
        bits_of_number(s[0]),
        bits_of_number(s[1]),
        bits_of_number(s[2]),
    ]
}

fn show_set(stdout: Stdout) -> io::Result<()> {
    let a = set(1, 0);
    let b = set(1, 2);
    let words = [
        a[0], a[1], a[2], a[3], a[4], a[5], a[6], b[0], b[1], b[2], b[3], b[4], b[5], b[6],
    ];
    print_line(stdout, b"set, values ", &words, &answers::SET)
}

// Zeros in lists with one place behind them.
fn show_zeros(stdout: Stdout) -> io::Result<()> {
    let mut c = [MARK; 4];
    let mut s = [MARK; 4];
    let number = geopotential_zeros(3.5, 7.25, 1, &mut c, &mut s);
    let words = [
        number as u64,
        bits_of_number(c[0]),
        bits_of_number(c[1]),
        bits_of_number(c[2]),
        bits_of_number(c[3]),
        bits_of_number(s[0]),
        bits_of_number(s[1]),
        bits_of_number(s[2]),
        bits_of_number(s[3]),
    ];
    print_line(stdout, b"zeros, values ", &words, &answers::ZEROS)
}

// What is read of a file of degree 1: c, s and the head, each with one place behind it.
fn read(bytes: &[u8]) -> [u64; 16] {
    let mut c = [MARK_WORD; 4];
    let mut s = [MARK_WORD; 4];
    let mut h = [MARK_WORD; 7];
    let number = geopotential_model_read(bytes, &mut c, &mut s, &mut h);
    [
        number as u64,
        c[0],
        c[1],
        c[2],
        c[3],
        s[0],
        s[1],
        s[2],
        s[3],
        h[0],
        h[1],
        h[2],
        h[3],
        h[4],
        h[5],
        h[6],
    ]
}

// Of the file, of the same with a date, of one with a record of another kind, of one with a byte too many.
fn show_read(stdout: Stdout) -> io::Result<()> {
    let whole = read(&answers::FILE);
    print_line(stdout, b"model_read, values ", &whole, &answers::READ)?;
    let dated = read(&answers::DATED);
    print_line(
        stdout,
        b"model_read, dated values ",
        &dated,
        &answers::READ_DATED,
    )?;
    let mut other = answers::FILE;
    other[20] = 3;
    let kind = read(&other);
    print_line(stdout, b"model_read, KIND ", &kind, &answers::READ_KIND)?;
    let long = read(&answers::LONG);
    print_line(stdout, b"model_read, AFTER ", &long, &answers::READ_LONG)
}

// What is read of the files that are written of the same numbers; the first has no date, whatever the day count.
fn show_written(stdout: Stdout) -> io::Result<()> {
    let mut out = [MARK_BYTE; 72];
    let mut long = [MARK_BYTE; 76];
    let c = [0x0102_0304_0506_0708, 1, 0xffff_ffff_ffff_ffff];
    let s = [0xf1e2_d3c4_b5a6_9788, 2, 0x8000_0000_0000_0000];
    let gm = 0x0123_4567_89ab_cdef;
    let radius = 0xfedc_ba98_7654_3210;
    let days = -1985229329;
    geopotential_model_write(gm, radius, 2, 0, days, 1, &c, &s, &mut out);
    let words = read(&out);
    print_line(stdout, b"model_write, values ", &words, &answers::READ)?;
    geopotential_model_write(gm, radius, 2, 7, days, 1, &c, &s, &mut long);
    let dated = read(&long);
    print_line(
        stdout,
        b"model_write, dated values ",
        &dated,
        &answers::READ_DATED,
    )
}

pub fn show_values(stdout: Stdout) -> io::Result<()> {
    show_factors(stdout)?;
    show_entries(stdout)?;
    show_set(stdout)?;
    show_zeros(stdout)?;
    show_read(stdout)?;
    show_written(stdout)
}
