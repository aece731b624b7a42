// Replays what the entry for tables that grow hands on, and what is told of its lists (answers.rt): the refusal's number and all that the lists hold
// afterwards.
use crate::answers;
use geopotential::lists::geopotential_legendre_grow_lengths;
use geopotential::tables::geopotential_legendre_grow;
use replay_cases::{MARK, print_lengths};
use replay_print::{show, show_words};
use std::io;
use std::io::Stdout;

// Lists of marks, with one place behind a table of degree 2; due are the number, a and b.
fn show_grow(stdout: Stdout, from: usize, nmax: usize, due: &[u64; 15]) -> io::Result<()> {
    let mut a = [MARK; 7];
    let mut b = [MARK; 7];
    let number = geopotential_legendre_grow(from, nmax, &mut a, &mut b);
    show_words(stdout, b"legendre_grow, refusal ", &[number as u64], due, 0)?;
    show(stdout, b"legendre_grow, a ", &a, due, 1)?;
    show(stdout, b"legendre_grow, b ", &b, due, 8)
}

// With a row to write, with none, and with a degree that is refused; then the lengths, in a list with a place behind
// them, or with one too few.
pub fn show_tables(stdout: Stdout) -> io::Result<()> {
    show_grow(stdout, 1, 2, &answers::GROW)?;
    show_grow(stdout, 2, 2, &answers::GROW_NONE)?;
    show_grow(stdout, 18446744073709551615, 2, &answers::GROW_NONE)?;
    show_grow(stdout, 1, 2701, &answers::GROW_BEYOND)?;
    print_lengths(
        stdout,
        b"legendre_grow_lengths ",
        |l| geopotential_legendre_grow_lengths(3, l),
        &answers::GROW_LENGTHS,
    )?;
    print_lengths(
        stdout,
        b"legendre_grow_lengths, 2700 ",
        |l| geopotential_legendre_grow_lengths(2700, l),
        &answers::GROW_LENGTHS_LARGE,
    )?;
    print_lengths(
        stdout,
        b"legendre_grow_lengths, 2701 ",
        |l| geopotential_legendre_grow_lengths(2701, l),
        &answers::GROW_LENGTHS_BEYOND,
    )?;
    print_lengths(
        stdout,
        b"legendre_grow_lengths, SPACE ",
        |l| geopotential_legendre_grow_lengths(3, l),
        &answers::GROW_LENGTHS_SHORT,
    )
}
