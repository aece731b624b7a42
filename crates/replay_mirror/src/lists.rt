// Lists that are no table at a latitude: any numbers, second derivatives, which turn as P does, lists of other lengths, and what is told of a list.
ghost use Rattle.std.specs.Prelude.{◌≡◌, ◌+◌, ◌≤◌, length};

use crate::answers;
use crate::examples::unsign_zeros;
use geopotential::lists::{
    geopotential_legendre_mirror_derivative_lengths, geopotential_legendre_mirror_lengths,
};
use geopotential::tables::{geopotential_legendre_mirror, geopotential_legendre_mirror_derivative};
use replay_cases::print_lengths;
use replay_print::{show, show_words};
use std::io;
use std::io::Stdout;

// Any numbers: before the calls, after `mirror`, after `mirror_derivative`.
fn show_any(stdout: Stdout) -> io::Result<()> {
    let mut table = [0.0; 15];
    replay::load(&answers::ANY, 0, &mut table);
    geopotential_legendre_mirror(4, &mut table);
    show(stdout, b"any numbers mirrored ", &table, &answers::ANY, 15)?;
    replay::load(&answers::ANY, 0, &mut table);
    geopotential_legendre_mirror_derivative(4, &mut table);
    show(
        stdout,
        b"any numbers mirrored as derivatives ",
        &table,
        &answers::ANY,
        30,
    )
}

// Second derivatives by `mirror`, and beside those at -t, with every zero +0.
fn show_second(stdout: Stdout) -> io::Result<()> {
    let mut table = [0.0; 10];
    replay::load(&answers::SECOND, 0, &mut table);
    geopotential_legendre_mirror(3, &mut table);
    show(
        stdout,
        b"second derivatives mirrored ",
        &table,
        &answers::SECOND,
        10,
    )?;
    unsign_zeros(&mut table);
    show(
        stdout,
        b"second derivatives at -t ",
        &table,
        &answers::SECOND,
        20,
    )
}

// A list of N numbers and a degree by either entry: due are the number and the list afterwards.
fn show_mirror<const N: usize, F: FnOnce(usize, &mut [f64]) -> u32>(
    stdout: Stdout,
    entry: F,
    refusal_name: &[u8],
    table_name: &[u8],
    nmax: usize,
    due: &[u64],
) -> io::Result<()>
    requires entry { F.IsAlwaysCallable entry }
    requires names { (length refusal_name.now ≤ 80) × (length table_name.now ≤ 80) }
    requires due { (N ≤ 7) × (1 + N ≤ length due.now) }
{
    let mut table = [0.0; N];
    replay::load(&answers::MIRROR_BEFORE, 0, &mut table);
    let number = entry(nmax, &mut table);
    show_words(stdout, refusal_name, &[number as u64], due, 0)?;
    show(stdout, table_name, &table, due, 1)
}

fn show_values<const N: usize>(stdout: Stdout, nmax: usize, due: &[u64]) -> io::Result<()>
    requires { (N ≤ 7) × (1 + N ≤ length due.now) }
{
    show_mirror::<N, _>(
        stdout,
        geopotential_legendre_mirror,
        b"legendre_mirror, refusal ",
        b"legendre_mirror, table ",
        nmax,
        due,
    )
}

fn show_derivatives<const N: usize>(stdout: Stdout, nmax: usize, due: &[u64]) -> io::Result<()>
    requires { (N ≤ 7) × (1 + N ≤ length due.now) }
{
    show_mirror::<N, _>(
        stdout,
        geopotential_legendre_mirror_derivative,
        b"legendre_mirror_derivative, refusal ",
        b"legendre_mirror_derivative, table ",
        nmax,
        due,
    )
}

// A table of degree 2, a number less, a number more, and a degree that is refused.
fn show_sizes(stdout: Stdout) -> io::Result<()> {
    show_values::<6>(stdout, 2, &answers::MIRROR)?;
    show_values::<5>(stdout, 2, &answers::MIRROR_SHORT)?;
    show_values::<7>(stdout, 2, &answers::MIRROR_LONG)?;
    show_values::<6>(stdout, 2701, &answers::MIRROR_BEYOND)?;
    show_derivatives::<6>(stdout, 2, &answers::MIRROR_DERIVATIVE)?;
    show_derivatives::<5>(stdout, 2, &answers::MIRROR_DERIVATIVE_SHORT)?;
    show_derivatives::<7>(stdout, 2, &answers::MIRROR_DERIVATIVE_LONG)?;
    show_derivatives::<6>(stdout, 2701, &answers::MIRROR_DERIVATIVE_BEYOND)
}

// What is told of the list of both, in a list of lengths with as many places as are due.
fn show_told(
    stdout: Stdout,
    name: &[u8],
    derivative_name: &[u8],
    nmax: usize,
    due: &[u64],
) -> io::Result<()>
    requires names { (length name.now ≤ 80) × (length derivative_name.now ≤ 80) }
    requires due { (1 ≤ length due.now) × (length due.now ≤ 12) }
{
    print_lengths(
        stdout,
        name,
        |l| geopotential_legendre_mirror_lengths(nmax, l),
        due,
    )?;
    print_lengths(
        stdout,
        derivative_name,
        |l| geopotential_legendre_mirror_derivative_lengths(nmax, l),
        due,
    )
}

// With a place behind the length.
fn show_both(stdout: Stdout, nmax: usize, due: &[u64; 3]) -> io::Result<()> {
    show_told(
        stdout,
        b"legendre_mirror_lengths ",
        b"legendre_mirror_derivative_lengths ",
        nmax,
        due,
    )
}

// With no place for it.
fn show_short(stdout: Stdout, nmax: usize, due: &[u64; 1]) -> io::Result<()> {
    show_told(
        stdout,
        b"legendre_mirror_lengths, no place ",
        b"legendre_mirror_derivative_lengths, no place ",
        nmax,
        due,
    )
}

fn show_lengths(stdout: Stdout) -> io::Result<()> {
    show_both(stdout, 3, &answers::MIRROR_LENGTHS)?;
    show_both(stdout, 2700, &answers::MIRROR_LENGTHS_LARGE)?;
    show_both(stdout, 2701, &answers::MIRROR_LENGTHS_BEYOND)?;
    show_both(stdout, 4294967299, &answers::MIRROR_LENGTHS_WIDE)?;
    show_both(stdout, 9223372036854775811, &answers::MIRROR_LENGTHS_WIDEST)?;
    // with one place, just enough
    show_told(
        stdout,
        b"legendre_mirror_lengths, one place ",
        b"legendre_mirror_derivative_lengths, one place ",
        3,
        &answers::MIRROR_LENGTHS_ONE,
    )?;
    show_short(stdout, 3, &answers::MIRROR_LENGTHS_SHORT)?;
    show_short(stdout, 2701, &answers::MIRROR_LENGTHS_BEYOND_SHORT)
}

// The last two rows of a table up to degree 22.
fn show_rows(stdout: Stdout, name: &[u8], table: &[f64], due: &[u64; 45]) -> io::Result<()>
    requires { (length table.now ≡ 276) × (length name.now ≤ 80) }
{
    let from = 231;
    show(stdout, name, &table[from..], due, 0)
}

// A table of ones.
fn show_large(stdout: Stdout) -> io::Result<()> {
    let mut table = [1.0; 276];
    geopotential_legendre_mirror(22, &mut table);
    show_rows(
        stdout,
        b"legendre_mirror, degree 22 ",
        &table,
        &answers::MIRROR_ROWS,
    )?;
    table = [1.0; 276];
    geopotential_legendre_mirror_derivative(22, &mut table);
    show_rows(
        stdout,
        b"legendre_mirror_derivative, degree 22 ",
        &table,
        &answers::MIRROR_DERIVATIVE_ROWS,
    )
}

pub fn show_lists(stdout: Stdout) -> io::Result<()> {
    show_any(stdout)?;
    show_second(stdout)?;
    show_sizes(stdout)?;
    show_large(stdout)?;
    show_lengths(stdout)
}
