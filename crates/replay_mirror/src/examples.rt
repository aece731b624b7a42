// Tables at t that are mirrored. A row of the answers has t, u, the recursion coefficients a and b, P and its derivatives at t, the same mirrored, and
// those at -t with every zero +0: a mirrored number plus 0 has their bits, since zeros of either sign count as equal.
ghost use Rattle.std.specs.Prelude.{◌+◌, ◌*◌, ◌≤◌, length};

use crate::answers;
use geopotential::tables::{
    geopotential_legendre_compute_with_derivative, geopotential_legendre_mirror,
    geopotential_legendre_mirror_derivative,
};
use replay_print::{show, show_words};
use std::io;
use std::io::Stdout;

// Every zero is +0 afterwards.
pub(crate) fn unsign_zeros(list: &mut [f64]) {
    for x in list.iter_mut() {
        *x = *x + 0.0;
    }
}

// P by `mirror`, or the derivatives by the other entry: a table before and after it, beside the table at -t; they are due from index `at` on, with so many
// numbers between them as two tables have.
fn show_table<const N: usize, F: FnOnce(usize, &mut [f64]) -> u32>(
    stdout: Stdout,
    entry: F,
    before: &[u8],
    refusal: &[u8],
    mirrored: &[u8],
    turned: &[u8],
    nmax: usize,
    words: &[u64],
    at: usize,
    p: &mut [f64; N],
) -> io::Result<()>
    requires entry { F.IsAlwaysCallable entry }
    requires names { (length before.now ≤ 80) × (length refusal.now ≤ 80) × (length mirrored.now ≤ 80) × (length turned.now ≤ 80) }
    requires due { at + 5 * N ≤ length words.now }
{
    show(stdout, before, p, words, at)?;
    let number = entry(nmax, p);
    show_words(stdout, refusal, &[number as u64], &[0], 0)?;
    show(stdout, mirrored, p, words, at + 2 * N)?;
    unsign_zeros(p);
    show(stdout, turned, p, words, at + 4 * N)
}

// One row of the answers, whose table has N numbers.
fn show_row<const N: usize>(stdout: Stdout, nmax: usize, words: &[u64]) -> io::Result<()>
    requires { 2 + 8 * N ≤ length words.now }
{
    let mut a = [0.0; N];
    let mut b = [0.0; N];
    let mut p = [0.0; N];
    let mut dp = [0.0; N];
    replay::load(words, 2, &mut a);
    replay::load(words, 2 + N, &mut b);
    let t = number::number_of_bits(words[0]);
    let u = number::number_of_bits(words[1]);
    geopotential_legendre_compute_with_derivative(nmax, t, u, &a, &b, &mut p, &mut dp);
    show_table(
        stdout,
        geopotential_legendre_mirror,
        b"P ",
        b"legendre_mirror, refusal ",
        b"P mirrored ",
        b"P at -t ",
        nmax,
        words,
        2 + 2 * N,
        &mut p,
    )?;
    show_table(
        stdout,
        geopotential_legendre_mirror_derivative,
        b"dP ",
        b"legendre_mirror_derivative, refusal ",
        b"dP mirrored ",
        b"dP at -t ",
        nmax,
        words,
        2 + 3 * N,
        &mut dp,
    )
}

// Degrees 0, 1, 2, 3 and 5; a zero that `mirror` gives the other sign; a pole, the equator, a pair that is no latitude's, a sine that is NaN or infinite;
// lent tables with an infinite and a NaN coefficient.
pub fn show_examples(stdout: Stdout) -> io::Result<()> {
    show_row::<1>(stdout, 0, &answers::ZERO)?;
    show_row::<3>(stdout, 1, &answers::ONE)?;
    show_row::<3>(stdout, 1, &answers::ONE_ZEROS)?;
    show_row::<6>(stdout, 2, &answers::TWO)?;
    show_row::<6>(stdout, 2, &answers::TWO_POLE)?;
    show_row::<10>(stdout, 3, &answers::THREE)?;
    show_row::<10>(stdout, 3, &answers::THREE_EQUATOR)?;
    show_row::<10>(stdout, 3, &answers::THREE_OUTSIDE)?;
    show_row::<10>(stdout, 3, &answers::THREE_NAN)?;
    show_row::<21>(stdout, 5, &answers::FIVE)?;
    show_row::<21>(stdout, 5, &answers::FIVE_INFINITE)?;
    show_row::<21>(stdout, 5, &answers::FIVE_LENT)
}
