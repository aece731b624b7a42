// How the programs that replay answers print: each function hands a promised line of `replay` to standard output, and nothing else. Apart from `replay`,
// since what is written is the io library's to promise. A write that fails is answered as it is, and ends the program that called.
#![tactic(auto)]

ghost use Rattle.std.specs.Prelude.{◌+◌, ◌≤◌, length};

use std::io;
use std::io::{Stdout, Write};

// Prints the bytes as they are.
pub fn print(mut stdout: Stdout, bytes: &[u8]) -> io::Result<()> {
    stdout.write_all(bytes)
}

// Prints the line of numbers.
pub fn show(
    stdout: Stdout,
    name: &[u8],
    answers: &[f64],
    words: &[u64],
    at: usize,
) -> io::Result<()>
    requires { (at + length answers.now ≤ length words.now) × (length name.now ≤ 80) }
{
    let mut out = [0u8; 125];
    let end = replay::line(name, answers, words, at, &mut out);
    print(stdout, &out[..end])
}

// Prints the line of words.
pub fn show_words(
    stdout: Stdout,
    name: &[u8],
    answers: &[u64],
    words: &[u64],
    at: usize,
) -> io::Result<()>
    requires { (at + length answers.now ≤ length words.now) × (length name.now ≤ 80) }
{
    let mut out = [0u8; 125];
    let end = replay::words_line(name, answers, words, at, &mut out);
    print(stdout, &out[..end])
}

// Prints the line of bytes.
pub fn show_bytes(
    stdout: Stdout,
    name: &[u8],
    answers: &[u8],
    bytes: &[u8],
    at: usize,
) -> io::Result<()>
    requires { (at + length answers.now ≤ length bytes.now) × (length name.now ≤ 80) }
{
    let mut out = [0u8; 125];
    let end = replay::bytes_line(name, answers, bytes, at, &mut out);
    print(stdout, &out[..end])
}

// Prints three lines, one by each function above, of two answers whose second is not the one due. Nothing is promised of what is printed, so that a
// function that holds a list against itself, or against another part of the list, is proved too; here it says something else than "1 of 2".
pub fn control(stdout: Stdout) -> io::Result<()> {
    show(
        stdout,
        b"control of numbers ",
        &[1.0, 2.0],
        &[0, 0x3ff0_0000_0000_0000, 0x4008_0000_0000_0000],
        1,
    )?;
    show_words(stdout, b"control of words ", &[1, 2], &[0, 1, 3], 1)?;
    show_bytes(stdout, b"control of bytes ", &[1, 2], &[0, 1, 3], 1)
}

// Prints the line of the front of a list, as many numbers as there are due. Its control line is the one of numbers in `replay_cases::control`.
pub fn show_front(stdout: Stdout, name: &[u8], list: &[f64], due: &[u64]) -> io::Result<()>
    requires due { length due.now ≤ length list.now }
    requires name { length name.now ≤ 80 }
{
    show(stdout, name, &list[..due.len()], due, 0)
}
