// Replays what the entries for C tell of the lengths of a model file's lists (answers.rt): the refusal's number and all that the list holds afterwards,
// which has a place behind the lengths.
use crate::answers;
use geopotential::lists::{geopotential_model_read_lengths, geopotential_model_write_lengths};
use replay_cases::print_lengths;
use std::io;
use std::io::Stdout;

// Of heads that are cut, of heads alone, of whole files.
fn show_read_lengths(stdout: Stdout) -> io::Result<()> {
    print_lengths(
        stdout,
        b"model_read_lengths, 19 bytes ",
        |l| geopotential_model_read_lengths(&answers::CUT, l),
        &answers::LENGTHS_CUT,
    )?;
    print_lengths(
        stdout,
        b"model_read_lengths, 20 bytes ",
        |l| geopotential_model_read_lengths(&answers::HEAD, l),
        &answers::LENGTHS_HEAD,
    )?;
    print_lengths(
        stdout,
        b"model_read_lengths ",
        |l| geopotential_model_read_lengths(&answers::FILE, l),
        &answers::LENGTHS_FILE,
    )
}

// The same with a date.
fn show_dated_lengths(stdout: Stdout) -> io::Result<()> {
    print_lengths(
        stdout,
        b"model_read_lengths, dated, 23 bytes ",
        |l| geopotential_model_read_lengths(&answers::DATED_CUT, l),
        &answers::LENGTHS_DATED_CUT,
    )?;
    print_lengths(
        stdout,
        b"model_read_lengths, dated, 24 bytes ",
        |l| geopotential_model_read_lengths(&answers::DATED_HEAD, l),
        &answers::LENGTHS_DATED_HEAD,
    )?;
    print_lengths(
        stdout,
        b"model_read_lengths, dated ",
        |l| geopotential_model_read_lengths(&answers::DATED, l),
        &answers::LENGTHS_DATED,
    )
}

fn show_write_lengths(stdout: Stdout) -> io::Result<()> {
    print_lengths(
        stdout,
        b"model_write_lengths ",
        |l| geopotential_model_write_lengths(1, 0, l),
        &answers::WRITE_LENGTHS,
    )?;
    print_lengths(
        stdout,
        b"model_write_lengths, dated ",
        |l| geopotential_model_write_lengths(1, 1, l),
        &answers::WRITE_LENGTHS_DATED,
    )?;
    print_lengths(
        stdout,
        b"model_write_lengths, dated ",
        |l| geopotential_model_write_lengths(1, 4294967295, l),
        &answers::WRITE_LENGTHS_DATED,
    )?;
    print_lengths(
        stdout,
        b"model_write_lengths, 2700 ",
        |l| geopotential_model_write_lengths(2700, 1, l),
        &answers::WRITE_LENGTHS_LARGE,
    )?;
    print_lengths(
        stdout,
        b"model_write_lengths, 2701 ",
        |l| geopotential_model_write_lengths(2701, 1, l),
        &answers::WRITE_LENGTHS_BEYOND,
    )
}

pub fn show_told(stdout: Stdout) -> io::Result<()> {
    show_read_lengths(stdout)?;
    show_dated_lengths(stdout)?;
    show_write_lengths(stdout)
}
