// Replays what the entries for C tell of the lengths of a region's lists (cases.rt): the refusal's number and all that the list holds afterwards, which has
// a place behind the lengths, or one too few.
use crate::cases;
use geopotential::lists::{geopotential_concentration_matrix_lengths, geopotential_region_lengths};
use replay_cases::print_lengths;
use std::io;
use std::io::Stdout;

fn show_matrix(stdout: Stdout) -> io::Result<()> {
    print_lengths(
        stdout,
        b"concentration_matrix_lengths ",
        |l| geopotential_concentration_matrix_lengths(2, 5, l),
        &cases::CONCENTRATION_MATRIX_LENGTHS,
    )?;
    print_lengths(
        stdout,
        b"concentration_matrix_lengths, 21 and 65535 ",
        |l| geopotential_concentration_matrix_lengths(21, 65535, l),
        &cases::CONCENTRATION_MATRIX_LENGTHS_LARGE,
    )?;
    print_lengths(
        stdout,
        b"concentration_matrix_lengths, 22 ",
        |l| geopotential_concentration_matrix_lengths(22, 5, l),
        &cases::CONCENTRATION_MATRIX_LENGTHS_DEGREE,
    )?;
    print_lengths(
        stdout,
        b"concentration_matrix_lengths, 65536 nodes ",
        |l| geopotential_concentration_matrix_lengths(2, 65536, l),
        &cases::CONCENTRATION_MATRIX_LENGTHS_NODES,
    )?;
    print_lengths(
        stdout,
        b"concentration_matrix_lengths, SPACE ",
        |l| geopotential_concentration_matrix_lengths(2, 5, l),
        &cases::CONCENTRATION_MATRIX_LENGTHS_SHORT,
    )
}

fn show_region(stdout: Stdout) -> io::Result<()> {
    print_lengths(
        stdout,
        b"region_lengths ",
        |l| geopotential_region_lengths(2, 5, l),
        &cases::REGION_LENGTHS,
    )?;
    print_lengths(
        stdout,
        b"region_lengths, 21 and 65535 ",
        |l| geopotential_region_lengths(21, 65535, l),
        &cases::REGION_LENGTHS_LARGE,
    )?;
    print_lengths(
        stdout,
        b"region_lengths, 22 ",
        |l| geopotential_region_lengths(22, 5, l),
        &cases::REGION_LENGTHS_DEGREE,
    )?;
    print_lengths(
        stdout,
        b"region_lengths, 65536 nodes ",
        |l| geopotential_region_lengths(2, 65536, l),
        &cases::REGION_LENGTHS_NODES,
    )?;
    print_lengths(
        stdout,
        b"region_lengths, SPACE ",
        |l| geopotential_region_lengths(2, 5, l),
        &cases::REGION_LENGTHS_SHORT,
    )
}

pub fn show_told(stdout: Stdout) -> io::Result<()> {
    show_matrix(stdout)?;
    show_region(stdout)
}
