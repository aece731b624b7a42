// Replays what the entries for C tell of the lengths of the lists of outlines and kernels (cases.rt): the refusal's number and all that the list holds
// afterwards, which has a place behind the lengths, or one too few.
use crate::cases;
use geopotential::lists::{
    geopotential_basin_kernel_lengths, geopotential_polygon_breaks_lengths,
    geopotential_polygon_intervals_lengths,
};
use replay_cases::print_lengths;
use std::io;
use std::io::Stdout;

fn show_intervals(stdout: Stdout) -> io::Result<()> {
    print_lengths(
        stdout,
        b"polygon_intervals_lengths ",
        |l| geopotential_polygon_intervals_lengths(7, l),
        &cases::POLYGON_INTERVALS_LENGTHS,
    )?;
    print_lengths(
        stdout,
        b"polygon_intervals_lengths, even ",
        |l| geopotential_polygon_intervals_lengths(8, l),
        &cases::POLYGON_INTERVALS_LENGTHS_EVEN,
    )?;
    print_lengths(
        stdout,
        b"polygon_intervals_lengths, 4096 ",
        |l| geopotential_polygon_intervals_lengths(4096, l),
        &cases::POLYGON_INTERVALS_LENGTHS_LARGE,
    )?;
    print_lengths(
        stdout,
        b"polygon_intervals_lengths, 4097 ",
        |l| geopotential_polygon_intervals_lengths(4097, l),
        &cases::POLYGON_INTERVALS_LENGTHS_BEYOND,
    )?;
    print_lengths(
        stdout,
        b"polygon_intervals_lengths, 2^64 - 1 ",
        |l| geopotential_polygon_intervals_lengths(18446744073709551615, l),
        &cases::POLYGON_INTERVALS_LENGTHS_FAR,
    )?;
    print_lengths(
        stdout,
        b"polygon_intervals_lengths, SPACE ",
        |l| geopotential_polygon_intervals_lengths(7, l),
        &cases::POLYGON_INTERVALS_LENGTHS_SHORT,
    )
}

fn show_breaks(stdout: Stdout) -> io::Result<()> {
    print_lengths(
        stdout,
        b"polygon_breaks_lengths ",
        |l| geopotential_polygon_breaks_lengths(7, l),
        &cases::POLYGON_BREAKS_LENGTHS,
    )?;
    print_lengths(
        stdout,
        b"polygon_breaks_lengths, even ",
        |l| geopotential_polygon_breaks_lengths(8, l),
        &cases::POLYGON_BREAKS_LENGTHS_EVEN,
    )?;
    print_lengths(
        stdout,
        b"polygon_breaks_lengths, 4096 ",
        |l| geopotential_polygon_breaks_lengths(4096, l),
        &cases::POLYGON_BREAKS_LENGTHS_LARGE,
    )?;
    print_lengths(
        stdout,
        b"polygon_breaks_lengths, 4097 ",
        |l| geopotential_polygon_breaks_lengths(4097, l),
        &cases::POLYGON_BREAKS_LENGTHS_BEYOND,
    )?;
    print_lengths(
        stdout,
        b"polygon_breaks_lengths, 2^64 - 1 ",
        |l| geopotential_polygon_breaks_lengths(18446744073709551615, l),
        &cases::POLYGON_BREAKS_LENGTHS_FAR,
    )?;
    print_lengths(
        stdout,
        b"polygon_breaks_lengths, SPACE ",
        |l| geopotential_polygon_breaks_lengths(7, l),
        &cases::POLYGON_BREAKS_LENGTHS_SHORT,
    )
}

fn show_kernel(stdout: Stdout) -> io::Result<()> {
    print_lengths(
        stdout,
        b"basin_kernel_lengths ",
        |l| geopotential_basin_kernel_lengths(2, 5, l),
        &cases::BASIN_KERNEL_LENGTHS,
    )?;
    print_lengths(
        stdout,
        b"basin_kernel_lengths, 2700 and 65535 ",
        |l| geopotential_basin_kernel_lengths(2700, 65535, l),
        &cases::BASIN_KERNEL_LENGTHS_LARGE,
    )?;
    print_lengths(
        stdout,
        b"basin_kernel_lengths, 2701 ",
        |l| geopotential_basin_kernel_lengths(2701, 5, l),
        &cases::BASIN_KERNEL_LENGTHS_DEGREE,
    )?;
    print_lengths(
        stdout,
        b"basin_kernel_lengths, 65536 nodes ",
        |l| geopotential_basin_kernel_lengths(2, 65536, l),
        &cases::BASIN_KERNEL_LENGTHS_NODES,
    )?;
    print_lengths(
        stdout,
        b"basin_kernel_lengths, SPACE ",
        |l| geopotential_basin_kernel_lengths(2, 5, l),
        &cases::BASIN_KERNEL_LENGTHS_SHORT,
    )
}

pub fn show_told(stdout: Stdout) -> io::Result<()> {
    show_intervals(stdout)?;
    show_breaks(stdout)?;
    show_kernel(stdout)
}
