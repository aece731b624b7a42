// Replays kernels (kernel_answers.rt), by their entry for C: the refusal's number, 0, and the two tables with a place behind each.
ghost use Rattle.std.specs.Prelude.{◌≤◌, length};

use crate::kernel_answers as answers;
use coefficients::Head;
use geopotential::basins::geopotential_basin_kernel;
use number::bits_of_number;
use replay::numbers;
use replay_cases::MARK;
use replay_print::{show_front, show_words};
use std::io;
use std::io::Stdout;

// The kernel of a basin by the bit patterns of its lists, of degree 22 at most; the lists for it have `room` places, the working list the same three
// times but for the places behind.
fn show_kernel<const NODES: usize, const PAIRS: usize, const INTEGRALS: usize>(
    stdout: Stdout,
    lmax: usize,
    room: usize,
    weights: &[u64; NODES],
    latitudes: &[u64; PAIRS],
    marks: &[u8; NODES],
    s: &[u64; INTEGRALS],
    c: &[u64; INTEGRALS],
    cosines: &[u64],
    sines: &[u64],
) -> io::Result<()>
    requires { (1 ≤ room) × (room ≤ 277) × (length cosines.now ≤ room) × (length sines.now ≤ room) }
{
    let mut work = [MARK; 828];
    let mut kc = [MARK; 277];
    let mut ks = [MARK; 277];
    let number = geopotential_basin_kernel(
        lmax,
        weights.len(),
        &numbers(weights),
        &numbers(latitudes),
        marks,
        &numbers(s),
        &numbers(c),
        &mut work[..3 * room - 3],
        &mut kc[..room],
        &mut ks[..room],
    );
    show_words(stdout, b"basin_kernel, refusal ", &[number as u64], &[0], 0)?;
    show_front(stdout, b"basin_kernel, kc ", &kc[..room], cosines)?;
    show_front(stdout, b"basin_kernel, ks ", &ks[..room], sines)
}

// Degree 0, of three nodes, one of them skipped.
fn show_of_0(stdout: Stdout) -> io::Result<()> {
    show_kernel(
        stdout,
        0,
        92,
        &answers::OF_0_WEIGHTS,
        &answers::OF_0_LATITUDES,
        &answers::OF_0_MARKS,
        &answers::OF_0_S,
        &answers::OF_0_C,
        &answers::OF_0_KC,
        &answers::OF_0_KS,
    )
}

// Degree 1.
fn show_of_1(stdout: Stdout) -> io::Result<()> {
    show_kernel(
        stdout,
        1,
        92,
        &answers::OF_1_WEIGHTS,
        &answers::OF_1_LATITUDES,
        &answers::OF_1_MARKS,
        &answers::OF_1_S,
        &answers::OF_1_C,
        &answers::OF_1_KC,
        &answers::OF_1_KS,
    )
}

// Degree 2.
fn show_of_2(stdout: Stdout) -> io::Result<()> {
    show_kernel(
        stdout,
        2,
        92,
        &answers::OF_2_WEIGHTS,
        &answers::OF_2_LATITUDES,
        &answers::OF_2_MARKS,
        &answers::OF_2_S,
        &answers::OF_2_C,
        &answers::OF_2_KC,
        &answers::OF_2_KS,
    )
}

// Degree 3.
fn show_of_3(stdout: Stdout) -> io::Result<()> {
    show_kernel(
        stdout,
        3,
        92,
        &answers::OF_3_WEIGHTS,
        &answers::OF_3_LATITUDES,
        &answers::OF_3_MARKS,
        &answers::OF_3_S,
        &answers::OF_3_C,
        &answers::OF_3_KC,
        &answers::OF_3_KS,
    )
}

// Degree 7.
fn show_of_7(stdout: Stdout) -> io::Result<()> {
    show_kernel(
        stdout,
        7,
        92,
        &answers::OF_7_WEIGHTS,
        &answers::OF_7_LATITUDES,
        &answers::OF_7_MARKS,
        &answers::OF_7_S,
        &answers::OF_7_C,
        &answers::OF_7_KC,
        &answers::OF_7_KS,
    )
}

// Degree 12.
fn show_of_12(stdout: Stdout) -> io::Result<()> {
    show_kernel(
        stdout,
        12,
        92,
        &answers::OF_12_WEIGHTS,
        &answers::OF_12_LATITUDES,
        &answers::OF_12_MARKS,
        &answers::OF_12_S,
        &answers::OF_12_C,
        &answers::OF_12_KC,
        &answers::OF_12_KS,
    )
}

// Sums that overflow before they are halved, products that vanish.
fn show_strange(stdout: Stdout) -> io::Result<()> {
    show_kernel(
        stdout,
        1,
        92,
        &answers::STRANGE_WEIGHTS,
        &answers::STRANGE_LATITUDES,
        &answers::STRANGE_MARKS,
        &answers::STRANGE_S,
        &answers::STRANGE_C,
        &answers::STRANGE_KC,
        &answers::STRANGE_KS,
    )
}

// Products that overflow unless the sum is halved before them.
fn show_large(stdout: Stdout) -> io::Result<()> {
    show_kernel(
        stdout,
        1,
        92,
        &answers::LARGE_WEIGHTS,
        &answers::LARGE_LATITUDES,
        &answers::LARGE_MARKS,
        &answers::LARGE_S,
        &answers::LARGE_C,
        &answers::LARGE_KC,
        &answers::LARGE_KS,
    )
}

// Numbers that are none, and an integral c at 0 that is not read.
fn show_none(stdout: Stdout) -> io::Result<()> {
    show_kernel(
        stdout,
        2,
        92,
        &answers::NONE_WEIGHTS,
        &answers::NONE_LATITUDES,
        &answers::NONE_MARKS,
        &answers::NONE_S,
        &answers::NONE_C,
        &answers::NONE_KC,
        &answers::NONE_KS,
    )
}

// Zeros of either sign.
fn show_zeros(stdout: Stdout) -> io::Result<()> {
    show_kernel(
        stdout,
        2,
        92,
        &answers::ZEROS_WEIGHTS,
        &answers::ZEROS_LATITUDES,
        &answers::ZEROS_MARKS,
        &answers::ZEROS_S,
        &answers::ZEROS_C,
        &answers::ZEROS_KC,
        &answers::ZEROS_KS,
    )
}

// Nodes that are all skipped, and no nodes: the same tables of zeros.
fn show_skipped(stdout: Stdout) -> io::Result<()> {
    show_kernel(
        stdout,
        2,
        92,
        &answers::SKIPPED_WEIGHTS,
        &answers::SKIPPED_LATITUDES,
        &answers::SKIPPED_MARKS,
        &answers::SKIPPED_S,
        &answers::SKIPPED_C,
        &answers::SKIPPED_KC,
        &answers::SKIPPED_KS,
    )
}

fn show_no_nodes(stdout: Stdout) -> io::Result<()> {
    show_kernel(
        stdout,
        2,
        92,
        &[],
        &[],
        &[],
        &[],
        &[],
        &answers::SKIPPED_KC,
        &answers::SKIPPED_KS,
    )
}

// Degree 22, above those of a concentration matrix.
fn show_of_22(stdout: Stdout) -> io::Result<()> {
    show_kernel(
        stdout,
        22,
        277,
        &answers::OF_22_WEIGHTS,
        &answers::OF_22_LATITUDES,
        &answers::OF_22_MARKS,
        &answers::OF_22_S,
        &answers::OF_22_C,
        &answers::OF_22_KC,
        &answers::OF_22_KS,
    )
}

// The numbers of a head.
fn show_head(stdout: Stdout, head: Head, due: &[u64; 5]) -> io::Result<()> {
    let tide = head.tide_system;
    let date = head.date;
    let words = [
        bits_of_number(head.gm),
        bits_of_number(head.radius),
        u64::from(u32::from(tide)),
        u64::from(date.is_some()),
        head.nmax as u64,
    ];
    show_words(stdout, b"basin_kernel, head ", &words, due, 0)
}

// The head that the call answers, which its entry for C does not hand on: gm and radius 1, the tide system unknown, no date, degree 1.
fn show_made(stdout: Stdout) -> io::Result<()> {
    let none: [f64; 0] = [];
    let marks: [u8; 0] = [];
    let mut work = [MARK; 9];
    let mut kc = [MARK; 3];
    let mut ks = [MARK; 3];
    match basin_kernel::basin_kernel(
        1, 0, &none, &none, &marks, &none, &none, &mut work, &mut kc, &mut ks,
    ) {
        Ok(head) => {
            show_head(
                stdout,
                head,
                &[0x3ff0000000000000, 0x3ff0000000000000, 3, 0, 1],
            )?;
        }
        Err(_) => {
            replay_print::print(stdout, b"basin_kernel refused\n")?;
        }
    }
    Ok(())
}

pub fn show_kernels(stdout: Stdout) -> io::Result<()> {
    show_made(stdout)?;
    show_of_0(stdout)?;
    show_of_1(stdout)?;
    show_of_2(stdout)?;
    show_of_3(stdout)?;
    show_of_7(stdout)?;
    show_of_12(stdout)?;
    show_strange(stdout)?;
    show_large(stdout)?;
    show_none(stdout)?;
    show_zeros(stdout)?;
    show_skipped(stdout)?;
    show_no_nodes(stdout)?;
    show_of_22(stdout)
}
