// Replays what the entries for C refuse, case by case (cases.rt): the number, and how many places of the lists are changed.
ghost use Rattle.std.specs.Prelude.{◌≤◌, length};

use crate::cases;
use geopotential::basins::{
    geopotential_basin_kernel, geopotential_polygon_breaks, geopotential_polygon_intervals,
};
use replay::numbers;
use replay_cases::{MARK, Seen, joined, print_cases, room, size, touched};
use std::io;
use std::io::Stdout;

// L, the nodes, and the lengths of the weights, latitudes, marks, s, c, of the working list and of the two tables.
fn kernel(
    case: &[u64],
    list: &[f64],
    marks: &[u8],
    w: &mut [f64],
    x: &mut [f64],
    y: &mut [f64],
) -> u64
    requires { (64 ≤ length list.now) × (64 ≤ length marks.now) × (64 ≤ length w.old) × (64 ≤ length x.old) × (64 ≤ length y.old) }
{
    let lmax = size(case, 0);
    let nodes = size(case, 1);
    let a = room(case, 2);
    let t = room(case, 3);
    let m = room(case, 4);
    let s = room(case, 5);
    let c = room(case, 6);
    let k = room(case, 7);
    let o = room(case, 8);
    let p = room(case, 9);
    let number = geopotential_basin_kernel(
        lmax,
        nodes,
        &list[..a],
        &list[..t],
        &marks[..m],
        &list[..s],
        &list[..c],
        &mut w[..k],
        &mut x[..o],
        &mut y[..p],
    );
    number as u64
}

// What the number that is lent for the count holds before.
const UNTOLD: usize = 77777;

// That number afterwards, as `touched` tells a list of one.
fn told(count: usize) -> u64
    ensures { result ≤ 101 }
{
    if count != UNTOLD { 101 } else { 0 }
}

// What is seen of a case of an outline's entry, on lists that hold the mark where they are written: the vertices, and the lengths of the outline, of the
// working list and of the output; the places of the working list from `free` on are left free.
fn see_outline<F>(case: &[u64], free: usize, entry: F) -> Seen
where
    F: FnOnce(usize, &[f64], &mut [f64], &mut [f64], &mut usize) -> u32,
    requires { F.IsAlwaysCallable entry }
{
    let mut w = [MARK; 64];
    let mut x = [MARK; 64];
    let mut count = UNTOLD;
    let list = numbers(&cases::OUTLINE);
    let vertices = size(case, 0);
    let l = room(case, 1);
    let k = room(case, 2);
    let o = room(case, 3);
    let number = entry(vertices, &list[..l], &mut w[..k], &mut x[..o], &mut count);
    Seen {
        number: number as u64,
        touched: joined(touched(&x, 0), told(count), 0, touched(&w, free)),
    }
}

// The last column says how much of the working list is left free.
fn see_intervals(case: &[u64]) -> Seen {
    let theta = numbers(&cases::COLATITUDE);
    see_outline(
        case,
        size(case, 11),
        |vertices, outline, work, out, count| {
            geopotential_polygon_intervals(vertices, outline, theta[0], work, out, count)
        },
    )
}

fn see_breaks(case: &[u64]) -> Seen {
    see_outline(case, 0, geopotential_polygon_breaks)
}

fn see_kernel(case: &[u64]) -> Seen {
    let list = [0.5; 64];
    let marks = [1u8; 64];
    let mut w = [MARK; 64];
    let mut x = [MARK; 64];
    let mut y = [MARK; 64];
    let number = kernel(case, &list, &marks, &mut w, &mut x, &mut y);
    Seen {
        number,
        touched: joined(
            touched(&x, 0),
            touched(&y, 0),
            0,
            touched(&w, size(case, 11)),
        ),
    }
}

pub fn show_refusals(stdout: Stdout) -> io::Result<()> {
    print_cases(
        stdout,
        b"polygon_intervals, refusals ",
        12,
        see_intervals,
        &cases::POLYGON_INTERVALS,
        &cases::POLYGON_INTERVALS_DUE,
    )?;
    print_cases(
        stdout,
        b"polygon_breaks, refusals ",
        12,
        see_breaks,
        &cases::POLYGON_BREAKS,
        &cases::POLYGON_BREAKS_DUE,
    )?;
    print_cases(
        stdout,
        b"basin_kernel, refusals ",
        12,
        see_kernel,
        &cases::BASIN_KERNEL,
        &cases::BASIN_KERNEL_DUE,
    )
}
