// Replays what the entries for C refuse, case by case (cases.rt): the number, and how many places of the lists are changed.
ghost use Rattle.std.specs.Prelude.{◌≤◌, length};

use crate::cases;
use geopotential::free_regions::{geopotential_concentration_matrix, geopotential_region};
use replay_cases::{MARK, Seen, joined, print_cases, room, size, touched};
use std::io;
use std::io::Stdout;

// L, the nodes, and the lengths of the weights, latitudes, marks, s, c, of the working list and of the matrix.
fn concentration_matrix(
    case: &[u64],
    list: &[f64],
    marks: &[u8],
    w: &mut [f64],
    x: &mut [f64],
) -> u64
    requires { (64 ≤ length list.now) × (64 ≤ length marks.now) × (64 ≤ length w.old) × (64 ≤ length x.old) }
{
    let lmax = size(case, 0);
    let nodes = size(case, 1);
    let a = room(case, 2);
    let t = room(case, 3);
    let m = room(case, 4);
    let s = room(case, 5);
    let c = room(case, 6);
    let k = room(case, 7);
    let o = room(case, 8);
    let number = geopotential_concentration_matrix(
        lmax,
        nodes,
        &list[..a],
        &list[..t],
        &marks[..m],
        &list[..s],
        &list[..c],
        &mut w[..k],
        &mut x[..o],
    );
    number as u64
}

// The same, and in the place of the matrix the concentrations, c and s, and the two numbers of how the solver ended.
fn region(
    case: &[u64],
    list: &[f64],
    marks: &[u8],
    w: &mut [f64],
    x: &mut [f64],
    y: &mut [f64],
    z: &mut [f64],
    settled: &mut u32,
    count: &mut usize,
) -> u64
    requires { (64 ≤ length list.now) × (64 ≤ length marks.now) × (64 ≤ length w.old) × (64 ≤ length x.old) × (64 ≤ length y.old)
        × (64 ≤ length z.old) }
{
    let lmax = size(case, 0);
    let nodes = size(case, 1);
    let a = room(case, 2);
    let t = room(case, 3);
    let m = room(case, 4);
    let s = room(case, 5);
    let c = room(case, 6);
    let k = room(case, 7);
    let o = room(case, 8);
    let p = room(case, 9);
    let q = room(case, 10);
    let number = geopotential_region(
        lmax,
        nodes,
        &list[..a],
        &list[..t],
        &marks[..m],
        &list[..s],
        &list[..c],
        &mut w[..k],
        &mut x[..o],
        &mut y[..p],
        &mut z[..q],
        settled,
        count,
    );
    number as u64
}

// What the two numbers that are lent for the answer hold before.
const UNSETTLED: u32 = 77777;

const UNTOLD: usize = 77777;

// Two numbers that were lent, as `touched` tells a list of two.
fn told(settled: u32, count: usize) -> u64
    ensures { result ≤ 202 }
{
    if settled != UNSETTLED {
        if count != UNTOLD {
            return 202;
        }
        return 101;
    }
    if count != UNTOLD {
        return 101;
    }
    0
}

// What is seen of a case of an entry, on lists that hold the mark where they are written; the last column says how much of the working list is left free.
fn see<F>(case: &[u64], call: &F) -> Seen
where
    F: Fn(
        &[u64],
        &[f64; 64],
        &[u8; 64],
        &mut [f64; 64],
        &mut [f64; 64],
        &mut [f64; 64],
        &mut [f64; 64],
        &mut u32,
        &mut usize,
    ) -> u64,
    requires { F.IsAlwaysCallable call.now }
{
    let list = [0.5; 64];
    let marks = [1u8; 64];
    let mut w = [MARK; 64];
    let mut x = [MARK; 64];
    let mut y = [MARK; 64];
    let mut z = [MARK; 64];
    let mut settled = UNSETTLED;
    let mut count = UNTOLD;
    let number = call(
        case,
        &list,
        &marks,
        &mut w,
        &mut x,
        &mut y,
        &mut z,
        &mut settled,
        &mut count,
    );
    let others = touched(&w, size(case, 11)) + told(settled, count);
    Seen {
        number,
        touched: joined(touched(&x, 0), touched(&y, 0), touched(&z, 0), others),
    }
}

pub fn show_refusals(stdout: Stdout) -> io::Result<()> {
    print_cases(
        stdout,
        b"concentration_matrix, refusals ",
        12,
        |case| see(
            case,
            &|case, list, marks, w, x, _, _, _, _| {
                concentration_matrix(case, list, marks, w, x)
            },
        ),
        &cases::CONCENTRATION_MATRIX,
        &cases::CONCENTRATION_MATRIX_DUE,
    )?;
    print_cases(
        stdout,
        b"region, refusals ",
        12,
        |case| see(
            case,
            &|case, list, marks, w, x, y, z, settled, count| {
                region(case, list, marks, w, x, y, z, settled, count)
            },
        ),
        &cases::REGION,
        &cases::REGION_DUE,
    )
}
