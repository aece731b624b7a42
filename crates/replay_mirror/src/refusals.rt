// Degrees and lengths of a list of marks: for each case the number of the refusal and what has changed in the list.
use crate::answers;
use geopotential::tables::{geopotential_legendre_mirror, geopotential_legendre_mirror_derivative};
use replay_cases::{MARK, Seen, print_cases, room, size, touched};
use std::io;
use std::io::Stdout;

// What is seen of a case of either entry: N, and the length of the table.
fn see<F: FnOnce(usize, &mut [f64]) -> u32>(case: &[u64], entry: F) -> Seen
    requires { F.IsAlwaysCallable entry }
{
    let mut x = [MARK; 64];
    let nmax = size(case, 0);
    let k = room(case, 1);
    let number = entry(nmax, &mut x[..k]);
    Seen {
        number: number as u64,
        touched: touched(&x, 0),
    }
}

pub fn show_refusals(stdout: Stdout) -> io::Result<()> {
    print_cases(
        stdout,
        b"legendre_mirror, cases ",
        2,
        |case| see(case, geopotential_legendre_mirror),
        &answers::LEGENDRE_MIRROR,
        &answers::LEGENDRE_MIRROR_DUE,
    )?;
    print_cases(
        stdout,
        b"legendre_mirror_derivative, cases ",
        2,
        |case| see(case, geopotential_legendre_mirror_derivative),
        &answers::LEGENDRE_MIRROR,
        &answers::LEGENDRE_MIRROR_DERIVATIVE_DUE,
    )
}
