// The calls of linalg and polar_cap, each on the sizes and lengths of a case.
ghost use Rattle.std.specs.Prelude.{◌≤◌, length};

use linalg::Convergence;
use refusal::Refusal;
use replay_cases::{of_result, room, size};

// By either solver: n, and the lengths of the matrix, of the working list, of the values and vectors.
pub fn eigen<F>(
    solver: F,
    case: &[u64],
    list: &[f64],
    w: &mut [f64],
    x: &mut [f64],
    y: &mut [f64],
) -> u64
where
    F: FnOnce(usize, &[f64], &mut [f64], &mut [f64], &mut [f64]) -> Result<Convergence, Refusal>,
    requires solver { F.IsAlwaysCallable solver }
    requires lengths { (64 ≤ length list.now) × (64 ≤ length w.old) × (64 ≤ length x.old) × (64 ≤ length y.old) }
{
    let n = size(case, 0);
    let a = room(case, 1);
    let k = room(case, 2);
    let b = room(case, 3);
    let c = room(case, 4);
    of_result(solver(n, &list[..a], &mut w[..k], &mut x[..b], &mut y[..c]))
}

// L, and the lengths of the weights, latitudes, of the working list, of the orders, concentrations, vectors and of how the solver ended.
pub fn cap(
    case: &[u64],
    list: &[f64],
    w: &mut [f64],
    x: &mut [f64],
    y: &mut [f64],
    z: &mut [f64],
    told: &mut [f64],
) -> u64
    requires { (64 ≤ length list.now) × (64 ≤ length w.old) × (64 ≤ length x.old) × (64 ≤ length y.old) × (64 ≤ length z.old)
        × (64 ≤ length told.old) }
{
    let lmax = size(case, 0);
    let a = room(case, 1);
    let t = room(case, 2);
    let k = room(case, 3);
    let o = room(case, 4);
    let b = room(case, 5);
    let c = room(case, 6);
    let d = room(case, 7);
    of_result(polar_cap::polar_cap(
        lmax,
        0.5,
        &list[..a],
        &list[..t],
        &mut w[..k],
        &mut x[..o],
        &mut y[..b],
        &mut z[..c],
        &mut told[..d],
    ))
}
