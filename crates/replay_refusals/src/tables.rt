// The calls of legendre and quadrature, each on the sizes and lengths of a case.
ghost use Rattle.std.specs.Prelude.{◌≤◌, length};

use legendre::Latitude;
use replay_cases::{of_result, room, size};

// N, and the lengths of the two tables.
pub fn new(case: &[u64], x: &mut [f64], y: &mut [f64]) -> u64
    requires { (64 ≤ length x.old) × (64 ≤ length y.old) }
{
    let nmax = size(case, 0);
    let a = room(case, 1);
    let b = room(case, 2);
    of_result(legendre::new(nmax, &mut x[..a], &mut y[..b]))
}

// The degree up to which the rows stand, N, and the lengths of the two tables.
pub fn grow(case: &[u64], x: &mut [f64], y: &mut [f64]) -> u64
    requires { (64 ≤ length x.old) × (64 ≤ length y.old) }
{
    let from = size(case, 0);
    let nmax = size(case, 1);
    let a = room(case, 2);
    let b = room(case, 3);
    of_result(legendre::grow(from, nmax, &mut x[..a], &mut y[..b]))
}

// N, and the lengths of the two tables and of P.
pub fn compute(case: &[u64], list: &[f64], x: &mut [f64]) -> u64
    requires { (64 ≤ length list.now) × (64 ≤ length x.old) }
{
    let nmax = size(case, 0);
    let a = room(case, 1);
    let b = room(case, 2);
    let c = room(case, 3);
    let latitude = Latitude { t: 0.6, u: 0.8 };
    of_result(legendre::compute(nmax, latitude, &list[..a], &list[..b], &mut x[..c]))
}

// N, and the lengths of the two tables, of P and of its derivatives.
pub fn compute_with_derivative(case: &[u64], list: &[f64], x: &mut [f64], y: &mut [f64]) -> u64
    requires { (64 ≤ length list.now) × (64 ≤ length x.old) × (64 ≤ length y.old) }
{
    let nmax = size(case, 0);
    let a = room(case, 1);
    let b = room(case, 2);
    let c = room(case, 3);
    let d = room(case, 4);
    let latitude = Latitude { t: 0.6, u: 0.8 };
    of_result(legendre::compute_with_derivative(
        nmax,
        latitude,
        &list[..a],
        &list[..b],
        &mut x[..c],
        &mut y[..d],
    ))
}

// n, and the lengths of the guesses, of the nodes and of the weights.
pub fn gauss_legendre(case: &[u64], list: &[f64], x: &mut [f64], y: &mut [f64]) -> u64
    requires { (64 ≤ length list.now) × (64 ≤ length x.old) × (64 ≤ length y.old) }
{
    let n = size(case, 0);
    let k = room(case, 1);
    let a = room(case, 2);
    let b = room(case, 3);
    of_result(quadrature::gauss_legendre(n, &list[..k], &mut x[..a], &mut y[..b]))
}
