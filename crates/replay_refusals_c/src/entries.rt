// The C entries, each on the sizes and lengths of a case: parts of `list` are its inputs, parts of x and y its outputs, and of w its working list.
ghost use Rattle.std.specs.Prelude.{◌≤◌, length};

use geopotential::analyses::geopotential_analysis;
use geopotential::fields::{geopotential_basin_average, geopotential_grid};
use geopotential::functionals::geopotential_factor;
use geopotential::models::geopotential_degree_amplitudes;
use geopotential::points::{geopotential_acceleration_neu, geopotential_gravity_neu};
use geopotential::tables::geopotential_legendre_grow;
use geopotential::tensors::{geopotential_second_partials_along, geopotential_tensor_neu};
use replay_cases::{MARK, column, room, size};

// The number of a functional or of a tide, which may be any.
pub fn enum_number(case: &[u64], at: usize) -> u32 {
    (column(case, at) % 4294967296) as u32
}

// n, the functional, and how many Love numbers. The value goes to the front of x.
pub fn factor(case: &[u64], list: &[f64], x: &mut [f64]) -> u64
    requires { (64 ≤ length list.now) × (64 ≤ length x.old) }
{
    let n = size(case, 0);
    let f = enum_number(case, 1);
    let l = room(case, 2);
    let mut value = MARK;
    let number = geopotential_factor(f, &list[..l], n, 3.5, 7.25, 8.0, &mut value);
    x[0] = value;
    number as u64
}

// N, the functional, and the lengths of c, s, of the Love numbers and of the output.
pub fn degree_amplitudes(case: &[u64], list: &[f64], x: &mut [f64]) -> u64
    requires { (64 ≤ length list.now) × (64 ≤ length x.old) }
{
    let nmax = size(case, 0);
    let f = enum_number(case, 1);
    let a = room(case, 2);
    let b = room(case, 3);
    let l = room(case, 4);
    let o = room(case, 5);
    let number = geopotential_degree_amplitudes(
        3.5,
        7.25,
        nmax,
        &list[..a],
        &list[..b],
        f,
        &list[..l],
        &mut x[..o],
    );
    number as u64
}

// N, rows, longitudes, the functional, and the lengths of c, s, of the Love numbers, latitudes, cosines and sines, of the working list and the output.
pub fn grid(case: &[u64], list: &[f64], w: &mut [f64], x: &mut [f64]) -> u64
    requires { (64 ≤ length list.now) × (64 ≤ length w.old) × (64 ≤ length x.old) }
{
    let nmax = size(case, 0);
    let rows = size(case, 1);
    let longitudes = size(case, 2);
    let f = enum_number(case, 3);
    let a = room(case, 4);
    let b = room(case, 5);
    let l = room(case, 6);
    let t = room(case, 7);
    let g = room(case, 8);
    let k = room(case, 9);
    let o = room(case, 10);
    let number = geopotential_grid(
        3.5,
        7.25,
        nmax,
        &list[..a],
        &list[..b],
        f,
        &list[..l],
        8.0,
        rows,
        &list[..t],
        longitudes,
        &list[..g],
        &mut w[..k],
        &mut x[..o],
    );
    number as u64
}

// Both degrees, the functional, and the lengths of the four tables and of the Love numbers. The value goes to the front of x.
pub fn basin_average(case: &[u64], list: &[f64], x: &mut [f64]) -> u64
    requires { (64 ≤ length list.now) × (64 ≤ length x.old) }
{
    let nmax = size(case, 0);
    let kmax = size(case, 1);
    let f = enum_number(case, 2);
    let a = room(case, 3);
    let b = room(case, 4);
    let c = room(case, 5);
    let d = room(case, 6);
    let l = room(case, 7);
    let mut value = MARK;
    let number = geopotential_basin_average(
        3.5,
        7.25,
        nmax,
        &list[..a],
        &list[..b],
        kmax,
        &list[..c],
        &list[..d],
        f,
        &list[..l],
        8.0,
        &mut value,
    );
    x[0] = value;
    number as u64
}

// N, the functional, and the lengths of the Love numbers, values, weights, latitudes, of the cosines and sines, of the working list, of c and s.
pub fn analysis(case: &[u64], list: &[f64], w: &mut [f64], x: &mut [f64], y: &mut [f64]) -> u64
    requires { (64 ≤ length list.now) × (64 ≤ length w.old) × (64 ≤ length x.old) × (64 ≤ length y.old) }
{
    let nmax = size(case, 0);
    let f = enum_number(case, 1);
    let l = room(case, 2);
    let v = room(case, 3);
    let q = room(case, 4);
    let t = room(case, 5);
    let g = room(case, 6);
    let k = room(case, 7);
    let a = room(case, 8);
    let b = room(case, 9);
    let number = geopotential_analysis(
        f,
        &list[..l],
        8.0,
        nmax,
        3.5,
        7.25,
        &list[..v],
        &list[..q],
        &list[..t],
        &list[..g],
        &mut w[..k],
        &mut x[..a],
        &mut y[..b],
    );
    number as u64
}

// One point by the entry for the first derivatives, or by that for the second: N, and the lengths of c, s, of the cosines and sines, of the working list
// and the output.
pub fn partials<F>(entry: F, case: &[u64], list: &[f64], w: &mut [f64], x: &mut [f64]) -> u64
where
    F: FnOnce(
        f64,
        f64,
        usize,
        &[f64],
        &[f64],
        f64,
        f64,
        f64,
        &[f64],
        &mut [f64],
        &mut [f64],
    ) -> u32,
    requires entry { F.IsAlwaysCallable entry }
    requires lengths { (64 ≤ length list.now) × (64 ≤ length w.old) × (64 ≤ length x.old) }
{
    let nmax = size(case, 0);
    let a = room(case, 1);
    let b = room(case, 2);
    let g = room(case, 3);
    let k = room(case, 4);
    let o = room(case, 5);
    let number = entry(
        3.5,
        7.25,
        nmax,
        &list[..a],
        &list[..b],
        8.0,
        0.6,
        0.8,
        &list[..g],
        &mut w[..k],
        &mut x[..o],
    );
    number as u64
}

// N, points, and the lengths of c, s, radii, latitudes, of the cosines and sines, of the working list and the output.
pub fn second_partials_along(case: &[u64], list: &[f64], w: &mut [f64], x: &mut [f64]) -> u64
    requires { (64 ≤ length list.now) × (64 ≤ length w.old) × (64 ≤ length x.old) }
{
    let nmax = size(case, 0);
    let points = size(case, 1);
    let a = room(case, 2);
    let b = room(case, 3);
    let r = room(case, 4);
    let t = room(case, 5);
    let g = room(case, 6);
    let k = room(case, 7);
    let o = room(case, 8);
    let number = geopotential_second_partials_along(
        3.5,
        7.25,
        nmax,
        &list[..a],
        &list[..b],
        points,
        &list[..r],
        &list[..t],
        &list[..g],
        &mut w[..k],
        &mut x[..o],
    );
    number as u64
}

// The length of the output.
pub fn acceleration_neu(case: &[u64], x: &mut [f64]) -> u64
    requires { 64 ≤ length x.old }
{
    let o = room(case, 0);
    geopotential_acceleration_neu(1.0, 2.0, 3.0, 4.0, 8.0, 0.6, 0.8, &mut x[..o]) as u64
}

pub fn gravity_neu(case: &[u64], x: &mut [f64]) -> u64
    requires { 64 ≤ length x.old }
{
    let o = room(case, 0);
    geopotential_gravity_neu(1.0, 2.0, 3.0, 4.0, 8.0, 0.6, 0.8, 0.5, &mut x[..o]) as u64
}

pub fn tensor_neu(case: &[u64], x: &mut [f64]) -> u64
    requires { 64 ≤ length x.old }
{
    let o = room(case, 0);
    geopotential_tensor_neu(
        1.0,
        2.0,
        3.0,
        4.0,
        5.0,
        6.0,
        7.0,
        8.0,
        9.0,
        10.0,
        8.0,
        0.6,
        0.8,
        &mut x[..o],
    ) as u64
}

// The degree up to which the rows stand, N, and the lengths of the two tables.
pub fn legendre_grow(case: &[u64], x: &mut [f64], y: &mut [f64]) -> u64
    requires { (64 ≤ length x.old) × (64 ≤ length y.old) }
{
    let from = size(case, 0);
    let nmax = size(case, 1);
    let a = room(case, 2);
    let b = room(case, 3);
    geopotential_legendre_grow(from, nmax, &mut x[..a], &mut y[..b]) as u64
}
