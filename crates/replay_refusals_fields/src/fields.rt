// The calls of synthesis, slepian and analysis, each on the sizes and lengths of a case: parts of `list` are its inputs, parts of x and y its
// outputs, and of w its working list.
ghost use Rattle.std.specs.Prelude.{◌≤◌, length};

use analysis::analysis;
use replay_cases::{functional, head_of, of_result, room, size};

// N, rows, longitudes, the functional, and the lengths of c, s, of the Love numbers, latitudes, cosines and sines, of the working list and the output.
pub fn grid(case: &[u64], list: &[f64], w: &mut [f64], x: &mut [f64]) -> u64
    requires { (64 ≤ length list.now) × (64 ≤ length w.old) × (64 ≤ length x.old) }
{
    let head = head_of(size(case, 0));
    let rows = size(case, 1);
    let longitudes = size(case, 2);
    let f = functional(case, 3);
    let a = room(case, 4);
    let b = room(case, 5);
    let l = room(case, 6);
    let t = room(case, 7);
    let g = room(case, 8);
    let k = room(case, 9);
    let o = room(case, 10);
    of_result(synthesis::grid(
        head,
        &list[..a],
        &list[..b],
        f,
        &list[..l],
        8.0,
        rows,
        &list[..t],
        longitudes,
        &list[..g],
        &mut w[..k],
        &mut x[..o],
    ))
}

// Both degrees, the functional, and the lengths of the four tables and of the Love numbers.
pub fn basin_average(case: &[u64], list: &[f64]) -> u64
    requires { 64 ≤ length list.now }
{
    let field = head_of(size(case, 0));
    let kernel = head_of(size(case, 1));
    let f = functional(case, 2);
    let a = room(case, 3);
    let b = room(case, 4);
    let c = room(case, 5);
    let d = room(case, 6);
    let l = room(case, 7);
    of_result(slepian::basin_average(
        field,
        &list[..a],
        &list[..b],
        kernel,
        &list[..c],
        &list[..d],
        f,
        &list[..l],
        8.0,
    ))
}

// N, the functional, and the lengths of the Love numbers, values, weights, latitudes, of the cosines and sines, of the working list, of c and s.
pub fn model(case: &[u64], list: &[f64], w: &mut [f64], x: &mut [f64], y: &mut [f64]) -> u64
    requires { (64 ≤ length list.now) × (64 ≤ length w.old) × (64 ≤ length x.old) × (64 ≤ length y.old) }
{
    let nmax = size(case, 0);
    let f = functional(case, 1);
    let l = room(case, 2);
    let v = room(case, 3);
    let q = room(case, 4);
    let t = room(case, 5);
    let g = room(case, 6);
    let k = room(case, 7);
    let a = room(case, 8);
    let b = room(case, 9);
    of_result(analysis(
        f,
        &list[..l],
        8.0,
        nmax,
        3.5,
        7.25,
        &list[..v],
        &list[..q],
        &list[..t],
        &list[..g],
        &mut w[..k],
        &mut x[..a],
        &mut y[..b],
    ))
}
