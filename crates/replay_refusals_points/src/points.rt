// The calls of partials and of second_partials, each on the sizes and lengths of a case: parts of `list` are its inputs, a part of x its output, and of w
// its working list.
ghost use Rattle.std.specs.Prelude.{◌≤◌, length};

use coefficients::Head;
use legendre::Latitude;
use refusal::Refusal;
use replay_cases::{head_of, of_result, room, size};

// One point by the call for the first derivatives, or by that for the second: N, and the lengths of c, s, of the cosines and sines and of the working list.
pub fn point<T: Copy, F>(call: F, case: &[u64], list: &[f64], w: &mut [f64]) -> u64
where
    F: FnOnce(Head, &[f64], &[f64], f64, Latitude, &[f64], &mut [f64]) -> Result<T, Refusal>,
    requires call { F.IsAlwaysCallable call }
    requires lengths { (64 ≤ length list.now) × (64 ≤ length w.old) }
{
    let head = head_of(size(case, 0));
    let a = room(case, 1);
    let b = room(case, 2);
    let g = room(case, 3);
    let k = room(case, 4);
    let latitude = Latitude { t: 0.6, u: 0.8 };
    of_result(call(
        head,
        &list[..a],
        &list[..b],
        8.0,
        latitude,
        &list[..g],
        &mut w[..k],
    ))
}

// Many points by either call: N, points, and the lengths of c, s, radii, latitudes, of the cosines and sines, of the working list and the output.
pub fn along<F>(call: F, case: &[u64], list: &[f64], w: &mut [f64], x: &mut [f64]) -> u64
where
    F: FnOnce(
        Head,
        &[f64],
        &[f64],
        usize,
        &[f64],
        &[f64],
        &[f64],
        &mut [f64],
        &mut [f64],
    ) -> Result<(), Refusal>,
    requires call { F.IsAlwaysCallable call }
    requires lengths { (64 ≤ length list.now) × (64 ≤ length w.old) × (64 ≤ length x.old) }
{
    let head = head_of(size(case, 0));
    let points = size(case, 1);
    let a = room(case, 2);
    let b = room(case, 3);
    let r = room(case, 4);
    let t = room(case, 5);
    let g = room(case, 6);
    let k = room(case, 7);
    let o = room(case, 8);
    of_result(call(
        head,
        &list[..a],
        &list[..b],
        points,
        &list[..r],
        &list[..t],
        &list[..g],
        &mut w[..k],
        &mut x[..o],
    ))
}
