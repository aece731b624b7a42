// The values along one row of a grid, from its lumped coefficients: x[m] goes with the cosine of m times the longitude, y[m] with the sine. Each value
// is one chain of additions over the orders; eight longitudes at a time keep eight chains going side by side.
#![tactic(auto)]

ghost use Rattle.std.specs.Prelude.{◌≡◌, ℕ, ◌+◌, ◌-◌, ◌*◌, ◌≤◌, ◌<◌, length};
ghost use Rattle.storage.specs.Filled.{Filled};
ghost use Rattle.fourier_synthesis.specs.Longitudes.{point_from, point_at, point_after, EightPoints};

use storage::Eight;

// The value at the longitude whose cosines and sines start at index k.
fn point(nmax: usize, k: usize, x: &[f64], y: &[f64], trig: &[f64]) -> f64
    requires fact_1 { nmax < length x.now }
    requires fact_2 { nmax < length y.now }
    requires fact_3 { k + (nmax + nmax + 1) < length trig.now }
    ensures { result ≡ point_from nmax x.now y.now trig.now k }
{
    let count = nmax + 1;
    let mut sum = 0.0;
    for m in 0..count {
        let even = m + m;
        let odd = m + m + 1;
        sum = sum + (x[m] * trig[k + even] + y[m] * trig[k + odd]);
    }
    sum
}

// The values at eight longitudes; the cosines and sines of the first start at index k, those of each other `stride` past those before.
fn eight_points(nmax: usize, k: usize, stride: usize, x: &[f64], y: &[f64], trig: &[f64]) -> Eight
    requires fact_1 { nmax < length x.now }
    requires fact_2 { nmax < length y.now }
    requires fact_3 { k + stride + stride + stride + stride + stride + stride + stride + (nmax + nmax + 1) < length trig.now }
    ensures { EightPoints x.now y.now trig.now k stride (nmax + 1)
        result.a result.b result.c result.d result.e result.f result.g result.h }
{
    let count = nmax + 1;
    let kb = k + stride;
    let kc = kb + stride;
    let kd = kc + stride;
    let ke = kd + stride;
    let kf = ke + stride;
    let kg = kf + stride;
    let kh = kg + stride;
    let mut a = 0.0;
    let mut b = 0.0;
    let mut c = 0.0;
    let mut d = 0.0;
    let mut e = 0.0;
    let mut f = 0.0;
    let mut g = 0.0;
    let mut h = 0.0;
    for m in 0..count {
        let even = m + m;
        let odd = m + m + 1;
        let xm = x[m];
        let ym = y[m];
        a = a + (xm * trig[k + even] + ym * trig[k + odd]);
        b = b + (xm * trig[kb + even] + ym * trig[kb + odd]);
        c = c + (xm * trig[kc + even] + ym * trig[kc + odd]);
        d = d + (xm * trig[kd + even] + ym * trig[kd + odd]);
        e = e + (xm * trig[ke + even] + ym * trig[ke + odd]);
        f = f + (xm * trig[kf + even] + ym * trig[kf + odd]);
        g = g + (xm * trig[kg + even] + ym * trig[kg + odd]);
        h = h + (xm * trig[kh + even] + ym * trig[kh + odd]);
    }
    Eight {
        a,
        b,
        c,
        d,
        e,
        f,
        g,
        h,
    }
}

// The values at the longitudes from the first on, eight at a time, and how many those are.
fn points_eight(
    nmax: usize,
    longitudes: usize,
    stride: usize,
    at: usize,
    x: &[f64],
    y: &[f64],
    trig: &[f64],
    out: &mut [f64],
) -> usize
    requires nmax_in_bounds_1 { nmax < length x.now }
    requires nmax_in_bounds_2 { nmax < length y.now }
    requires nmax_in_bounds_3 { at + longitudes ≤ length out.old }
    requires stride_value_1 { stride ≡ nmax + nmax + 2 }
    requires stride_value_2 { longitudes * stride ≤ length trig.now }
    ensures fact_1 { result ≤ longitudes }
    ensures fact_2 { Filled at (point_at nmax x.now y.now trig.now) result
        out.old out.new }
{
    let blocks = longitudes / 8;
    let mut k = 0;
    for block in 0..blocks {
        let v = eight_points(nmax, k, stride, x, y, trig);
        storage::store_eight(at + 8 * block, v, out);
        k = k + 8 * stride;
    }
    8 * blocks
}

// The values at the longitudes from `first` on, one by one.
fn points_rest(
    nmax: usize,
    first: usize,
    longitudes: usize,
    stride: usize,
    at: usize,
    x: &[f64],
    y: &[f64],
    trig: &[f64],
    out: &mut [f64],
)
    requires nmax_in_bounds_1 { nmax < length x.now }
    requires nmax_in_bounds_2 { nmax < length y.now }
    requires nmax_in_bounds_3 { at + longitudes ≤ length out.old }
    requires stride_value_1 { stride ≡ nmax + nmax + 2 }
    requires stride_value_2 { longitudes * stride ≤ length trig.now }
    requires stride_value_3 { first ≤ longitudes }
    ensures { Filled (at + first) (point_after first nmax x.now y.now trig.now) (longitudes - first)
        out.old out.new }
{
    let mut k = first * stride;
    for j in first..longitudes {
        out[at + j] = point(nmax, k, x, y, trig);
        k = k + stride;
    }
}

// The values at all longitudes, from index `at` of out on.
pub fn points(
    nmax: usize,
    longitudes: usize,
    at: usize,
    x: &[f64],
    y: &[f64],
    trig: &[f64],
    out: &mut [f64],
)
    requires fact_1 { nmax ≤ 2700 }
    requires fact_2 { nmax < length x.now }
    requires fact_3 { nmax < length y.now }
    requires fact_4 { longitudes * (nmax + nmax + 2) ≤ length trig.now }
    requires fact_5 { at + longitudes ≤ length out.old }
    ensures { Filled at (point_at nmax x.now y.now trig.now) longitudes
        out.old out.new }
{
    let stride = nmax + nmax + 2;
    let first = points_eight(nmax, longitudes, stride, at, x, y, trig, out);
    points_rest(nmax, first, longitudes, stride, at, x, y, trig, out);
}
