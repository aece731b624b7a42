// The sums over the longitudes of one row: for each order m the row's values times the cosines of m times the longitude and times the sines, the
// pairs of these sums order after order. Each sum is one chain of additions; four orders at a time keep eight chains going side by side.
#![tactic(auto)]

ghost use Rattle.std.specs.Prelude.{◌≡◌, ◌+◌, ◌*◌, ◌≤◌, ◌<◌, length};
ghost use Rattle.storage.specs.Filled.{Filled};
ghost use Rattle.storage.specs.Rectangle.{by_rows};
ghost use Rattle.fourier_analysis.specs.Longitudes.{sum_from, pair_from, FourOrders};

use storage::Eight;

// The two sums of one order: a with the cosines, b with the sines.
#[derive(Clone, Copy)]
pub struct OrderSums {
    pub a: f64,
    pub b: f64,
}

// The sums of the order whose pairs of a cosine and a sine start at index k; the row's values start at index `at`.
fn one_order(longitudes: usize, at: usize, k: usize, values: &[f64], trig: &[f64]) -> OrderSums
    requires fact_1 { at + longitudes ≤ length values.now }
    requires fact_2 { k + (longitudes + longitudes) ≤ length trig.now }
    ensures fact_1 { result.a ≡ sum_from values.now trig.now at k longitudes }
    ensures fact_2 { result.b ≡ sum_from values.now trig.now at (k + 1) longitudes }
{
    let sine = k + 1;
    let mut a = 0.0;
    let mut b = 0.0;
    for j in 0..longitudes {
        let value = values[at + j];
        let pair = j + j;
        a = a + value * trig[k + pair];
        b = b + value * trig[sine + pair];
    }
    OrderSums { a, b }
}

// The sums of four orders, a, c, e, g with the cosines and b, d, f, h with the sines; the pairs of the first start at index k, those of each other `stride` past those before.
fn four_orders(
    longitudes: usize,
    at: usize,
    k: usize,
    stride: usize,
    values: &[f64],
    trig: &[f64],
) -> Eight
    requires fact_1 { at + longitudes ≤ length values.now }
    requires fact_2 { k + stride + stride + stride + (longitudes + longitudes) ≤ length trig.now }
    ensures { FourOrders values.now trig.now at k stride longitudes
        result.a result.b result.c result.d result.e result.f result.g result.h }
{
    let kb = k + 1;
    let kc = k + stride;
    let kd = kc + 1;
    let ke = kc + stride;
    let kf = ke + 1;
    let kg = ke + stride;
    let kh = kg + 1;
    let mut a = 0.0;
    let mut b = 0.0;
    let mut c = 0.0;
    let mut d = 0.0;
    let mut e = 0.0;
    let mut f = 0.0;
    let mut g = 0.0;
    let mut h = 0.0;
    for j in 0..longitudes {
        let value = values[at + j];
        let pair = j + j;
        a = a + value * trig[k + pair];
        b = b + value * trig[kb + pair];
        c = c + value * trig[kc + pair];
        d = d + value * trig[kd + pair];
        e = e + value * trig[ke + pair];
        f = f + value * trig[kf + pair];
        g = g + value * trig[kg + pair];
        h = h + value * trig[kh + pair];
    }
    Eight {
        a,
        b,
        c,
        d,
        e,
        f,
        g,
        h,
    }
}

// The sums of the orders from the first on, four at a time, and how many those are.
fn by_fours(
    nmax: usize,
    longitudes: usize,
    stride: usize,
    at: usize,
    values: &[f64],
    trig: &[f64],
    sums: &mut [f64],
) -> usize
    requires nmax_bound_1 { nmax ≤ 2700 }
    requires nmax_bound_2 { nmax + nmax + 1 < length sums.old }
    requires nmax_bound_3 { at + longitudes ≤ length values.now }
    requires stride_value_1 { stride ≡ longitudes + longitudes }
    requires stride_value_2 { (nmax + 1) * stride ≤ length trig.now }
    ensures fact_1 { result ≤ nmax + 1 }
    ensures fact_2 { Filled 0 (by_rows (pair_from values.now trig.now at longitudes) 2) (result * 2)
        sums.old sums.new }
{
    let blocks = (nmax + 1) / 4;
    let mut k = 0;
    for block in 0..blocks {
        let m = 4 * block;
        let v = four_orders(longitudes, at, k, stride, values, trig);
        storage::store_eight(m + m, v, sums);
        k = k + 4 * stride;
    }
    4 * blocks
}

// The sums of the orders from `first` on, one by one; those below it are there.
fn one_by_one(
    nmax: usize,
    first: usize,
    longitudes: usize,
    stride: usize,
    at: usize,
    values: &[f64],
    trig: &[f64],
    sums: &mut [f64],
)
    requires nmax_bound_1 { nmax ≤ 2700 }
    requires nmax_bound_2 { nmax + nmax + 1 < length sums.old }
    requires nmax_bound_3 { at + longitudes ≤ length values.now }
    requires stride_value_1 { stride ≡ longitudes + longitudes }
    requires stride_value_2 { (nmax + 1) * stride ≤ length trig.now }
    requires stride_value_3 { first ≤ nmax + 1 }
    requires filled { Filled 0 (by_rows (pair_from values.now trig.now at longitudes) 2) (first * 2) sums.old sums.old }
    ensures { Filled 0 (by_rows (pair_from values.now trig.now at longitudes) 2) ((nmax + 1) * 2)
        sums.old sums.new }
{
    let mut k = first * stride;
    for m in first..nmax + 1 {
        let v = one_order(longitudes, at, k, values, trig);
        sums[m + m] = v.a;
        sums[m + m + 1] = v.b;
        k = k + stride;
    }
}

// The sums of all orders, for the row whose values start at index `at`.
pub fn order_sums(
    nmax: usize,
    longitudes: usize,
    at: usize,
    values: &[f64],
    trig: &[f64],
    sums: &mut [f64],
)
    requires nmax_bound_1 { nmax ≤ 2700 }
    requires nmax_bound_2 { longitudes ≤ 5402 }
    requires nmax_bound_3 { nmax + nmax + 1 < length sums.old }
    requires longitudes_in_bounds_1 { at + longitudes ≤ length values.now }
    requires longitudes_in_bounds_2 { (nmax + 1) * (longitudes + longitudes) ≤ length trig.now }
    ensures { Filled 0 (by_rows (pair_from values.now trig.now at longitudes) 2) ((nmax + 1) * 2)
        sums.old sums.new }
{
    let stride = longitudes + longitudes;
    let first = by_fours(nmax, longitudes, stride, at, values, trig, sums);
    one_by_one(nmax, first, longitudes, stride, at, values, trig, sums);
}
