// The derivative of a table by latitude, row by row along its storage. What an entry's neighbours count for does not depend on the latitude: these
// weights are roots, and within a row the root at m that belongs to m + 1 is the one at m + 1 that belongs to m, so that each entry has one weight,
// by way of a guess from a product of tabled roots.
#![tactic(auto)]

ghost use Rattle.std.specs.Prelude.{◌≡◌, ℕ, ◌+◌, ◌≤◌, ◌<◌, length};
ghost use Rattle.std.specs.Float.{nan};
ghost use Rattle.storage.specs.Elements.{from};
ghost use Rattle.storage.specs.Filled.{Filled};
ghost use Rattle.storage.specs.Triangle.{table_size, cells, along};
ghost use Rattle.derivative.specs.Derivative.{zonal_of, lower_of, d_cell, weight_cell, weight_above, derived_row, derived_above};

// About √k at k = 0 .. last.
fn roots(last: usize, out: &mut [f64])
    requires fact_1 { last ≤ 5400 }
    requires fact_2 { last < length out.old }
{
    for k in 0..last + 1 {
        out[k] = number::root(k as f64);
    }
}

// What the entry of order 1 counts for in the derivative at order 0.
fn zonal(n: usize, guess: f64) -> f64
    requires { n ≤ 2700 }
    ensures { result ≡ zonal_of n }
{
    let nf = n as f64;
    number::root_near(nf * (nf + 1.0) / 2.0, guess)
}

// What the entry of order 0 counts for in the derivative at order 1.
fn first_lower(n: usize, guess: f64) -> f64
    requires { n ≤ 2700 }
    ensures { result ≡ lower_of n 1 }
{
    let nf = n as f64;
    1.4142135623730951 * number::root_near((nf + 1.0) * (nf - 1.0 + 1.0), guess)
}

// The weights of the orders 1 to n of degree n; the row starts at index `at`.
fn lower_weights(n: usize, at: usize, root: &[f64], w: &mut [f64])
    requires fact_1 { 1 ≤ n }
    requires fact_2 { n ≤ 2700 }
    requires fact_3 { n + n < length root.now }
    requires fact_4 { at + n < length w.old }
    ensures { Filled (at + 1) (weight_above n) n w.old w.new }
{
    let nf = n as f64;
    let mut lower = first_lower(n, root[n] * root[n + 1]);
    let mut mf = 1.0;
    for m in 1..n {
        w[at + m] = lower;
        lower = number::root_near((nf - mf) * (nf + mf + 1.0), root[n - m] * root[n + m + 1]);
        mf = mf + 1.0;
    }
    w[at + n] = lower;
}

// The weights of degree n, from index `at` on.
fn weights_row(n: usize, at: usize, root: &[f64], w: &mut [f64])
    requires fact_1 { n ≤ 2700 }
    requires fact_2 { n + n + 1 < length root.now }
    requires fact_3 { at + n < length w.old }
    ensures { Filled at (weight_cell n) (n + 1) w.old w.new }
{
    w[at] = zonal(n, root[n] * root[n + 1] * 0.7071067811865476);
    if n == 0 {
        return;
    }
    lower_weights(n, at, root, w);
}

// The table of the weights up to degree nmax, which serves every latitude; `root` is overwritten.
pub fn weights_rows(nmax: usize, root: &mut [f64], out: &mut [f64])
    requires fact_1 { nmax ≤ 2700 }
    requires fact_2 { nmax + nmax + 1 < length root.old }
    requires fact_3 { table_size nmax ≤ length out.old }
    ensures { Filled 0 (along weight_cell) (table_size nmax) out.old out.new }
{
    roots(2 * nmax, root);
    let mut at = 0;
    for n in 0..nmax + 1 {
        weights_row(n, at, root, out);
        at = at + n + 1;
    }
}

// The orders 1 to n of a derivative of degree n, as `derive_row` has them.
fn derive_orders(n: usize, wat: usize, at: usize, w: &[f64], src: &[f64], dst: &mut [f64])
    requires fact_1 { 1 ≤ n }
    requires fact_2 { wat + n < length w.now }
    requires fact_3 { at + n < length src.now }
    requires fact_4 { at + n < length dst.old }
    ensures { Filled (at + 1) (derived_above n (from wat w.now nan) (from at src.now nan)) n
        dst.old dst.new }
{
    for m in 1..n {
        dst[at + m] = -0.5
            * (w[wat + m] * src[at + (m - 1)] - w[wat + (m + 1)] * src[at + (m + 1)]);
    }
    dst[at + n] = -0.5 * (w[wat + n] * src[at + (n - 1)] - 0.0);
}

// The derivative of one row: the numbers of degree n start at index `at` of src and of dst, their weights at index `wat` of w.
pub fn derive_row(n: usize, wat: usize, at: usize, w: &[f64], src: &[f64], dst: &mut [f64])
    requires fact_1 { wat + n < length w.now }
    requires fact_2 { at + n < length src.now }
    requires fact_3 { at + n < length dst.old }
    ensures { Filled at (derived_row n (from wat w.now nan) (from at src.now nan)) (n + 1)
        dst.old dst.new }
{
    if n == 0 {
        dst[at] = 0.0;
        return;
    }
    dst[at] = w[wat] * src[at + 1];
    derive_orders(n, wat, at, w, src, dst);
}

// The rows up to degree nmax; `root` and the weights w, one row at a time, are overwritten.
fn derive_rows(nmax: usize, root: &mut [f64], w: &mut [f64], src: &[f64], dst: &mut [f64])
    requires nmax_bound_1 { nmax ≤ 2700 }
    requires nmax_bound_2 { nmax + nmax + 1 < length root.old }
    requires nmax_bound_3 { nmax < length w.old }
    requires nmax_in_bounds_1 { table_size nmax ≤ length src.now }
    requires nmax_in_bounds_2 { table_size nmax ≤ length dst.old }
    ensures { Filled 0 (along (d_cell (cells src.now nan))) (table_size nmax) dst.old dst.new }
{
    roots(2 * nmax, root);
    let mut at = 0;
    for n in 0..nmax + 1 {
        weights_row(n, 0, root, w);
        derive_row(n, 0, at, w, src, dst);
        at = at + n + 1;
    }
}

// The derivative of the table src up to degree nmax, for one latitude.
pub fn derive(nmax: usize, src: &[f64], dst: &mut [f64])
    requires { (nmax ≤ 2700) × ((table_size nmax ≤ length src.now) × (table_size nmax ≤ length dst.old)) }
    ensures { Filled 0 (along (d_cell (cells src.now nan))) (table_size nmax) dst.old dst.new }
{
    if nmax < 128 {
        let mut root = [0.0; 256];
        let mut w = [0.0; 128];
        derive_rows(nmax, &mut root, &mut w, src, dst);
    } else {
        let mut root = [0.0; 5402];
        let mut w = [0.0; 2701];
        derive_rows(nmax, &mut root, &mut w, src, dst);
    }
}
