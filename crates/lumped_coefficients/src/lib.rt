// The lumped coefficients of one latitude: for each order the sum over the degrees. The Legendre functions are not stored: each row is worked out from
// the two rows of the recursion before it, and its numbers are added to the sums at once.
#![tactic(auto)]

ghost use Rattle.std.specs.Prelude.{◌≡◌, ℕ, ◌+◌, ◌≤◌, ◌<◌, length, get_or};
ghost use Rattle.std.specs.Float.{binary64, nan};
ghost use Rattle.storage.specs.Elements.{zero_at, from};
ghost use Rattle.storage.specs.Filled.{Filled};
ghost use Rattle.storage.specs.Triangle.{table_size, cells};
ghost use Rattle.recursion.specs.Recursion.{pmm, rescale, p_cell};
ghost use Rattle.legendre.specs.Rows.{next_row, scaled_row};
ghost use Rattle.rounding.specs.Sums.{column_sum};
ghost use Rattle.rounding.specs.Margins.{grid_summand};
ghost use Rattle.lumped_coefficients.specs.Orders.{added_row};

use legendre::Latitude;

// One degree's numbers added to the sums: row n of P is p, and the row's coefficients start at index `at`.
fn add_row(n: usize, at: usize, factor: f64, p: &[f64], c: &[f64], sums: &mut [f64])
    requires fact_1 { n < length p.now }
    requires fact_2 { at + n < length c.now }
    requires fact_3 { n < length sums.old }
    ensures { Filled 0 (added_row factor at p.now c.now sums.old) (n + 1)
        sums.old sums.new }
{
    let count = n + 1;
    for m in 0..count {
        sums[m] = sums[m] + factor * p[m] * c[at + m];
    }
}

// Degree n: row n of q over `older`, row n of P to p, and its numbers added to the sums x and y.
fn add_degree(
    n: usize,
    at: usize,
    t: f64,
    a: &[f64],
    b: &[f64],
    c: &[f64],
    s: &[f64],
    factors: &[f64],
    sectorals: &[f64],
    r: &[f64],
    newer: &[f64],
    older: &mut [f64],
    p: &mut [f64],
    x: &mut [f64],
    y: &mut [f64],
)
    requires n_in_bounds_1 { at + n < length a.now }
    requires n_in_bounds_2 { at + n < length b.now }
    requires n_in_bounds_3 { at + n < length c.now }
    requires n_in_bounds_4 { at + n < length s.now }
    requires n_in_bounds_2_1 { n < length factors.now }
    requires n_in_bounds_2_2 { n < length sectorals.now }
    requires n_in_bounds_2_3 { n < length r.now }
    requires n_in_bounds_2_4 { n ≤ length newer.now }
    requires n_in_bounds_3_1 { n < length older.old }
    requires n_in_bounds_3_2 { n < length p.old }
    requires n_in_bounds_3_3 { n < length x.old }
    requires n_in_bounds_3_4 { n < length y.old }
    ensures filled { Filled 0
        (next_row n at t (get_or sectorals.now n nan) a.now b.now newer.now older.old)
        (n + 1) older.old older.new }
    ensures filled_2 { Filled 0 (scaled_row older.new r.now) (n + 1) p.old p.new }
    ensures filled_3 { Filled 0 (added_row (get_or factors.now n nan) at p.new c.now x.old) (n + 1)
        x.old x.new }
    ensures filled_4 { Filled 0 (added_row (get_or factors.now n nan) at p.new s.now y.old) (n + 1)
        y.old y.new }
{
    let factor = factors[n];
    legendre::rows::next_row(n, at, t, sectorals[n], a, b, newer, older);
    legendre::rows::scale_row(n, 0, older, r, p);
    add_row(n, at, factor, p, c, x);
    add_row(n, at, factor, p, s, y);
}

// All degrees, two a turn, with the powers of u in r and the sums cleared. The lists `even` and `odd` keep the last row of q of each kind.
fn add_degrees(
    nmax: usize,
    t: f64,
    u: f64,
    a: &[f64],
    b: &[f64],
    c: &[f64],
    s: &[f64],
    factors: &[f64],
    sectorals: &[f64],
    r: &[f64],
    even: &mut [f64],
    odd: &mut [f64],
    p: &mut [f64],
    x: &mut [f64],
    y: &mut [f64],
)
    requires filled_1 { Filled 0 pmm (nmax + 1) sectorals.now sectorals.now }
    requires filled_2 { Filled 0 (rescale u) (nmax + 1) r.now r.now }
    requires filled_3 { Filled 0 zero_at (nmax + 1) x.old x.old }
    requires filled_4 { Filled 0 zero_at (nmax + 1) y.old y.old }
    requires nmax_bound_1 { nmax ≤ 2700 }
    requires nmax_bound_2 { table_size nmax ≤ length a.now }
    requires nmax_bound_3 { table_size nmax ≤ length b.now }
    requires nmax_bound_4 { table_size nmax ≤ length c.now }
    requires nmax_bound_5 { table_size nmax ≤ length s.now }
    requires nmax_in_bounds_1 { nmax < length factors.now }
    requires nmax_in_bounds_2 { nmax < length sectorals.now }
    requires nmax_in_bounds_3 { nmax < length r.now }
    requires nmax_in_bounds_4 { nmax < length even.old }
    requires nmax_in_bounds_5 { nmax < length odd.old }
    requires nmax_in_bounds_2_1 { nmax < length p.old }
    requires nmax_in_bounds_2_2 { nmax < length x.old }
    requires nmax_in_bounds_2_3 { nmax < length y.old }
    ensures filled_2 { Filled 0
        (column_sum binary64
        (grid_summand (p_cell (from 0 a.now nan) (from 0 b.now nan) t u) (from 0 factors.now nan)
        (cells c.now nan))
        (nmax + 1))
        (nmax + 1) x.old x.new }
    ensures filled_3 { Filled 0
        (column_sum binary64
        (grid_summand (p_cell (from 0 a.now nan) (from 0 b.now nan) t u) (from 0 factors.now nan)
        (cells s.now nan))
        (nmax + 1))
        (nmax + 1) y.old y.new }
{
    let mut at = 0;
    for pair in 0..(nmax + 1) / 2 {
        let n = 2 * pair;
        add_degree(
            n, at, t, a, b, c, s, factors, sectorals, r, odd, even, p, x, y,
        );
        let at_odd = at + n + 1;
        add_degree(
            n + 1,
            at_odd,
            t,
            a,
            b,
            c,
            s,
            factors,
            sectorals,
            r,
            even,
            odd,
            p,
            x,
            y,
        );
        at = at_odd + n + 2;
    }
    if nmax % 2 == 0 {
        add_degree(
            nmax, at, t, a, b, c, s, factors, sectorals, r, odd, even, p, x, y,
        );
    }
}

// The sums over the degrees at one latitude: x with the coefficients c, y with s.
pub fn order_sums(
    nmax: usize,
    latitude: Latitude,
    a: &[f64],
    b: &[f64],
    c: &[f64],
    s: &[f64],
    factors: &[f64],
    sectorals: &[f64],
    r: &mut [f64],
    even: &mut [f64],
    odd: &mut [f64],
    p: &mut [f64],
    x: &mut [f64],
    y: &mut [f64],
)
    requires nmax_bound_1 { nmax ≤ 2700 }
    requires nmax_bound_2 { table_size nmax ≤ length a.now }
    requires nmax_bound_3 { table_size nmax ≤ length b.now }
    requires nmax_bound_4 { table_size nmax ≤ length c.now }
    requires nmax_bound_5 { table_size nmax ≤ length s.now }
    requires nmax_in_bounds_1 { nmax < length factors.now }
    requires nmax_in_bounds_2 { nmax < length sectorals.now }
    requires nmax_in_bounds_3 { nmax < length r.old }
    requires nmax_in_bounds_4 { nmax < length even.old }
    requires nmax_in_bounds_5 { nmax < length odd.old }
    requires nmax_in_bounds_2_1 { nmax < length p.old }
    requires nmax_in_bounds_2_2 { nmax < length x.old }
    requires nmax_in_bounds_2_3 { nmax < length y.old }
    requires filled { Filled 0 pmm (nmax + 1) sectorals.now sectorals.now }
    ensures filled_2 { Filled 0
        (column_sum binary64
        (grid_summand (p_cell (from 0 a.now nan) (from 0 b.now nan) latitude.t latitude.u)
        (from 0 factors.now nan) (cells c.now nan))
        (nmax + 1))
        (nmax + 1) x.old x.new }
    ensures filled_3 { Filled 0
        (column_sum binary64
        (grid_summand (p_cell (from 0 a.now nan) (from 0 b.now nan) latitude.t latitude.u)
        (from 0 factors.now nan) (cells s.now nan))
        (nmax + 1))
        (nmax + 1) y.old y.new }
{
    let t = latitude.t;
    let u = latitude.u;
    let count = nmax + 1;
    legendre::rows::rescales(nmax, u, r);
    storage::clear(count, x);
    storage::clear(count, y);
    add_degrees(
        nmax, t, u, a, b, c, s, factors, sectorals, r, even, odd, p, x, y,
    );
}
