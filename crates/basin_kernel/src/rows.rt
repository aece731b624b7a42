// What one node adds to the kernel, row by row. The Legendre functions are not stored: each row is worked out from the two rows of the recursion before
// it, and its numbers are added at once.
ghost use Rattle.std.specs.Prelude.{◌+◌, ◌≤◌, ◌<◌, length};
ghost use Rattle.std.specs.Float.{nan};
ghost use Rattle.storage.specs.Elements.{from};
ghost use Rattle.storage.specs.Filled.{Filled};
ghost use Rattle.storage.specs.Triangle.{table_size, along};
ghost use Rattle.recursion.specs.Recursion.{rescale, p_cell};
ghost use Rattle.legendre.specs.Rows.{next_row};
ghost use Rattle.basin_kernel.specs.Rows.{added_row, added_cell};

// Row n of a table, from index `at` on, with a node's numbers added to the orders from `first` on. Row n of P is row n of q times the powers r; the
// node's integrals start at index `start`. The sum of two integrals stays as the Rust has it, for it may be infinite.
fn add_row(
    first: usize,
    n: usize,
    at: usize,
    start: usize,
    weight: f64,
    q: &[f64],
    r: &[f64],
    integrals: &[f64],
    sums: &mut [f64],
)
    requires fact_1 { first ≤ n + 1 }
    requires fact_2 { n < length q.now }
    requires fact_3 { n < length r.now }
    requires fact_4 { start + n < length integrals.now }
    requires fact_5 { at + n < length sums.old }
    ensures { Filled at (added_row first at start weight q.now r.now integrals.now sums.old) (n + 1)
        sums.old sums.new }
{
    let count = n + 1;
    for m in first..count {
        sums[at + m] = sums[at + m]
            + weight * (q[m] * r[m]) * (0.5 * (integrals[start + m] + integrals[start + m]));
    }
}

// Degree n: row n of q over `older`, and its numbers added to the cosines kc and, but for order 0, to the sines ks.
fn add_degree(
    n: usize,
    at: usize,
    start: usize,
    t: f64,
    pmm: f64,
    weight: f64,
    a: &[f64],
    b: &[f64],
    r: &[f64],
    s: &[f64],
    c: &[f64],
    newer: &[f64],
    older: &mut [f64],
    kc: &mut [f64],
    ks: &mut [f64],
)
    requires n_in_bounds_1 { at + n < length a.now }
    requires n_in_bounds_2 { at + n < length b.now }
    requires n_in_bounds_3 { n < length r.now }
    requires n_in_bounds_4 { start + n < length s.now }
    requires n_in_bounds_2_1 { start + n < length c.now }
    requires n_in_bounds_2_2 { n ≤ length newer.now }
    requires n_in_bounds_2_3 { n < length older.old }
    requires n_in_bounds_2_4 { at + n < length kc.old }
    requires n_in_bounds_2_5 { at + n < length ks.old }
    ensures filled { Filled 0
        (next_row n at t pmm a.now b.now newer.now older.old)
        (n + 1) older.old older.new }
    ensures filled_2 { Filled at (added_row 0 at start weight older.new r.now s.now kc.old) (n + 1)
        kc.old kc.new }
    ensures filled_3 { Filled at (added_row 1 at start weight older.new r.now c.now ks.old) (n + 1)
        ks.old ks.new }
{
    legendre::rows::next_row(n, at, t, pmm, a, b, newer, older);
    add_row(0, n, at, start, weight, older, r, s, kc);
    add_row(1, n, at, start, weight, older, r, c, ks);
}

// All degrees, two a turn, with the powers of u in r. The lists `even` and `odd` keep the last row of q of each kind.
pub(crate) fn add_degrees(
    lmax: usize,
    start: usize,
    t: f64,
    u: f64,
    weight: f64,
    a: &[f64],
    b: &[f64],
    r: &[f64],
    s: &[f64],
    c: &[f64],
    even: &mut [f64],
    odd: &mut [f64],
    kc: &mut [f64],
    ks: &mut [f64],
)
    requires lmax_bound_1 { lmax ≤ 2700 }
    requires lmax_bound_2 { table_size lmax ≤ length a.now }
    requires lmax_bound_3 { table_size lmax ≤ length b.now }
    requires lmax_bound_4 { lmax < length r.now }
    requires lmax_bound_5 { start + lmax < length s.now }
    requires lmax_in_bounds_1 { start + lmax < length c.now }
    requires lmax_in_bounds_2 { lmax < length even.old }
    requires lmax_in_bounds_3 { lmax < length odd.old }
    requires lmax_in_bounds_4 { table_size lmax ≤ length kc.old }
    requires lmax_in_bounds_5 { table_size lmax ≤ length ks.old }
    requires filled { Filled 0 (rescale u) (lmax + 1) r.now r.now }
    ensures filled_2 { Filled 0
        (along (added_cell 0 weight (p_cell (from 0 a.now nan) (from 0 b.now nan) t u) (from start s.now nan) kc.old))
        (table_size lmax) kc.old kc.new }
    ensures filled_3 { Filled 0
        (along (added_cell 1 weight (p_cell (from 0 a.now nan) (from 0 b.now nan) t u) (from start c.now nan) ks.old))
        (table_size lmax) ks.old ks.new }
{
    let mut pmm = 1e-280;
    let mut at = 0;
    for pair in 0..(lmax + 1) / 2 {
        let n = 2 * pair;
        add_degree(
            n, at, start, t, pmm, weight, a, b, r, s, c, odd, even, kc, ks,
        );
        let at_odd = at + n + 1;
        let pmm_odd = legendre::rows::next_sectoral(n + 1, pmm);
        add_degree(
            n + 1,
            at_odd,
            start,
            t,
            pmm_odd,
            weight,
            a,
            b,
            r,
            s,
            c,
            even,
            odd,
            kc,
            ks,
        );
        at = at_odd + n + 2;
        pmm = legendre::rows::next_sectoral(n + 2, pmm_odd);
    }
    if lmax % 2 == 0 {
        add_degree(
            lmax, at, start, t, pmm, weight, a, b, r, s, c, odd, even, kc, ks,
        );
    }
}
