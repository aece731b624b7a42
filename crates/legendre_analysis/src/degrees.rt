// What one row adds to the coefficients, degree by degree. The Legendre functions are not stored: each row of them is worked out from the two rows of
// the recursion before it, and its terms are added to the entries of its degree at once.
ghost use Rattle.std.specs.Prelude.{◌+◌, ◌≤◌, ◌<◌, length, get_or};
ghost use Rattle.std.specs.Float.{nan};
ghost use Rattle.storage.specs.Elements.{from};
ghost use Rattle.storage.specs.Filled.{Filled};
ghost use Rattle.storage.specs.Triangle.{table_size, along};
ghost use Rattle.recursion.specs.Recursion.{pmm, rescale, p_cell};
ghost use Rattle.legendre.specs.Rows.{next_row};
ghost use Rattle.fourier_analysis.specs.Longitudes.{first_of, second_of};
ghost use Rattle.legendre_analysis.specs.Degrees.{added_row, added_cell};

// One degree's terms added to its entries of c and s, which start at index `at`: row n of q times the powers of u makes the Legendre functions, and
// `sums` has the pairs of the sums over the longitudes.
fn add_terms(
    n: usize,
    at: usize,
    weight: f64,
    q: &[f64],
    r: &[f64],
    sums: &[f64],
    c: &mut [f64],
    s: &mut [f64],
)
    requires n_in_bounds_1 { n < length q.now }
    requires n_in_bounds_2 { n < length r.now }
    requires n_in_bounds_3 { n + n + 1 < length sums.now }
    requires n_in_bounds_2_1 { at + n < length c.old }
    requires n_in_bounds_2_2 { at + n < length s.old }
    ensures filled { Filled at (added_row weight at q.now r.now (first_of sums.now) c.old) (n + 1)
        c.old c.new }
    ensures filled_2 { Filled at (added_row weight at q.now r.now (second_of sums.now) s.old) (n + 1)
        s.old s.new }
{
    let count = n + 1;
    for m in 0..count {
        let p = q[m] * r[m];
        let f = weight * p;
        c[at + m] = c[at + m] + f * sums[m + m];
        s[at + m] = s[at + m] + f * sums[m + m + 1];
    }
}

// Degree n: row n of q over `older`, and its terms added to the entries of c and s.
fn add_degree(
    n: usize,
    at: usize,
    t: f64,
    weight: f64,
    a: &[f64],
    b: &[f64],
    sectorals: &[f64],
    r: &[f64],
    sums: &[f64],
    newer: &[f64],
    older: &mut [f64],
    c: &mut [f64],
    s: &mut [f64],
)
    requires n_in_bounds { (at + n < length a.now) × ((at + n < length b.now) × ((at + n < length c.old) × (at + n < length s.old))) }
    requires n_in_bounds_2 { (n < length sectorals.now) × ((n < length r.now) × (n + n + 1 < length sums.now)) }
    requires n_in_bounds_3 { (n ≤ length newer.now) × (n < length older.old) }
    ensures filled { Filled 0
        (next_row n at t (get_or sectorals.now n nan) a.now b.now newer.now older.old)
        (n + 1) older.old older.new }
    ensures filled_2 { Filled at (added_row weight at older.new r.now (first_of sums.now) c.old) (n + 1)
        c.old c.new }
    ensures filled_3 { Filled at (added_row weight at older.new r.now (second_of sums.now) s.old) (n + 1)
        s.old s.new }
{
    legendre::rows::next_row(n, at, t, sectorals[n], a, b, newer, older);
    add_terms(n, at, weight, older, r, sums, c, s);
}

// All degrees, two a turn, with the powers of u in r. The lists `even` and `odd` keep the last row of q of each kind.
pub fn add_degrees(
    nmax: usize,
    t: f64,
    u: f64,
    weight: f64,
    a: &[f64],
    b: &[f64],
    sectorals: &[f64],
    r: &[f64],
    sums: &[f64],
    even: &mut [f64],
    odd: &mut [f64],
    c: &mut [f64],
    s: &mut [f64],
)
    requires filled_1 { Filled 0 pmm (nmax + 1) sectorals.now sectorals.now }
    requires filled_2 { Filled 0 (rescale u) (nmax + 1) r.now r.now }
    requires nmax_bound_1 { nmax ≤ 2700 }
    requires nmax_bound_2 { table_size nmax ≤ length a.now }
    requires nmax_bound_3 { table_size nmax ≤ length b.now }
    requires nmax_bound_4 { table_size nmax ≤ length c.old }
    requires nmax_bound_5 { table_size nmax ≤ length s.old }
    requires nmax_in_bounds_1 { nmax < length sectorals.now }
    requires nmax_in_bounds_2 { nmax < length r.now }
    requires nmax_in_bounds_3 { nmax + nmax + 1 < length sums.now }
    requires nmax_in_bounds_4 { nmax < length even.old }
    requires nmax_in_bounds_5 { nmax < length odd.old }
    ensures filled_2 { Filled 0
        (along (added_cell weight (p_cell (from 0 a.now nan) (from 0 b.now nan) t u) (first_of sums.now) c.old))
        (table_size nmax) c.old c.new }
    ensures filled_3 { Filled 0
        (along (added_cell weight (p_cell (from 0 a.now nan) (from 0 b.now nan) t u) (second_of sums.now) s.old))
        (table_size nmax) s.old s.new }
{
    let mut at = 0;
    for pair in 0..(nmax + 1) / 2 {
        let n = 2 * pair;
        add_degree(n, at, t, weight, a, b, sectorals, r, sums, odd, even, c, s);
        let at_odd = at + n + 1;
        add_degree(
            n + 1,
            at_odd,
            t,
            weight,
            a,
            b,
            sectorals,
            r,
            sums,
            even,
            odd,
            c,
            s,
        );
        at = at_odd + n + 2;
    }
    if nmax % 2 == 0 {
        add_degree(
            nmax, at, t, weight, a, b, sectorals, r, sums, odd, even, c, s,
        );
    }
}
