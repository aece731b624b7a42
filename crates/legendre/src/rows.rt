// The recursion row by row. Row n of q has the numbers P(n, m) / u^m, times 1e-280, for the orders m up to n: it follows from the two rows
// before it, each order by itself, so that a row is one loop without a branch.
ghost use Rattle.std.specs.Prelude.{◌≡◌, ℕ, ◌+◌, ◌≤◌, ◌<◌, length};
ghost use Rattle.std.specs.Float.{nan};
ghost use Rattle.number.specs.Float64.{◌⊗◌, zero64};
ghost use Rattle.number.specs.Root.{root_of};
ghost use Rattle.storage.specs.Elements.{from};
ghost use Rattle.storage.specs.Filled.{Filled};
ghost use Rattle.storage.specs.Triangle.{table_size, along};
ghost use Rattle.recursion.specs.Recursion.{sectoral_ratio, pmm, rescale, step, p_cell};
ghost use Rattle.legendre.specs.Rows.{next_row, scaled_row};

// u^m / 1e-280 for the orders m up to nmax.
pub fn rescales(nmax: usize, u: f64, r: &mut [f64])
    requires { nmax < length r.old }
    ensures { Filled 0 (rescale u) (nmax + 1) r.old r.new }
{
    let count = nmax + 1;
    let mut rescale = 1.0 / 1e-280;
    for m in 0..count {
        r[m] = rescale;
        rescale = rescale * u;
    }
}

// What P(m, m) / u^m grows by, under the root, from m - 1 to m.
fn sectoral_ratio(m: usize) -> f64
    requires { m ≤ 2701 }
    ensures { result ≡ sectoral_ratio m }
{
    if m == 1 {
        3.0
    } else {
        (2 * m + 1) as f64 / (2 * m) as f64
    }
}

// The sectoral number of q at order m, from the one before it.
pub fn next_sectoral(m: usize, pmm: f64) -> f64
    requires { m ≤ 2701 }
    ensures { result ≡ pmm ⊗ root_of (sectoral_ratio m) }
{
    pmm * number::root(sectoral_ratio(m))
}

// The sectoral numbers of q for the orders up to nmax.
pub fn sectorals(nmax: usize, d: &mut [f64])
    requires fact_1 { nmax ≤ 2700 }
    requires fact_2 { nmax < length d.old }
    ensures { Filled 0 pmm (nmax + 1) d.old d.new }
{
    let count = nmax + 1;
    let mut sectoral = 1e-280;
    for m in 0..count {
        d[m] = sectoral;
        sectoral = next_sectoral(m + 1, sectoral);
    }
}

// The second number of a column, before which there is its sectoral number alone. The product by 0 stays: an infinite b gives NaN.
fn second(a: f64, b: f64, t: f64, pmm: f64) -> f64
    ensures { result ≡ step a b t zero64 pmm }
{
    a * t * pmm - b * 0.0
}

// Row n of q, with its sectoral number pmm, from the row before it, `newer`, and the one before that, `older`, which it is written over.
// The row's coefficients start at index `at`.
pub fn next_row(
    n: usize,
    at: usize,
    t: f64,
    pmm: f64,
    a: &[f64],
    b: &[f64],
    newer: &[f64],
    older: &mut [f64],
)
    requires fact_1 { at + n < length a.now }
    requires fact_2 { at + n < length b.now }
    requires fact_3 { n ≤ length newer.now }
    requires fact_4 { n < length older.old }
    ensures { Filled 0
        (next_row n at t pmm a.now b.now newer.now older.old)
        (n + 1) older.old older.new }
{
    if n == 0 {
        older[0] = pmm;
        return;
    }
    let last = n - 1;
    for m in 0..last {
        older[m] = a[at + m] * t * newer[m] - b[at + m] * older[m];
    }
    older[last] = second(a[at + last], b[at + last], t, newer[last]);
    older[n] = pmm;
}

// Row n of P, from index `at` on: row n of q times the powers of u.
pub fn scale_row(n: usize, at: usize, q: &[f64], r: &[f64], p: &mut [f64])
    requires fact_1 { n < length q.now }
    requires fact_2 { n < length r.now }
    requires fact_3 { at + n < length p.old }
    ensures { Filled at (scaled_row q.now r.now) (n + 1) p.old p.new }
{
    let count = n + 1;
    for m in 0..count {
        p[at + m] = q[m] * r[m];
    }
}

// Row n of q over `older`, and row n of P.
fn row(
    n: usize,
    at: usize,
    t: f64,
    pmm: f64,
    a: &[f64],
    b: &[f64],
    r: &[f64],
    newer: &[f64],
    older: &mut [f64],
    p: &mut [f64],
)
    requires n_in_bounds { (at + n < length a.now) × ((at + n < length b.now) × (at + n < length p.old)) }
    requires n_in_bounds_2 { (n < length r.now) × ((n ≤ length newer.now) × (n < length older.old)) }
    ensures filled { Filled 0
        (next_row n at t pmm a.now b.now newer.now older.old)
        (n + 1) older.old older.new }
    ensures filled_2 { Filled at (scaled_row older.new r.now) (n + 1) p.old p.new }
{
    next_row(n, at, t, pmm, a, b, newer, older);
    scale_row(n, at, older, r, p);
}

// All rows of P, two a turn, with the powers of u in r. The lists `even` and `odd` keep the last row of q of each kind.
fn all_rows(
    nmax: usize,
    t: f64,
    u: f64,
    a: &[f64],
    b: &[f64],
    r: &[f64],
    even: &mut [f64],
    odd: &mut [f64],
    p: &mut [f64],
)
    requires nmax_bound_1 { nmax ≤ 2700 }
    requires nmax_bound_2 { table_size nmax ≤ length a.now }
    requires nmax_bound_3 { table_size nmax ≤ length b.now }
    requires nmax_bound_4 { table_size nmax ≤ length p.old }
    requires nmax_in_bounds_1 { nmax < length r.now }
    requires nmax_in_bounds_2 { nmax < length even.old }
    requires nmax_in_bounds_3 { nmax < length odd.old }
    requires filled { Filled 0 (rescale u) (nmax + 1) r.now r.now }
    ensures { Filled 0 (along (p_cell (from 0 a.now nan) (from 0 b.now nan) t u)) (table_size nmax)
        p.old p.new }
{
    let mut pmm = 1e-280;
    let mut at = 0;
    for pair in 0..(nmax + 1) / 2 {
        let n = 2 * pair;
        row(n, at, t, pmm, a, b, r, odd, even, p);
        let at_odd = at + n + 1;
        let pmm_odd = next_sectoral(n + 1, pmm);
        row(n + 1, at_odd, t, pmm_odd, a, b, r, even, odd, p);
        at = at_odd + n + 2;
        pmm = next_sectoral(n + 2, pmm_odd);
    }
    if nmax % 2 == 0 {
        row(nmax, at, t, pmm, a, b, r, odd, even, p);
    }
}

// The powers of u, then all rows of P.
fn table(
    nmax: usize,
    t: f64,
    u: f64,
    a: &[f64],
    b: &[f64],
    r: &mut [f64],
    even: &mut [f64],
    odd: &mut [f64],
    p: &mut [f64],
)
    requires nmax_bound_1 { nmax ≤ 2700 }
    requires nmax_bound_2 { table_size nmax ≤ length a.now }
    requires nmax_bound_3 { table_size nmax ≤ length b.now }
    requires nmax_bound_4 { table_size nmax ≤ length p.old }
    requires nmax_in_bounds_1 { nmax < length r.old }
    requires nmax_in_bounds_2 { nmax < length even.old }
    requires nmax_in_bounds_3 { nmax < length odd.old }
    ensures { Filled 0 (along (p_cell (from 0 a.now nan) (from 0 b.now nan) t u)) (table_size nmax)
        p.old p.new }
{
    rescales(nmax, u, r);
    all_rows(nmax, t, u, a, b, r, even, odd, p);
}

// The table of P up to a low degree, in short arrays: an array is cleared before it is used.
pub fn compute_short(nmax: usize, t: f64, u: f64, a: &[f64], b: &[f64], p: &mut [f64])
    requires { (nmax ≤ 127) × ((table_size nmax ≤ length a.now) × ((table_size nmax ≤ length b.now) × (table_size nmax ≤ length p.old))) }
    ensures { Filled 0 (along (p_cell (from 0 a.now nan) (from 0 b.now nan) t u)) (table_size nmax)
        p.old p.new }
{
    let mut r = [0.0; 128];
    let mut even = [0.0; 128];
    let mut odd = [0.0; 128];
    table(nmax, t, u, a, b, &mut r, &mut even, &mut odd, p);
}

// The table of P up to any degree.
fn compute_long(nmax: usize, t: f64, u: f64, a: &[f64], b: &[f64], p: &mut [f64])
    requires { (nmax ≤ 2700) × ((table_size nmax ≤ length a.now) × ((table_size nmax ≤ length b.now) × (table_size nmax ≤ length p.old))) }
    ensures { Filled 0 (along (p_cell (from 0 a.now nan) (from 0 b.now nan) t u)) (table_size nmax)
        p.old p.new }
{
    let mut r = [0.0; 2701];
    let mut even = [0.0; 2701];
    let mut odd = [0.0; 2701];
    table(nmax, t, u, a, b, &mut r, &mut even, &mut odd, p);
}

// The table of P up to degree nmax.
pub(crate) fn compute(nmax: usize, t: f64, u: f64, a: &[f64], b: &[f64], p: &mut [f64])
    requires fact_1 { nmax ≤ 2700 }
    requires fact_2 { table_size nmax ≤ length a.now }
    requires fact_3 { table_size nmax ≤ length b.now }
    requires fact_4 { table_size nmax ≤ length p.old }
    ensures { Filled 0 (along (p_cell (from 0 a.now nan) (from 0 b.now nan) t u)) (table_size nmax)
        p.old p.new }
{
    if nmax < 128 {
        compute_short(nmax, t, u, a, b, p);
        return;
    }
    compute_long(nmax, t, u, a, b, p);
}
