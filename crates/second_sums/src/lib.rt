// The sums over the degrees at one point for the second derivatives. The functions P are not stored, nor are their derivatives by latitude: each
// degree goes once over its orders, with P two orders ahead, its first derivative one order ahead and its second one at hand. Of the recursion two rows
// are kept, in one list of pairs: at index 2m the number of order m in the last row, at index 2m + 1 the one in the row before it.
#![tactic(auto)]

ghost use Rattle.std.specs.Prelude.{◌≡◌, ℕ, ◌+◌, ◌-◌, ◌*◌, ◌≤◌, ◌<◌, length, get_or};
ghost use Rattle.std.specs.Float.{nan};
ghost use Rattle.storage.specs.Elements.{from};
ghost use Rattle.storage.specs.Filled.{Filled};
ghost use Rattle.storage.specs.Rectangle.{by_rows};
ghost use Rattle.recursion.specs.Recursion.{pmm, rescale};
ghost use Rattle.point_lists.specs.Tables.{Tabled};
ghost use Rattle.second_sums.specs.Pairs.{next_pair, scaled_pair};
ghost use Rattle.second_sums.specs.Window.{up_to, derived_from};
ghost use Rattle.second_sums.specs.Sums.{row_sums, with_row, SecondRoom, second_sums};

// The sums of one degree over its orders: of P, and of its derivatives by latitude and longitude.
#[derive(Clone, Copy)]
pub struct SecondRow {
    pub v: f64,
    pub lat: f64,
    pub latlat: f64,
    pub lon: f64,
    pub lonlon: f64,
    pub latlon: f64,
}

// The sums over the degrees so far, and the next power of radius / r.
#[derive(Clone, Copy)]
pub struct SecondSums {
    pub power: f64,
    pub v: f64,
    pub dr: f64,
    pub dlat: f64,
    pub dlon: f64,
    pub drr: f64,
    pub dlatlat: f64,
    pub dlonlon: f64,
    pub drlat: f64,
    pub drlon: f64,
    pub dlatlon: f64,
}

// The orders below n - 1 of row n, as `next_pairs` has them.
fn inner_pairs(n: usize, at: usize, t: f64, pmm: f64, a: &[f64], b: &[f64], rows: &mut [f64])
    requires fact_1 { 1 ≤ n }
    requires fact_2 { n ≤ 2700 }
    requires fact_3 { at + n < length a.now }
    requires fact_4 { at + n < length b.now }
    requires fact_5 { n + n < length rows.old }
    ensures { Filled 0 (by_rows (next_pair n at t pmm a.now b.now rows.old) 2) ((n - 1) * 2)
        rows.old rows.new }
{
    let last = n - 1;
    for m in 0..last {
        let newer = rows[m + m];
        let older = rows[m + m + 1];
        rows[m + m] = a[at + m] * t * newer - b[at + m] * older;
        rows[m + m + 1] = newer;
    }
}

// Row n of the recursion, with its sectoral number pmm, from the two rows before it; its coefficients start at index `at`.
fn next_pairs(n: usize, at: usize, t: f64, pmm: f64, a: &[f64], b: &[f64], rows: &mut [f64])
    requires fact_1 { n ≤ 2700 }
    requires fact_2 { at + n < length a.now }
    requires fact_3 { at + n < length b.now }
    requires fact_4 { n + n < length rows.old }
    ensures { Filled 0 (by_rows (next_pair n at t pmm a.now b.now rows.old) 2) (n + n + 1)
        rows.old rows.new }
{
    if n == 0 {
        rows[0] = pmm;
        return;
    }
    inner_pairs(n, at, t, pmm, a, b, rows);
    let m = n - 1;
    let newer = rows[m + m];
    // the second number of a column has its sectoral number alone before it; the product by 0 stays: an infinite b gives NaN
    rows[m + m] = a[at + m] * t * newer - b[at + m] * 0.0;
    rows[m + m + 1] = newer;
    rows[n + n] = pmm;
}

// P at order m of the degree n whose row is the last of the pairs; beyond the degree there is none, and 0 stands for it.
fn scaled(n: usize, m: usize, rows: &[f64], r: &[f64]) -> f64
    requires fact_1 { n + n < length rows.now }
    requires fact_2 { n < length r.now }
    ensures { result ≡ up_to n (scaled_pair rows.now r.now) m }
{
    if m > n {
        return 0.0;
    }
    rows[m + m] * r[m]
}

// The derivative by latitude at order m of degree n, from the numbers at the orders below and above; the degree's weights start at index `at`.
// Beyond the degree there is none, and 0 stands for it.
fn derived(n: usize, m: usize, at: usize, w: &[f64], below: f64, above: f64) -> f64
    requires fact_1 { n ≤ 2700 }
    requires fact_2 { at + n < length w.now }
    ensures { result ≡ derived_from n (from at w.now nan) m below above }
{
    if m < n {
        if m == 0 {
            return w[at + m] * above;
        }
        return -0.5 * (w[at + m] * below - w[at + (m + 1)] * above);
    }
    if m > n {
        return 0.0;
    }
    if n == 0 {
        return 0.0;
    }
    -0.5 * (w[at + n] * below - 0.0)
}

// The sums of degree n, whose row is the last of the pairs; its weights and coefficients start at index `at`, the point's cosines and sines at
// index k.
fn row_sums(
    n: usize,
    at: usize,
    k: usize,
    rows: &[f64],
    r: &[f64],
    w: &[f64],
    c: &[f64],
    s: &[f64],
    trig: &[f64],
) -> SecondRow
    requires n_bound_1 { n ≤ 2700 }
    requires n_bound_2 { n + n < length rows.now }
    requires n_bound_3 { n < length r.now }
    requires n_bound_4 { at + n < length w.now }
    requires n_in_bounds_1 { at + n < length c.now }
    requires n_in_bounds_2 { at + n < length s.now }
    requires n_in_bounds_3 { k + (n + n + 1) < length trig.now }
    ensures { result ≡ row_sums n at k rows.now r.now w.now c.now s.now trig.now }
{
    let count = n + 1;
    let mut p = scaled(n, 0, rows, r);
    let mut above = scaled(n, 1, rows, r);
    let mut behind = 0.0;
    let mut d = derived(n, 0, at, w, 0.0, above);
    let mut v = 0.0;
    let mut lat = 0.0;
    let mut latlat = 0.0;
    let mut lon = 0.0;
    let mut lonlon = 0.0;
    let mut latlon = 0.0;
    // m as a number, counted along since a cast takes longer
    let mut mf = 0.0;
    for m in 0..count {
        let beyond = scaled(n, m + 2, rows, r);
        let ahead = derived(n, m + 1, at, w, p, beyond);
        let dd = derived(n, m, at, w, behind, ahead);
        let cos = trig[k + (m + m)];
        let sin = trig[k + (m + m + 1)];
        let cm = c[at + m];
        let sm = s[at + m];
        let both = cm * cos + sm * sin;
        let across = mf * (sm * cos - cm * sin);
        v = v + p * both;
        lat = lat + d * both;
        latlat = latlat + dd * both;
        lon = lon + p * across;
        lonlon = lonlon - p * mf * mf * both;
        latlon = latlon + d * across;
        p = above;
        above = beyond;
        behind = d;
        d = ahead;
        mf = mf + 1.0;
    }
    SecondRow {
        v,
        lat,
        latlat,
        lon,
        lonlon,
        latlon,
    }
}

// The sums of degree n added to those of the degrees below it, each times its power of q.
fn add_row(n: usize, q: f64, sums: SecondSums, row: SecondRow) -> SecondSums
    requires { n ≤ 2700 }
    ensures { result ≡ with_row n q row sums }
{
    let power = sums.power;
    let n1 = (n + 1) as f64;
    let n12 = ((n + 1) * (n + 2)) as f64;
    SecondSums {
        power: power * q,
        v: sums.v + power * row.v,
        dr: sums.dr + power * (-n1 * row.v),
        dlat: sums.dlat + power * row.lat,
        dlon: sums.dlon + power * row.lon,
        drr: sums.drr + power * (n12 * row.v),
        dlatlat: sums.dlatlat + power * row.latlat,
        dlonlon: sums.dlonlon + power * row.lonlon,
        drlat: sums.drlat + power * (-n1 * row.lat),
        drlon: sums.drlon + power * (-n1 * row.lon),
        dlatlon: sums.dlatlon + power * row.latlon,
    }
}

// Degree n: row n of the recursion, and the sums of its orders added.
fn add_degree(
    n: usize,
    at: usize,
    k: usize,
    q: f64,
    t: f64,
    sums: SecondSums,
    a: &[f64],
    b: &[f64],
    w: &[f64],
    c: &[f64],
    s: &[f64],
    trig: &[f64],
    sectorals: &[f64],
    r: &[f64],
    rows: &mut [f64],
) -> SecondSums
    requires n_in_bounds_1 { at + n < length a.now }
    requires n_in_bounds_2 { at + n < length b.now }
    requires n_in_bounds_3 { at + n < length w.now }
    requires n_in_bounds_4 { at + n < length c.now }
    requires n_in_bounds_5 { at + n < length s.now }
    requires n_bound_1 { n ≤ 2700 }
    requires n_bound_2 { k + (n + n + 1) < length trig.now }
    requires n_bound_3 { n < length sectorals.now }
    requires n_bound_4 { n < length r.now }
    requires n_bound_5 { n + n < length rows.old }
    ensures filled { Filled 0
        (by_rows (next_pair n at t (get_or sectorals.now n nan) a.now b.now rows.old) 2)
        (n + n + 1) rows.old rows.new }
    ensures value { result ≡ with_row n q
        (row_sums n at k rows.new r.now w.now c.now s.now trig.now) sums }
{
    next_pairs(n, at, t, sectorals[n], a, b, rows);
    let row = row_sums(n, at, k, rows, r, w, c, s, trig);
    add_row(n, q, sums, row)
}

// All degrees, with the powers of u in r; `rows` is overwritten.
pub fn add_degrees(
    nmax: usize,
    k: usize,
    q: f64,
    t: f64,
    u: f64,
    a: &[f64],
    b: &[f64],
    w: &[f64],
    c: &[f64],
    s: &[f64],
    trig: &[f64],
    sectorals: &[f64],
    r: &[f64],
    rows: &mut [f64],
) -> SecondSums
    requires second_room { SecondRoom nmax (length a.now) (length b.now) (length w.now) (length c.now) (length s.now) (length sectorals.now)
        (length r.now) (length rows.old) }
    requires nmax_in_bounds_1 { k + (nmax + nmax + 1) < length trig.now }
    requires nmax_in_bounds_2 { Tabled nmax a.now b.now w.now }
    requires nmax_in_bounds_3 { Filled 0 pmm (nmax + 1) sectorals.now sectorals.now }
    requires nmax_in_bounds_4 { Filled 0 (rescale u) (nmax + 1) r.now r.now }
    ensures { result ≡ second_sums q t u k c.now s.now trig.now (nmax + 1) }
{
    let mut sums = SecondSums {
        power: 1.0,
        v: 0.0,
        dr: 0.0,
        dlat: 0.0,
        dlon: 0.0,
        drr: 0.0,
        dlatlat: 0.0,
        dlonlon: 0.0,
        drlat: 0.0,
        drlon: 0.0,
        dlatlon: 0.0,
    };
    let mut at = 0;
    for n in 0..nmax + 1 {
        sums = add_degree(
            n, at, k, q, t, sums, a, b, w, c, s, trig, sectorals, r, rows,
        );
        at = at + n + 1;
    }
    sums
}
