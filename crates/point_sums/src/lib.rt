// The sums over the degrees at one point. Neither the Legendre functions nor their derivatives are stored: each row is worked out from the two rows
// of the recursion before it, and its numbers are added at once.
#![tactic(auto)]

ghost use Rattle.std.specs.Prelude.{◌≡◌, ℕ, ◌+◌, ◌≤◌, ◌<◌, length, get_or};
ghost use Rattle.std.specs.Float.{nan};
ghost use Rattle.storage.specs.Elements.{from};
ghost use Rattle.storage.specs.Filled.{Filled};
ghost use Rattle.recursion.specs.Recursion.{pmm, rescale};
ghost use Rattle.legendre.specs.Rows.{next_row, scaled_row};
ghost use Rattle.derivative.specs.Derivative.{derived_row};
ghost use Rattle.local.specs.Point.{even_term, east_term, order_sum};
ghost use Rattle.point_lists.specs.Tables.{Tabled};
ghost use Rattle.point_sums.specs.Sums.{cosine_from, sine_from, with_row, with_degree, PointRoom, point_sums};

// The sums of one degree over its orders: of P, of its derivative by latitude, and of its derivative by longitude.
#[derive(Clone, Copy)]
pub struct RowSums {
    pub even: f64,
    pub north: f64,
    pub east: f64,
}

// The sums over the degrees so far, and the next power of radius / r.
#[derive(Clone, Copy)]
pub struct DegreeSums {
    pub power: f64,
    pub v: f64,
    pub dr: f64,
    pub dlat: f64,
    pub dlon: f64,
}

// The sums of degree n, with its rows in p and d; its coefficients start at index `at`, the point's cosines and sines at index k.
fn row_sums(
    n: usize,
    at: usize,
    k: usize,
    p: &[f64],
    d: &[f64],
    c: &[f64],
    s: &[f64],
    trig: &[f64],
) -> RowSums
    requires n_bound_1 { n ≤ 2700 }
    requires n_bound_2 { n < length p.now }
    requires n_bound_3 { n < length d.now }
    requires n_in_bounds_1 { at + n < length c.now }
    requires n_in_bounds_2 { at + n < length s.now }
    requires n_in_bounds_3 { k + (n + n + 1) < length trig.now }
    ensures even_value { result.even ≡ order_sum (even_term (from 0 p.now nan) (from at c.now nan) (from at s.now nan)
        (cosine_from k trig.now) (sine_from k trig.now)) n }
    ensures north_value { result.north ≡ order_sum (even_term (from 0 d.now nan) (from at c.now nan) (from at s.now nan)
        (cosine_from k trig.now) (sine_from k trig.now)) n }
    ensures east_value { result.east ≡ order_sum (east_term (from 0 p.now nan) (from at c.now nan) (from at s.now nan)
        (cosine_from k trig.now) (sine_from k trig.now)) n }
{
    let count = n + 1;
    let mut even = 0.0;
    let mut north = 0.0;
    let mut east = 0.0;
    // m as a number, counted along since a cast takes longer
    let mut mf = 0.0;
    for m in 0..count {
        let cos = trig[k + (m + m)];
        let sin = trig[k + (m + m + 1)];
        let cm = c[at + m];
        let sm = s[at + m];
        let pm = p[m];
        let both = cm * cos + sm * sin;
        even = even + pm * both;
        north = north + d[m] * both;
        east = east + pm * mf * (sm * cos - cm * sin);
        mf = mf + 1.0;
    }
    RowSums { even, north, east }
}

// The sums of degree n added to those of the degrees below it, each times its power of q.
fn add_row(n: usize, q: f64, sums: DegreeSums, row: RowSums) -> DegreeSums
    requires { n ≤ 2700 }
    ensures { result ≡ with_row n q row.even row.north row.east sums }
{
    let power = sums.power;
    let nf = (n + 1) as f64;
    DegreeSums {
        power: power * q,
        v: sums.v + power * row.even,
        dr: sums.dr - nf * power * row.even,
        dlat: sums.dlat + power * row.north,
        dlon: sums.dlon + power * row.east,
    }
}

// Degree n: row n of the recursion over `older`, row n of P to p, its derivative to d, and their sums added.
fn add_degree(
    n: usize,
    at: usize,
    k: usize,
    q: f64,
    t: f64,
    sums: DegreeSums,
    a: &[f64],
    b: &[f64],
    w: &[f64],
    c: &[f64],
    s: &[f64],
    trig: &[f64],
    sectorals: &[f64],
    r: &[f64],
    newer: &[f64],
    older: &mut [f64],
    p: &mut [f64],
    d: &mut [f64],
) -> DegreeSums
    requires n_in_bounds_1 { at + n < length a.now }
    requires n_in_bounds_2 { at + n < length b.now }
    requires n_in_bounds_3 { at + n < length w.now }
    requires n_in_bounds_4 { at + n < length c.now }
    requires n_in_bounds_5 { at + n < length s.now }
    requires n_bound_1 { n ≤ 2700 }
    requires n_bound_2 { k + (n + n + 1) < length trig.now }
    requires n_bound_3 { n < length sectorals.now }
    requires n_bound_4 { n < length r.now }
    requires n_bound_5 { n ≤ length newer.now }
    requires n_in_bounds_2_1 { n < length older.old }
    requires n_in_bounds_2_2 { n < length p.old }
    requires n_in_bounds_2_3 { n < length d.old }
    ensures filled { Filled 0
        (next_row n at t (get_or sectorals.now n nan) a.now b.now newer.now older.old)
        (n + 1) older.old older.new }
    ensures filled_2 { Filled 0 (scaled_row older.new r.now) (n + 1) p.old p.new }
    ensures filled_3 { Filled 0 (derived_row n (from at w.now nan) (from 0 p.new nan)) (n + 1)
        d.old d.new }
    ensures value { result ≡ with_degree n q (from 0 p.new nan) (from 0 d.new nan) (from at c.now nan)
        (from at s.now nan) (cosine_from k trig.now) (sine_from k trig.now) sums }
{
    legendre::rows::next_row(n, at, t, sectorals[n], a, b, newer, older);
    legendre::rows::scale_row(n, 0, older, r, p);
    derivative::derive_row(n, at, 0, w, p, d);
    let row = row_sums(n, at, k, p, d, c, s, trig);
    add_row(n, q, sums, row)
}

// All degrees, two a turn, with the powers of u in r. The lists `even` and `odd` keep the last row of the recursion of each kind.
pub fn add_degrees(
    nmax: usize,
    k: usize,
    q: f64,
    t: f64,
    u: f64,
    a: &[f64],
    b: &[f64],
    w: &[f64],
    c: &[f64],
    s: &[f64],
    trig: &[f64],
    sectorals: &[f64],
    r: &[f64],
    even: &mut [f64],
    odd: &mut [f64],
    p: &mut [f64],
    d: &mut [f64],
) -> DegreeSums
    requires point_room { PointRoom nmax (length a.now) (length b.now) (length w.now) (length c.now) (length s.now) (length sectorals.now)
        (length r.now) (length even.old) (length odd.old) (length p.old) (length d.old) }
    requires nmax_in_bounds_1 { k + (nmax + nmax + 1) < length trig.now }
    requires nmax_in_bounds_2 { Tabled nmax a.now b.now w.now }
    requires nmax_in_bounds_3 { Filled 0 pmm (nmax + 1) sectorals.now sectorals.now }
    requires nmax_in_bounds_4 { Filled 0 (rescale u) (nmax + 1) r.now r.now }
    ensures { result ≡ point_sums q t u k c.now s.now trig.now (nmax + 1) }
{
    let mut sums = DegreeSums {
        power: 1.0,
        v: 0.0,
        dr: 0.0,
        dlat: 0.0,
        dlon: 0.0,
    };
    let mut at = 0;
    for pair in 0..(nmax + 1) / 2 {
        let n = 2 * pair;
        let first = add_degree(
            n, at, k, q, t, sums, a, b, w, c, s, trig, sectorals, r, odd, even, p, d,
        );
        let at_odd = at + n + 1;
        sums = add_degree(
            n + 1,
            at_odd,
            k,
            q,
            t,
            first,
            a,
            b,
            w,
            c,
            s,
            trig,
            sectorals,
            r,
            even,
            odd,
            p,
            d,
        );
        at = at_odd + n + 2;
    }
    if nmax % 2 == 1 {
        return sums;
    }
    add_degree(
        nmax, at, k, q, t, sums, a, b, w, c, s, trig, sectorals, r, odd, even, p, d,
    )
}
