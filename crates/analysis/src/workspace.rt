// The lists that the rows share: the tables of the recursion stand at the front of the working list, all else in arrays that are made once a call and
// lent to every row.
ghost use Rattle.std.specs.Prelude.{◌+◌, ◌<◌, length};
ghost use Rattle.functional.specs.Factor.{factor_of};
ghost use Rattle.analysis.specs.Checks.{Accepted};
ghost use Rattle.analysis.specs.Promise.{Summed, Made};

use functional::Functional;

// The sums over all rows; the arrays are overwritten.
fn sum_rows(
    nmax: usize,
    values: &[f64],
    weights: &[f64],
    latitudes: &[f64],
    trig: &[f64],
    sectorals: &mut [f64],
    rescales: &mut [f64],
    even: &mut [f64],
    odd: &mut [f64],
    sums: &mut [f64],
    work: &mut [f64],
    c: &mut [f64],
    s: &mut [f64],
)
    requires accepted { Accepted nmax (length values.now) (length weights.now) (length latitudes.now) (length trig.now)
        (length work.old) (length c.old) (length s.old) }
    requires nmax_in_bounds_1 { nmax < length sectorals.old }
    requires nmax_in_bounds_2 { nmax < length rescales.old }
    requires nmax_in_bounds_3 { nmax < length even.old }
    requires nmax_in_bounds_4 { nmax < length odd.old }
    requires nmax_in_bounds_5 { nmax + nmax + 1 < length sums.old }
    ensures { Summed values.now weights.now latitudes.now trig.now nmax
        work.old work.new c.old c.new s.old s.new }
{
    let total = storage::table_size(nmax);
    let longitudes = nmax + nmax + 2;
    recursion::tables(nmax, total, work);
    legendre::rows::sectorals(nmax, sectorals);
    storage::clear(total, c);
    storage::clear(total, s);
    let a = &work[..];
    let b = &a[total..];
    crate::rows::add_rows(
        nmax, longitudes, values, weights, latitudes, trig, a, b, sectorals, rescales, even, odd,
        sums, c, s,
    );
}

// The sums over all rows, then their division.
fn analysis_in(
    functional: Functional,
    love: &[f64],
    r: f64,
    nmax: usize,
    gm: f64,
    radius: f64,
    values: &[f64],
    weights: &[f64],
    latitudes: &[f64],
    trig: &[f64],
    factors: &mut [f64],
    sectorals: &mut [f64],
    rescales: &mut [f64],
    even: &mut [f64],
    odd: &mut [f64],
    sums: &mut [f64],
    work: &mut [f64],
    c: &mut [f64],
    s: &mut [f64],
)
    requires accepted { Accepted nmax (length values.now) (length weights.now) (length latitudes.now) (length trig.now)
        (length work.old) (length c.old) (length s.old) }
    requires nmax_in_bounds_1 { nmax < length factors.old }
    requires nmax_in_bounds_2 { nmax < length sectorals.old }
    requires nmax_in_bounds_3 { nmax < length rescales.old }
    requires nmax_in_bounds_4 { nmax < length even.old }
    requires nmax_in_bounds_2_1 { nmax < length odd.old }
    requires nmax_in_bounds_2_2 { nmax + nmax + 1 < length sums.old }
    ensures { Made values.now weights.now latitudes.now trig.now nmax
        (factor_of functional love.now gm radius r)
        work.old work.new c.old c.new s.old s.new }
{
    sum_rows(
        nmax, values, weights, latitudes, trig, sectorals, rescales, even, odd, sums, work, c, s,
    );
    legendre_analysis::division::divide(functional, love, r, nmax, gm, radius, factors, c, s);
}

// A low degree, in short arrays: an array is cleared before it is used.
fn analysis_short(
    functional: Functional,
    love: &[f64],
    r: f64,
    nmax: usize,
    gm: f64,
    radius: f64,
    values: &[f64],
    weights: &[f64],
    latitudes: &[f64],
    trig: &[f64],
    work: &mut [f64],
    c: &mut [f64],
    s: &mut [f64],
)
    requires { (Accepted nmax (length values.now) (length weights.now) (length latitudes.now) (length trig.now)
        (length work.old) (length c.old) (length s.old)) × (nmax < 128) }
    ensures { Made values.now weights.now latitudes.now trig.now nmax
        (factor_of functional love.now gm radius r)
        work.old work.new c.old c.new s.old s.new }
{
    let mut factors = [0.0; 128];
    let mut sectorals = [0.0; 128];
    let mut rescales = [0.0; 128];
    let mut even = [0.0; 128];
    let mut odd = [0.0; 128];
    let mut sums = [0.0; 256];
    analysis_in(
        functional,
        love,
        r,
        nmax,
        gm,
        radius,
        values,
        weights,
        latitudes,
        trig,
        &mut factors,
        &mut sectorals,
        &mut rescales,
        &mut even,
        &mut odd,
        &mut sums,
        work,
        c,
        s,
    );
}

// Any degree.
fn analysis_long(
    functional: Functional,
    love: &[f64],
    r: f64,
    nmax: usize,
    gm: f64,
    radius: f64,
    values: &[f64],
    weights: &[f64],
    latitudes: &[f64],
    trig: &[f64],
    work: &mut [f64],
    c: &mut [f64],
    s: &mut [f64],
)
    requires { Accepted nmax (length values.now) (length weights.now) (length latitudes.now) (length trig.now)
        (length work.old) (length c.old) (length s.old) }
    ensures { Made values.now weights.now latitudes.now trig.now nmax
        (factor_of functional love.now gm radius r)
        work.old work.new c.old c.new s.old s.new }
{
    let mut factors = [0.0; 2701];
    let mut sectorals = [0.0; 2701];
    let mut rescales = [0.0; 2701];
    let mut even = [0.0; 2701];
    let mut odd = [0.0; 2701];
    let mut sums = [0.0; 5402];
    analysis_in(
        functional,
        love,
        r,
        nmax,
        gm,
        radius,
        values,
        weights,
        latitudes,
        trig,
        &mut factors,
        &mut sectorals,
        &mut rescales,
        &mut even,
        &mut odd,
        &mut sums,
        work,
        c,
        s,
    );
}

// The coefficients of values whose sizes are accepted.
pub fn compute(
    functional: Functional,
    love: &[f64],
    r: f64,
    nmax: usize,
    gm: f64,
    radius: f64,
    values: &[f64],
    weights: &[f64],
    latitudes: &[f64],
    trig: &[f64],
    work: &mut [f64],
    c: &mut [f64],
    s: &mut [f64],
)
    requires { Accepted nmax (length values.now) (length weights.now) (length latitudes.now) (length trig.now)
        (length work.old) (length c.old) (length s.old) }
    ensures { Made values.now weights.now latitudes.now trig.now nmax
        (factor_of functional love.now gm radius r)
        work.old work.new c.old c.new s.old s.new }
{
    if nmax < 128 {
        analysis_short(
            functional, love, r, nmax, gm, radius, values, weights, latitudes, trig, work, c, s,
        );
        return;
    }
    analysis_long(
        functional, love, r, nmax, gm, radius, values, weights, latitudes, trig, work, c, s,
    );
}
