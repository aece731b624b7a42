// The lists that the rows of a grid share: the tables of the recursion stand at the front of the working list, all else in arrays that are made once a
// call and lent to every row.
ghost use Rattle.std.specs.Prelude.{ℕ, ◌<◌, length};
ghost use Rattle.functional.specs.Factor.{factor_of};
ghost use Rattle.synthesis.specs.Checks.{Accepted};
ghost use Rattle.synthesis.specs.Promise.{Made};

use coefficients::Head;
use functional::Functional;

// The tables, the factors and the sectoral numbers, then all rows; the arrays are overwritten.
fn grid_in(
    head: Head,
    c: &[f64],
    s: &[f64],
    functional: Functional,
    love: &[f64],
    r: f64,
    rows: usize,
    latitudes: &[f64],
    longitudes: usize,
    trig: &[f64],
    factors: &mut [f64],
    sectorals: &mut [f64],
    rescales: &mut [f64],
    even: &mut [f64],
    odd: &mut [f64],
    p: &mut [f64],
    x: &mut [f64],
    y: &mut [f64],
    work: &mut [f64],
    out: &mut [f64],
)
    requires accepted { Accepted head.nmax (length c.now) (length s.now) rows (length latitudes.now) longitudes (length trig.now)
        (length work.old) (length out.old) }
    requires nmax_in_bounds_1 { head.nmax < length factors.old }
    requires nmax_in_bounds_2 { head.nmax < length sectorals.old }
    requires nmax_in_bounds_3 { head.nmax < length rescales.old }
    requires nmax_in_bounds_4 { head.nmax < length even.old }
    requires nmax_in_bounds_2_1 { head.nmax < length odd.old }
    requires nmax_in_bounds_2_2 { head.nmax < length p.old }
    requires nmax_in_bounds_2_3 { head.nmax < length x.old }
    requires nmax_in_bounds_2_4 { head.nmax < length y.old }
    ensures { Made (factor_of functional love.now head.gm head.radius r) latitudes.now
        c.now s.now trig.now head.nmax rows longitudes
        work.old work.new out.old out.new }
{
    let nmax = head.nmax;
    let total = c.len();
    recursion::tables(nmax, total, work);
    functional.factors(love, nmax, head.gm, head.radius, r, factors);
    legendre::rows::sectorals(nmax, sectorals);
    let a = &work[..];
    let b = &a[total..];
    crate::rows::grid_rows(
        nmax, rows, latitudes, longitudes, a, b, c, s, trig, factors, sectorals, rescales, even,
        odd, p, x, y, out,
    );
}

// A low degree, in short arrays: an array is cleared before it is used.
fn grid_short(
    head: Head,
    c: &[f64],
    s: &[f64],
    functional: Functional,
    love: &[f64],
    r: f64,
    rows: usize,
    latitudes: &[f64],
    longitudes: usize,
    trig: &[f64],
    work: &mut [f64],
    out: &mut [f64],
)
    requires { (Accepted head.nmax (length c.now) (length s.now) rows (length latitudes.now) longitudes (length trig.now)
        (length work.old) (length out.old)) × (head.nmax < 128) }
    ensures { Made (factor_of functional love.now head.gm head.radius r) latitudes.now
        c.now s.now trig.now head.nmax rows longitudes
        work.old work.new out.old out.new }
{
    let mut factors = [0.0; 128];
    let mut sectorals = [0.0; 128];
    let mut rescales = [0.0; 128];
    let mut even = [0.0; 128];
    let mut odd = [0.0; 128];
    let mut p = [0.0; 128];
    let mut x = [0.0; 128];
    let mut y = [0.0; 128];
    grid_in(
        head,
        c,
        s,
        functional,
        love,
        r,
        rows,
        latitudes,
        longitudes,
        trig,
        &mut factors,
        &mut sectorals,
        &mut rescales,
        &mut even,
        &mut odd,
        &mut p,
        &mut x,
        &mut y,
        work,
        out,
    );
}

// Any degree.
fn grid_long(
    head: Head,
    c: &[f64],
    s: &[f64],
    functional: Functional,
    love: &[f64],
    r: f64,
    rows: usize,
    latitudes: &[f64],
    longitudes: usize,
    trig: &[f64],
    work: &mut [f64],
    out: &mut [f64],
)
    requires { Accepted head.nmax (length c.now) (length s.now) rows (length latitudes.now) longitudes (length trig.now)
        (length work.old) (length out.old) }
    ensures { Made (factor_of functional love.now head.gm head.radius r) latitudes.now
        c.now s.now trig.now head.nmax rows longitudes
        work.old work.new out.old out.new }
{
    let mut factors = [0.0; 2701];
    let mut sectorals = [0.0; 2701];
    let mut rescales = [0.0; 2701];
    let mut even = [0.0; 2701];
    let mut odd = [0.0; 2701];
    let mut p = [0.0; 2701];
    let mut x = [0.0; 2701];
    let mut y = [0.0; 2701];
    grid_in(
        head,
        c,
        s,
        functional,
        love,
        r,
        rows,
        latitudes,
        longitudes,
        trig,
        &mut factors,
        &mut sectorals,
        &mut rescales,
        &mut even,
        &mut odd,
        &mut p,
        &mut x,
        &mut y,
        work,
        out,
    );
}

// The tables and all rows of a grid whose sizes are accepted.
pub fn compute(
    head: Head,
    c: &[f64],
    s: &[f64],
    functional: Functional,
    love: &[f64],
    r: f64,
    rows: usize,
    latitudes: &[f64],
    longitudes: usize,
    trig: &[f64],
    work: &mut [f64],
    out: &mut [f64],
)
    requires { Accepted head.nmax (length c.now) (length s.now) rows (length latitudes.now) longitudes (length trig.now)
        (length work.old) (length out.old) }
    ensures { Made (factor_of functional love.now head.gm head.radius r) latitudes.now
        c.now s.now trig.now head.nmax rows longitudes
        work.old work.new out.old out.new }
{
    if head.nmax < 128 {
        grid_short(
            head, c, s, functional, love, r, rows, latitudes, longitudes, trig, work, out,
        );
        return;
    }
    grid_long(
        head, c, s, functional, love, r, rows, latitudes, longitudes, trig, work, out,
    );
}
