// The lists that the points of a call share: the tables of the recursion and the weights of the derivative stand at the front of the working list, all
// else in arrays that are made once a call and lent to every point. The last quarter of the working list is not needed.
ghost use Rattle.std.specs.Prelude.{◌+◌, ◌<◌, length};
ghost use Rattle.local.specs.Point.{along_cell, work_size};
ghost use Rattle.point_lists.specs.Checks.{Accepted};
ghost use Rattle.point_lists.specs.Made.{Made};

use coefficients::Head;

// The tables and the sectoral numbers, then all points; the arrays are overwritten.
fn points_in(
    head: Head,
    c: &[f64],
    s: &[f64],
    points: usize,
    radii: &[f64],
    latitudes: &[f64],
    trig: &[f64],
    guesses: &mut [f64],
    sectorals: &mut [f64],
    rescales: &mut [f64],
    even: &mut [f64],
    odd: &mut [f64],
    p: &mut [f64],
    d: &mut [f64],
    work: &mut [f64],
    out: &mut [f64],
)
    requires accepted { Accepted 4 4 head.nmax (length c.now) (length s.now) points (length radii.now) (length latitudes.now) (length trig.now)
        (length work.old) (length out.old) }
    requires nmax_in_bounds_1 { head.nmax + head.nmax + 1 < length guesses.old }
    requires nmax_in_bounds_2 { head.nmax < length sectorals.old }
    requires nmax_in_bounds_3 { head.nmax < length rescales.old }
    requires nmax_in_bounds_4 { head.nmax < length even.old }
    requires nmax_in_bounds_2_1 { head.nmax < length odd.old }
    requires nmax_in_bounds_2_2 { head.nmax < length p.old }
    requires nmax_in_bounds_2_3 { head.nmax < length d.old }
    ensures { Made
        (along_cell head.gm head.radius head.nmax c.now s.now trig.now radii.now
        latitudes.now)
        4 (work_size head.nmax) points work.old work.new out.old out.new }
{
    let nmax = head.nmax;
    let total = c.len();
    point_lists::tables(nmax, total, guesses, work);
    legendre::rows::sectorals(nmax, sectorals);
    let a = &work[..];
    let b = &a[total..];
    let w = &b[total..];
    crate::points::all_points(
        points,
        head.gm,
        head.radius,
        nmax,
        radii,
        latitudes,
        a,
        b,
        w,
        c,
        s,
        trig,
        sectorals,
        rescales,
        even,
        odd,
        p,
        d,
        out,
    );
}

// A low degree, in short arrays: an array is cleared before it is used.
fn points_short(
    head: Head,
    c: &[f64],
    s: &[f64],
    points: usize,
    radii: &[f64],
    latitudes: &[f64],
    trig: &[f64],
    work: &mut [f64],
    out: &mut [f64],
)
    requires { (Accepted 4 4 head.nmax (length c.now) (length s.now) points (length radii.now) (length latitudes.now) (length trig.now)
        (length work.old) (length out.old)) × (head.nmax < 128) }
    ensures { Made
        (along_cell head.gm head.radius head.nmax c.now s.now trig.now radii.now
        latitudes.now)
        4 (work_size head.nmax) points work.old work.new out.old out.new }
{
    let mut guesses = [0.0; 256];
    let mut sectorals = [0.0; 128];
    let mut rescales = [0.0; 128];
    let mut even = [0.0; 128];
    let mut odd = [0.0; 128];
    let mut p = [0.0; 128];
    let mut d = [0.0; 128];
    points_in(
        head,
        c,
        s,
        points,
        radii,
        latitudes,
        trig,
        &mut guesses,
        &mut sectorals,
        &mut rescales,
        &mut even,
        &mut odd,
        &mut p,
        &mut d,
        work,
        out,
    );
}

// Any degree.
fn points_long(
    head: Head,
    c: &[f64],
    s: &[f64],
    points: usize,
    radii: &[f64],
    latitudes: &[f64],
    trig: &[f64],
    work: &mut [f64],
    out: &mut [f64],
)
    requires { Accepted 4 4 head.nmax (length c.now) (length s.now) points (length radii.now) (length latitudes.now) (length trig.now)
        (length work.old) (length out.old) }
    ensures { Made
        (along_cell head.gm head.radius head.nmax c.now s.now trig.now radii.now
        latitudes.now)
        4 (work_size head.nmax) points work.old work.new out.old out.new }
{
    let mut guesses = [0.0; 5402];
    let mut sectorals = [0.0; 2701];
    let mut rescales = [0.0; 2701];
    let mut even = [0.0; 2701];
    let mut odd = [0.0; 2701];
    let mut p = [0.0; 2701];
    let mut d = [0.0; 2701];
    points_in(
        head,
        c,
        s,
        points,
        radii,
        latitudes,
        trig,
        &mut guesses,
        &mut sectorals,
        &mut rescales,
        &mut even,
        &mut odd,
        &mut p,
        &mut d,
        work,
        out,
    );
}

// The tables and all points of a call whose sizes are accepted.
pub fn compute(
    head: Head,
    c: &[f64],
    s: &[f64],
    points: usize,
    radii: &[f64],
    latitudes: &[f64],
    trig: &[f64],
    work: &mut [f64],
    out: &mut [f64],
)
    requires { Accepted 4 4 head.nmax (length c.now) (length s.now) points (length radii.now) (length latitudes.now) (length trig.now)
        (length work.old) (length out.old) }
    ensures { Made
        (along_cell head.gm head.radius head.nmax c.now s.now trig.now radii.now
        latitudes.now)
        4 (work_size head.nmax) points work.old work.new out.old out.new }
{
    if head.nmax < 128 {
        points_short(head, c, s, points, radii, latitudes, trig, work, out);
        return;
    }
    points_long(head, c, s, points, radii, latitudes, trig, work, out);
}
