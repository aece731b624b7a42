// The working list of a call: the tables of the recursion, the weights of the derivative and the sectoral numbers stand at its front, for all points,
// and behind them the powers of u of the point at hand; the rest is not needed. Two rows of the recursion alone are in an array. What is filled in before
// the points takes another array, which is given up before that one is made: so a call lives on one of them.
ghost use Rattle.std.specs.Prelude.{◌≡◌, ℕ, ◌+◌, ◌≤◌, length};
ghost use Rattle.storage.specs.Triangle.{table_size};
ghost use Rattle.local.specs.Second.{second_cell, second_size};
ghost use Rattle.point_lists.specs.Checks.{Accepted};
ghost use Rattle.point_lists.specs.Made.{Made};
ghost use Rattle.point_lists.specs.Tables.{with_weights};
ghost use Rattle.second_partials.specs.Working.{Prepared, Worked};

use coefficients::Head;

// The tables, with a short list of guesses for a low degree: an array is cleared before it is used.
fn tables(nmax: usize, total: usize, work: &mut [f64])
    requires { (nmax ≤ 2700) × ((total ≡ table_size nmax) × (total + total + total ≤ length work.old)) }
    ensures { work.new ≡ with_weights nmax work.old }
{
    if nmax < 128 {
        let mut guesses = [0.0; 256];
        point_lists::tables(nmax, total, &mut guesses, work);
    } else {
        let mut guesses = [0.0; 5402];
        point_lists::tables(nmax, total, &mut guesses, work);
    }
}

// The tables and the sectoral numbers.
fn prepare(nmax: usize, total: usize, work: &mut [f64])
    requires fact_1 { nmax ≤ 2700 }
    requires fact_2 { total ≡ table_size nmax }
    requires fact_3 { second_size nmax ≤ length work.old }
    ensures { Worked nmax work.old work.new }
{
    tables(nmax, total, work);
    let at = total + total + total;
    legendre::rows::sectorals(nmax, &mut work[at..]);
}

// All points, with short rows for a low degree.
fn points_in(
    head: Head,
    c: &[f64],
    s: &[f64],
    points: usize,
    radii: &[f64],
    latitudes: &[f64],
    trig: &[f64],
    work: &mut [f64],
    out: &mut [f64],
)
    requires fact_1 { Accepted 5 10 head.nmax (length c.now) (length s.now) points (length radii.now) (length latitudes.now) (length trig.now)
        (length work.old) (length out.old) }
    requires fact_2 { Prepared head.nmax work.old }
    ensures { Made
        (second_cell head.gm head.radius head.nmax c.now s.now trig.now radii.now
        latitudes.now)
        10 (second_size head.nmax) points work.old work.new out.old out.new }
{
    let nmax = head.nmax;
    let total = c.len();
    if nmax < 128 {
        let mut rows = [0.0; 256];
        crate::points::all_points(
            points,
            head.gm,
            head.radius,
            nmax,
            total,
            radii,
            latitudes,
            c,
            s,
            trig,
            work,
            &mut rows,
            out,
        );
    } else {
        let mut rows = [0.0; 5402];
        crate::points::all_points(
            points,
            head.gm,
            head.radius,
            nmax,
            total,
            radii,
            latitudes,
            c,
            s,
            trig,
            work,
            &mut rows,
            out,
        );
    }
}

// The tables and all points of a call whose sizes are accepted.
pub fn compute(
    head: Head,
    c: &[f64],
    s: &[f64],
    points: usize,
    radii: &[f64],
    latitudes: &[f64],
    trig: &[f64],
    work: &mut [f64],
    out: &mut [f64],
)
    requires { Accepted 5 10 head.nmax (length c.now) (length s.now) points (length radii.now) (length latitudes.now) (length trig.now)
        (length work.old) (length out.old) }
    ensures { Made
        (second_cell head.gm head.radius head.nmax c.now s.now trig.now radii.now
        latitudes.now)
        10 (second_size head.nmax) points work.old work.new out.old out.new }
{
    prepare(head.nmax, c.len(), work);
    points_in(head, c, s, points, radii, latitudes, trig, work, out);
}
