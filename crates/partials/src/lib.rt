// The gravitational potential of a field and its first partial derivatives at points.
#![tactic(auto)]

mod points;
mod workspace;

ghost use Rattle.std.specs.Prelude.{◌≡◌, ℕ, ◌*◌, length};
ghost use Rattle.refusal.specs.Numbers.{after, behind, outcome, value_if};
ghost use Rattle.storage.specs.Fill.{fill};
ghost use Rattle.storage.specs.Rectangle.{by_rows};
ghost use Rattle.local.specs.Point.{point_at, along_cell, work_size, partials_check, along_check};

use coefficients::Head;
use legendre::Latitude;
use local::Partials;
use refusal::Refusal;

// V and its derivatives at radius r and one latitude and longitude; `trig` has the cosine and the sine of m times the longitude for the orders m up
// to N. No division by u: at a pole, where u is 0, the sums are what the recursion gives there.
pub fn partials(
    head: Head,
    c: &[f64],
    s: &[f64],
    r: f64,
    latitude: Latitude,
    trig: &[f64],
    work: &mut [f64],
) -> Result<Partials, Refusal>
    ensures value { result ≡ value_if
        (partials_check head.nmax (length c.now) (length s.now) (length trig.now) (length work.old))
        (point_at head.gm head.radius head.nmax c.now s.now trig.now 0 r latitude.t latitude.u) }
    ensures work_unchanged { behind (outcome result) (work_size head.nmax) work.new
        ≡ behind (outcome result) (work_size head.nmax) work.old }
    ensures work_len_unchanged { length work.new ≡ length work.old }
{
    point_lists::point_check(4, head.nmax, c.len(), s.len(), trig.len(), work.len())?;
    let radii = [r];
    let latitudes = [latitude.t, latitude.u];
    let mut out = [0.0; 4];
    workspace::compute(head, c, s, 1, &radii, &latitudes, trig, work, &mut out);
    Ok(Partials {
        v: out[0],
        dr: out[1],
        dlat: out[2],
        dlon: out[3],
    })
}

// The same at many points, four numbers each: V, ∂V/∂r, ∂V/∂φ, ∂V/∂λ. Each point has a radius, a pair of the latitude's sine and cosine, and the
// cosines and sines of its longitude; the tables are worked out once.
pub fn partials_along(
    head: Head,
    c: &[f64],
    s: &[f64],
    points: usize,
    radii: &[f64],
    latitudes: &[f64],
    trig: &[f64],
    work: &mut [f64],
    out: &mut [f64],
) -> Result<(), Refusal>
    ensures value { result ≡ along_check head.nmax (length c.now) (length s.now) points (length radii.now)
        (length latitudes.now) (length trig.now) (length work.old) (length out.old) }
    ensures out_after { out.new ≡ after result
        (fill 0
        (by_rows
        (along_cell head.gm head.radius head.nmax c.now s.now trig.now radii.now
        latitudes.now)
        4)
        (points * 4) out.old)
        out.old }
    ensures work_unchanged { behind result (work_size head.nmax) work.new ≡ behind result (work_size head.nmax) work.old }
    ensures work_len_unchanged { length work.new ≡ length work.old }
{
    point_lists::along_check(
        4,
        4,
        head.nmax,
        c.len(),
        s.len(),
        points,
        radii.len(),
        latitudes.len(),
        trig.len(),
        work.len(),
        out.len(),
    )?;
    workspace::compute(head, c, s, points, radii, latitudes, trig, work, out);
    Ok(())
}
