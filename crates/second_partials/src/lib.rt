// The gravitational potential of a field with its first and second partial derivatives at points.
#![tactic(auto)]

mod points;
mod workspace;

ghost use Rattle.std.specs.Prelude.{◌≡◌, ℕ, ◌*◌, length};
ghost use Rattle.refusal.specs.Numbers.{after, behind, outcome, value_if};
ghost use Rattle.storage.specs.Fill.{fill};
ghost use Rattle.storage.specs.Rectangle.{by_rows};
ghost use Rattle.local.specs.Second.{second_at, second_cell, second_size, second_check, second_along_check};

use coefficients::Head;
use legendre::Latitude;
use local::{Partials, SecondPartials};
use refusal::Refusal;

// V with its first and second derivatives at radius r and one latitude and longitude; `trig` has the cosine and the sine of m times the longitude
// for the orders m up to N. No division by u: at a pole, where u is 0, the sums are what the recursion gives there.
pub fn second_partials(
    head: Head,
    c: &[f64],
    s: &[f64],
    r: f64,
    latitude: Latitude,
    trig: &[f64],
    work: &mut [f64],
) -> Result<SecondPartials, Refusal>
    ensures value { result ≡ value_if
        (second_check head.nmax (length c.now) (length s.now) (length trig.now) (length work.old))
        (second_at head.gm head.radius head.nmax c.now s.now trig.now 0 r latitude.t latitude.u) }
    ensures work_unchanged { behind (outcome result) (second_size head.nmax) work.new
        ≡ behind (outcome result) (second_size head.nmax) work.old }
    ensures work_len_unchanged { length work.new ≡ length work.old }
{
    point_lists::point_check(5, head.nmax, c.len(), s.len(), trig.len(), work.len())?;
    let radii = [r];
    let latitudes = [latitude.t, latitude.u];
    let mut out = [0.0; 10];
    workspace::compute(head, c, s, 1, &radii, &latitudes, trig, work, &mut out);
    Ok(SecondPartials {
        first: Partials {
            v: out[0],
            dr: out[1],
            dlat: out[2],
            dlon: out[3],
        },
        drr: out[4],
        dlatlat: out[5],
        dlonlon: out[6],
        drlat: out[7],
        drlon: out[8],
        dlatlon: out[9],
    })
}

// The same at many points, ten numbers each: V, ∂V/∂r, ∂V/∂φ, ∂V/∂λ, then ∂²V by rr, φφ, λλ, rφ, rλ, φλ. Each point has a radius, a pair of the
// latitude's sine and cosine, and the cosines and sines of its longitude; the tables are worked out once.
pub fn second_partials_along(
    head: Head,
    c: &[f64],
    s: &[f64],
    points: usize,
    radii: &[f64],
    latitudes: &[f64],
    trig: &[f64],
    work: &mut [f64],
    out: &mut [f64],
) -> Result<(), Refusal>
    ensures value { result ≡ second_along_check head.nmax (length c.now) (length s.now) points (length radii.now)
        (length latitudes.now) (length trig.now) (length work.old) (length out.old) }
    ensures out_after { out.new ≡ after result
        (fill 0
        (by_rows
        (second_cell head.gm head.radius head.nmax c.now s.now trig.now radii.now
        latitudes.now)
        10)
        (points * 10) out.old)
        out.old }
    ensures work_unchanged { behind result (second_size head.nmax) work.new ≡ behind result (second_size head.nmax) work.old }
    ensures work_len_unchanged { length work.new ≡ length work.old }
{
    point_lists::along_check(
        5,
        10,
        head.nmax,
        c.len(),
        s.len(),
        points,
        radii.len(),
        latitudes.len(),
        trig.len(),
        work.len(),
        out.len(),
    )?;
    workspace::compute(head, c, s, points, radii, latitudes, trig, work, out);
    Ok(())
}
