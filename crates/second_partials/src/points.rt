// The points of a call, one after the other.
ghost use Rattle.std.specs.Prelude.{◌≡◌, ℕ, ◌+◌, ◌*◌, ◌≤◌, ◌<◌, length};
ghost use Rattle.storage.specs.Filled.{Filled};
ghost use Rattle.storage.specs.Rectangle.{by_rows};
ghost use Rattle.storage.specs.Triangle.{table_size};
ghost use Rattle.recursion.specs.Recursion.{rescale};
ghost use Rattle.local.specs.Second.{second_at, second_component, second_cell, second_size};
ghost use Rattle.second_sums.specs.Sums.{second_sums};
ghost use Rattle.second_partials.specs.Working.{powers_at, Prepared, Worked};
ghost use Rattle.second_partials.specs.Promise.{FieldRoom};

use legendre::Latitude;
use local::{Partials, SecondPartials};
use second_sums::SecondSums;

// The powers of u of the point at hand, behind the sectoral numbers of the working list.
fn powers(nmax: usize, total: usize, u: f64, work: &mut [f64])
    requires fact_1 { nmax ≤ 2700 }
    requires fact_2 { total ≡ table_size nmax }
    requires fact_3 { second_size nmax ≤ length work.old }
    ensures { Filled (powers_at nmax) (rescale u) (nmax + 1) work.old work.new }
{
    let at = total + total + total + (nmax + 1);
    legendre::rows::rescales(nmax, u, &mut work[at..]);
}

// The sums over the degrees at one point, by the parts of the working list; `rows` is overwritten.
fn sums(
    nmax: usize,
    total: usize,
    k: usize,
    q: f64,
    t: f64,
    u: f64,
    c: &[f64],
    s: &[f64],
    trig: &[f64],
    work: &[f64],
    rows: &mut [f64],
) -> SecondSums
    requires field_room_1 { FieldRoom nmax (length c.now) (length s.now) (length rows.old) }
    requires field_room_2 { total ≡ table_size nmax }
    requires field_room_3 { k + (nmax + nmax + 1) < length trig.now }
    requires field_room_4 { second_size nmax ≤ length work.now }
    requires prepared_1 { Prepared nmax work.now }
    requires prepared_2 { Filled (powers_at nmax) (rescale u) (nmax + 1) work.now work.now }
    ensures { result ≡ second_sums q t u k c.now s.now trig.now (nmax + 1) }
{
    let b = &work[total..];
    let w = &b[total..];
    let sectorals = &w[total..];
    let rescales = &sectorals[nmax + 1..];
    second_sums::add_degrees(
        nmax, k, q, t, u, work, b, w, c, s, trig, sectorals, rescales, rows,
    )
}

// V and its derivatives at point i, at radius r.
fn point(
    i: usize,
    gm: f64,
    radius: f64,
    nmax: usize,
    total: usize,
    r: f64,
    latitude: Latitude,
    c: &[f64],
    s: &[f64],
    trig: &[f64],
    work: &mut [f64],
    rows: &mut [f64],
) -> SecondPartials
    requires fact_1 { FieldRoom nmax (length c.now) (length s.now) (length rows.old) }
    requires fact_2 { total ≡ table_size nmax }
    requires fact_3 { i * (nmax + nmax + 2) + (nmax + nmax + 2) ≤ length trig.now }
    requires fact_4 { second_size nmax ≤ length work.old }
    requires fact_5 { Prepared nmax work.old }
    ensures value { result ≡ second_at gm radius nmax c.now s.now trig.now i r latitude.t latitude.u }
    ensures worked { Worked nmax work.old work.new }
{
    let k = i * (nmax + nmax + 2);
    let q = radius / r;
    let t = latitude.t;
    let u = latitude.u;
    powers(nmax, total, u, work);
    let x = sums(nmax, total, k, q, t, u, c, s, trig, work, rows);
    let gmr = gm / r;
    SecondPartials {
        first: Partials {
            v: gmr * x.v,
            dr: gmr / r * x.dr,
            dlat: gmr * x.dlat,
            dlon: gmr * x.dlon,
        },
        drr: gmr / (r * r) * x.drr,
        dlatlat: gmr * x.dlatlat,
        dlonlon: gmr * x.dlonlon,
        drlat: gmr / r * x.drlat,
        drlon: gmr / r * x.drlon,
        dlatlon: gmr * x.dlatlon,
    }
}

// The ten numbers of a point, from index `at` on.
fn store_point(at: usize, x: SecondPartials, out: &mut [f64])
    requires { at + 10 ≤ length out.old }
    ensures { Filled at (second_component x) 10 out.old out.new }
{
    out[at] = x.first.v;
    out[at + 1] = x.first.dr;
    out[at + 2] = x.first.dlat;
    out[at + 3] = x.first.dlon;
    out[at + 4] = x.drr;
    out[at + 5] = x.dlatlat;
    out[at + 6] = x.dlonlon;
    out[at + 7] = x.drlat;
    out[at + 8] = x.drlon;
    out[at + 9] = x.dlatlon;
}

// All points, ten numbers each.
pub fn all_points(
    points: usize,
    gm: f64,
    radius: f64,
    nmax: usize,
    total: usize,
    radii: &[f64],
    latitudes: &[f64],
    c: &[f64],
    s: &[f64],
    trig: &[f64],
    work: &mut [f64],
    rows: &mut [f64],
    out: &mut [f64],
)
    requires field_room_1 { FieldRoom nmax (length c.now) (length s.now) (length rows.old) }
    requires field_room_2 { total ≡ table_size nmax }
    requires field_room_3 { points ≤ 65535 }
    requires field_room_4 { points ≤ length radii.now }
    requires field_room_5 { points + points ≤ length latitudes.now }
    requires nmax_in_bounds_1 { points * (nmax + nmax + 2) ≤ length trig.now }
    requires nmax_in_bounds_2 { points * 10 ≤ length out.old }
    requires nmax_in_bounds_3 { second_size nmax ≤ length work.old }
    requires nmax_in_bounds_4 { Prepared nmax work.old }
    ensures filled { Filled 0
        (by_rows
        (second_cell gm radius nmax c.now s.now trig.now radii.now latitudes.now)
        10)
        (points * 10) out.old out.new }
    ensures worked { Worked nmax work.old work.new }
{
    let mut at = 0;
    for i in 0..points {
        let latitude = legendre::directions::latitude_of(i, latitudes);
        let x = point(
            i, gm, radius, nmax, total, radii[i], latitude, c, s, trig, work, rows,
        );
        store_point(at, x, out);
        at = at + 10;
    }
}
