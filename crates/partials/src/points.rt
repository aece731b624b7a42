// The points of a call, one after the other.
ghost use Rattle.std.specs.Prelude.{◌≡◌, ℕ, ◌+◌, ◌*◌, ◌≤◌, length};
ghost use Rattle.storage.specs.Filled.{Filled};
ghost use Rattle.storage.specs.Rectangle.{by_rows};
ghost use Rattle.recursion.specs.Recursion.{pmm};
ghost use Rattle.local.specs.Point.{point_at, component, along_cell};
ghost use Rattle.point_lists.specs.Tables.{Tabled};
ghost use Rattle.point_sums.specs.Sums.{PointRoom};

use legendre::Latitude;
use local::Partials;

// V and its derivatives at point i, at radius r; the arrays that are lent to change are overwritten.
fn point(
    i: usize,
    gm: f64,
    radius: f64,
    nmax: usize,
    r: f64,
    latitude: Latitude,
    a: &[f64],
    b: &[f64],
    w: &[f64],
    c: &[f64],
    s: &[f64],
    trig: &[f64],
    sectorals: &[f64],
    rescales: &mut [f64],
    even: &mut [f64],
    odd: &mut [f64],
    p: &mut [f64],
    d: &mut [f64],
) -> Partials
    requires point_room { PointRoom nmax (length a.now) (length b.now) (length w.now) (length c.now) (length s.now) (length sectorals.now)
        (length rescales.old) (length even.old) (length odd.old) (length p.old) (length d.old) }
    requires nmax_in_bounds_1 { i * (nmax + nmax + 2) + (nmax + nmax + 2) ≤ length trig.now }
    requires nmax_in_bounds_2 { Tabled nmax a.now b.now w.now }
    requires nmax_in_bounds_3 { Filled 0 pmm (nmax + 1) sectorals.now sectorals.now }
    ensures { result ≡ point_at gm radius nmax c.now s.now trig.now i r latitude.t latitude.u }
{
    let k = i * (nmax + nmax + 2);
    let q = radius / r;
    let t = latitude.t;
    let u = latitude.u;
    legendre::rows::rescales(nmax, u, rescales);
    let sums = point_sums::add_degrees(
        nmax, k, q, t, u, a, b, w, c, s, trig, sectorals, rescales, even, odd, p, d,
    );
    let gmr = gm / r;
    Partials {
        v: gmr * sums.v,
        dr: gmr / r * sums.dr,
        dlat: gmr * sums.dlat,
        dlon: gmr * sums.dlon,
    }
}

// The four numbers of a point, from index `at` on.
fn store_point(at: usize, x: Partials, out: &mut [f64])
    requires { at + 4 ≤ length out.old }
    ensures { Filled at (component x) 4 out.old out.new }
{
    out[at] = x.v;
    out[at + 1] = x.dr;
    out[at + 2] = x.dlat;
    out[at + 3] = x.dlon;
}

// All points, four numbers each.
pub fn all_points(
    points: usize,
    gm: f64,
    radius: f64,
    nmax: usize,
    radii: &[f64],
    latitudes: &[f64],
    a: &[f64],
    b: &[f64],
    w: &[f64],
    c: &[f64],
    s: &[f64],
    trig: &[f64],
    sectorals: &[f64],
    rescales: &mut [f64],
    even: &mut [f64],
    odd: &mut [f64],
    p: &mut [f64],
    d: &mut [f64],
    out: &mut [f64],
)
    requires point_room { PointRoom nmax (length a.now) (length b.now) (length w.now) (length c.now) (length s.now) (length sectorals.now)
        (length rescales.old) (length even.old) (length odd.old) (length p.old) (length d.old) }
    requires points_bound_1 { points ≤ 65535 }
    requires points_bound_2 { points ≤ length radii.now }
    requires points_bound_3 { points + points ≤ length latitudes.now }
    requires points_bound_4 { points * (nmax + nmax + 2) ≤ length trig.now }
    requires points_bound_5 { points * 4 ≤ length out.old }
    requires tabled_1 { Tabled nmax a.now b.now w.now }
    requires tabled_2 { Filled 0 pmm (nmax + 1) sectorals.now sectorals.now }
    ensures { Filled 0
        (by_rows
        (along_cell gm radius nmax c.now s.now trig.now radii.now latitudes.now)
        4)
        (points * 4) out.old out.new }
{
    let mut at = 0;
    for i in 0..points {
        let latitude = legendre::directions::latitude_of(i, latitudes);
        let x = point(
            i, gm, radius, nmax, radii[i], latitude, a, b, w, c, s, trig, sectorals, rescales,
            even, odd, p, d,
        );
        store_point(at, x, out);
        at = at + 4;
    }
}
