// The calls of the crate partials: the derivatives of a field at points, and local accelerations.
ghost use Rattle.std.specs.Prelude.{◌≡◌, ℕ, ◌*◌, ◌≤◌, length};
ghost use Rattle.std.specs.Float.{nan};
ghost use Rattle.refusal.specs.Numbers.{after, behind, result_number};
ghost use Rattle.storage.specs.Elements.{from};
ghost use Rattle.storage.specs.Fill.{fill};
ghost use Rattle.storage.specs.Filled.{Filled};
ghost use Rattle.storage.specs.Rectangle.{by_rows};
ghost use Rattle.local.specs.Point.{point_at, component, along_cell, along_check, work_size};
ghost use Rattle.local.specs.Local.{acceleration_of, gravity_of};
ghost use Rattle.geopotential.specs.Points.{point_check, three_check, four};

// The four numbers go to the front of `out`: V, ∂V/∂r, ∂V/∂φ, ∂V/∂λ. It is a list of one point.
#[unsafe(no_mangle)]
pub extern "C" fn geopotential_partials(
    gm: f64,
    radius: f64,
    nmax: usize,
    c: &[f64],
    s: &[f64],
    r: f64,
    t: f64,
    u: f64,
    trig: &[f64],
    work: &mut [f64],
    out: &mut [f64],
) -> u32
    ensures value { result ≡ result_number (point_check nmax (length c.now) (length s.now) (length trig.now)
        (length work.old) (length out.old)) }
    ensures out_after { out.new ≡ after
        (point_check nmax (length c.now) (length s.now) (length trig.now) (length work.old)
        (length out.old))
        (fill 0 (component (point_at gm radius nmax c.now s.now trig.now 0 r t u)) 4 out.old)
        out.old }
    ensures work_unchanged { behind
        (point_check nmax (length c.now) (length s.now) (length trig.now) (length work.old)
        (length out.old))
        (work_size nmax) work.new
        ≡ behind
        (point_check nmax (length c.now) (length s.now) (length trig.now) (length work.old)
        (length out.old))
        (work_size nmax) work.old }
    ensures work_len_unchanged { length work.new ≡ length work.old }
{
    geopotential::points::geopotential_partials(gm, radius, nmax, c, s, r, t, u, trig, work, out)
}

#[unsafe(no_mangle)]
pub extern "C" fn geopotential_partials_along(
    gm: f64,
    radius: f64,
    nmax: usize,
    c: &[f64],
    s: &[f64],
    points: usize,
    radii: &[f64],
    latitudes: &[f64],
    trig: &[f64],
    work: &mut [f64],
    out: &mut [f64],
) -> u32
    ensures value { result ≡ result_number (along_check nmax (length c.now) (length s.now) points (length radii.now)
        (length latitudes.now) (length trig.now) (length work.old) (length out.old)) }
    ensures out_after { out.new ≡ after
        (along_check nmax (length c.now) (length s.now) points (length radii.now)
        (length latitudes.now) (length trig.now) (length work.old) (length out.old))
        (fill 0
        (by_rows
        (along_cell gm radius nmax c.now s.now trig.now radii.now latitudes.now)
        4)
        (points * 4) out.old)
        out.old }
    ensures work_unchanged { behind
        (along_check nmax (length c.now) (length s.now) points (length radii.now)
        (length latitudes.now) (length trig.now) (length work.old) (length out.old))
        (work_size nmax) work.new
        ≡ behind
        (along_check nmax (length c.now) (length s.now) points (length radii.now)
        (length latitudes.now) (length trig.now) (length work.old) (length out.old))
        (work_size nmax) work.old }
    ensures work_len_unchanged { length work.new ≡ length work.old }
{
    geopotential::points::geopotential_partials_along(
        gm, radius, nmax, c, s, points, radii, latitudes, trig, work, out,
    )
}

// North, east and up go to the front of `out`; one that is shorter is refused by 3, and nothing else is.
#[unsafe(no_mangle)]
pub extern "C" fn geopotential_acceleration_neu(
    v: f64,
    dr: f64,
    dlat: f64,
    dlon: f64,
    r: f64,
    t: f64,
    u: f64,
    out: &mut [f64],
) -> u32
    ensures value { result ≡ result_number (three_check (length out.old)) }
    ensures out_after { out.new ≡ after (three_check (length out.old))
        (fill 0 (from 0 (acceleration_of (four v dr dlat dlon) r u) nan) 3 out.old) out.old }
{
    geopotential::points::geopotential_acceleration_neu(v, dr, dlat, dlon, r, t, u, out)
}

#[unsafe(no_mangle)]
pub extern "C" fn geopotential_gravity_neu(
    v: f64,
    dr: f64,
    dlat: f64,
    dlon: f64,
    r: f64,
    t: f64,
    u: f64,
    omega: f64,
    out: &mut [f64],
) -> u32
    ensures value { result ≡ result_number (three_check (length out.old)) }
    ensures out_after { out.new ≡ after (three_check (length out.old))
        (fill 0 (from 0 (gravity_of (four v dr dlat dlon) r t u omega) nan) 3 out.old) out.old }
{
    geopotential::points::geopotential_gravity_neu(v, dr, dlat, dlon, r, t, u, omega, out)
}
