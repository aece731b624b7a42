// The calls of the crate second_partials: the first and second derivatives of a field at points, and the tensor of gravity gradients.
ghost use Rattle.std.specs.Prelude.{◌≡◌, ℕ, ◌*◌, ◌≤◌, length};
ghost use Rattle.refusal.specs.Numbers.{after, behind, result_number};
ghost use Rattle.storage.specs.Fill.{fill};
ghost use Rattle.storage.specs.Filled.{Filled};
ghost use Rattle.storage.specs.Rectangle.{by_rows};
ghost use Rattle.local.specs.Second.{second_at, second_component, second_cell, second_along_check, second_size, tensor_of, tensor_cell};
ghost use Rattle.geopotential.specs.Tensors.{ten_check, nine_check, ten};

use coefficients::{Head, TideSystem};
use legendre::Latitude;
use local::{Partials, SecondPartials};

// The ten numbers go to the front of `out`: V, ∂V/∂r, ∂V/∂φ, ∂V/∂λ, then ∂²V by rr, φφ, λλ, rφ, rλ, φλ. It is a list of one point.
pub fn geopotential_second_partials(
    gm: f64,
    radius: f64,
    nmax: usize,
    c: &[f64],
    s: &[f64],
    r: f64,
    t: f64,
    u: f64,
    trig: &[f64],
    work: &mut [f64],
    out: &mut [f64],
) -> u32
    ensures value { result ≡ result_number (ten_check nmax (length c.now) (length s.now) (length trig.now)
        (length work.old) (length out.old)) }
    ensures out_after { out.new ≡ after
        (ten_check nmax (length c.now) (length s.now) (length trig.now) (length work.old)
        (length out.old))
        (fill 0 (second_component (second_at gm radius nmax c.now s.now trig.now 0 r t u)) 10 out.old)
        out.old }
    ensures work_unchanged { behind
        (ten_check nmax (length c.now) (length s.now) (length trig.now) (length work.old)
        (length out.old))
        (second_size nmax) work.new
        ≡ behind
        (ten_check nmax (length c.now) (length s.now) (length trig.now) (length work.old)
        (length out.old))
        (second_size nmax) work.old }
    ensures work_len_unchanged { length work.new ≡ length work.old }
{
    let head = Head {
        gm,
        radius,
        tide_system: TideSystem::Unknown,
        date: None,
        nmax,
    };
    let radii = [r];
    let latitudes = [t, u];
    refusal::result_number(second_partials::second_partials_along(
        head, c, s, 1, &radii, &latitudes, trig, work, out,
    ))
}

pub fn geopotential_second_partials_along(
    gm: f64,
    radius: f64,
    nmax: usize,
    c: &[f64],
    s: &[f64],
    points: usize,
    radii: &[f64],
    latitudes: &[f64],
    trig: &[f64],
    work: &mut [f64],
    out: &mut [f64],
) -> u32
    ensures value { result ≡ result_number (second_along_check nmax (length c.now) (length s.now) points
        (length radii.now) (length latitudes.now) (length trig.now) (length work.old)
        (length out.old)) }
    ensures out_after { out.new ≡ after
        (second_along_check nmax (length c.now) (length s.now) points (length radii.now)
        (length latitudes.now) (length trig.now) (length work.old) (length out.old))
        (fill 0
        (by_rows
        (second_cell gm radius nmax c.now s.now trig.now radii.now latitudes.now)
        10)
        (points * 10) out.old)
        out.old }
    ensures work_unchanged { behind
        (second_along_check nmax (length c.now) (length s.now) points (length radii.now)
        (length latitudes.now) (length trig.now) (length work.old) (length out.old))
        (second_size nmax) work.new
        ≡ behind
        (second_along_check nmax (length c.now) (length s.now) points (length radii.now)
        (length latitudes.now) (length trig.now) (length work.old) (length out.old))
        (second_size nmax) work.old }
    ensures work_len_unchanged { length work.new ≡ length work.old }
{
    let head = Head {
        gm,
        radius,
        tide_system: TideSystem::Unknown,
        date: None,
        nmax,
    };
    refusal::result_number(second_partials::second_partials_along(
        head, c, s, points, radii, latitudes, trig, work, out,
    ))
}

// The tensor's nine numbers to the front of a list, row by row.
fn store_nine(tensor: [[f64; 3]; 3], out: &mut [f64])
    requires { 9 ≤ length out.old }
    ensures { Filled 0 (by_rows (tensor_cell tensor) 3) 9 out.old out.new }
{
    for k in 0..9 {
        out[k] = tensor[k / 3][k % 3];
    }
}

// The tensor goes to the front of `out`, row by row; a list that is shorter than nine is refused by 3, and nothing else is.
pub fn geopotential_tensor_neu(
    v: f64,
    dr: f64,
    dlat: f64,
    dlon: f64,
    drr: f64,
    dlatlat: f64,
    dlonlon: f64,
    drlat: f64,
    drlon: f64,
    dlatlon: f64,
    r: f64,
    t: f64,
    u: f64,
    out: &mut [f64],
) -> u32
    ensures value { result ≡ result_number (nine_check (length out.old)) }
    ensures out_after { out.new ≡ after (nine_check (length out.old))
        (fill 0 (by_rows (tensor_cell (tensor_of (ten v dr dlat dlon drr dlatlat dlonlon drlat drlon dlatlon) r t u)) 3) 9 out.old)
        out.old }
{
    if out.len() < 9 {
        return 3;
    }
    let at = SecondPartials {
        first: Partials { v, dr, dlat, dlon },
        drr,
        dlatlat,
        dlonlon,
        drlat,
        drlon,
        dlatlon,
    };
    let tensor = at.tensor_neu(r, Latitude { t, u });
    store_nine(tensor, out);
    0
}
