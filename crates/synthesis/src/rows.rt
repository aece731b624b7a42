// The rows of a grid: at each latitude the sums of the orders over the degrees, then the values along the row.
ghost use Rattle.std.specs.Prelude.{◌≡◌, ℕ, ◌+◌, ◌*◌, ◌≤◌, ◌<◌, length};
ghost use Rattle.std.specs.Float.{nan};
ghost use Rattle.storage.specs.Elements.{from};
ghost use Rattle.storage.specs.Filled.{Filled};
ghost use Rattle.storage.specs.Rectangle.{by_rows};
ghost use Rattle.recursion.specs.Recursion.{pmm};
ghost use Rattle.synthesis.specs.Rows.{RowRoom, row_value, rows_value};

use legendre::Latitude;

// One row, from index `at` of out on.
fn grid_row(
    nmax: usize,
    latitude: Latitude,
    longitudes: usize,
    at: usize,
    a: &[f64],
    b: &[f64],
    c: &[f64],
    s: &[f64],
    trig: &[f64],
    factors: &[f64],
    sectorals: &[f64],
    r: &mut [f64],
    even: &mut [f64],
    odd: &mut [f64],
    p: &mut [f64],
    x: &mut [f64],
    y: &mut [f64],
    out: &mut [f64],
)
    requires row_room { RowRoom nmax (length a.now) (length b.now) (length c.now) (length s.now) (length factors.now) (length sectorals.now)
        (length r.old) (length even.old) (length odd.old) (length p.old) (length x.old) (length y.old) }
    requires filled_1 { Filled 0 pmm (nmax + 1) sectorals.now sectorals.now }
    requires filled_2 { longitudes * (nmax + nmax + 2) ≤ length trig.now }
    requires filled_3 { at + longitudes ≤ length out.old }
    ensures { Filled at
        (row_value (from 0 a.now nan) (from 0 b.now nan) (from 0 factors.now nan) latitude.t latitude.u
        c.now s.now trig.now nmax)
        longitudes out.old out.new }
{
    lumped_coefficients::order_sums(
        nmax, latitude, a, b, c, s, factors, sectorals, r, even, odd, p, x, y,
    );
    fourier_synthesis::points(nmax, longitudes, at, x, y, trig, out);
}

// All rows.
pub fn grid_rows(
    nmax: usize,
    rows: usize,
    latitudes: &[f64],
    longitudes: usize,
    a: &[f64],
    b: &[f64],
    c: &[f64],
    s: &[f64],
    trig: &[f64],
    factors: &[f64],
    sectorals: &[f64],
    r: &mut [f64],
    even: &mut [f64],
    odd: &mut [f64],
    p: &mut [f64],
    x: &mut [f64],
    y: &mut [f64],
    out: &mut [f64],
)
    requires row_room { RowRoom nmax (length a.now) (length b.now) (length c.now) (length s.now) (length factors.now) (length sectorals.now)
        (length r.old) (length even.old) (length odd.old) (length p.old) (length x.old) (length y.old) }
    requires filled_1 { Filled 0 pmm (nmax + 1) sectorals.now sectorals.now }
    requires filled_2 { rows + rows ≤ length latitudes.now }
    requires filled_3 { longitudes * (nmax + nmax + 2) ≤ length trig.now }
    requires filled_4 { rows * longitudes ≤ length out.old }
    requires rows_bound_1 { rows ≤ 65535 }
    requires rows_bound_2 { longitudes ≤ 65535 }
    ensures { Filled 0
        (by_rows
        (rows_value (from 0 a.now nan) (from 0 b.now nan) (from 0 factors.now nan) latitudes.now
        c.now s.now trig.now nmax)
        longitudes)
        (rows * longitudes) out.old out.new }
{
    let mut at = 0;
    for i in 0..rows {
        let latitude = legendre::directions::latitude_of(i, latitudes);
        grid_row(
            nmax, latitude, longitudes, at, a, b, c, s, trig, factors, sectorals, r, even, odd, p,
            x, y, out,
        );
        at = at + longitudes;
    }
}
