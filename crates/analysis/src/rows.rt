// The rows of a grid, one after the other: the sums over a row's longitudes, then what it adds to the coefficients.
ghost use Rattle.std.specs.Prelude.{◌≡◌, ◌+◌, ◌*◌, ◌≤◌, ◌<◌, length};
ghost use Rattle.std.specs.Float.{nan};
ghost use Rattle.number.specs.Float64.{◌⊗◌, ◌⊘◌, of_whole, two64};
ghost use Rattle.storage.specs.Elements.{zero_at, from};
ghost use Rattle.storage.specs.Filled.{Filled};
ghost use Rattle.storage.specs.Triangle.{table_size, along};
ghost use Rattle.recursion.specs.Recursion.{pmm, p_cell};
ghost use Rattle.analysis.specs.Analysis.{longitudes_of, cosine_sum, sine_sum, row_weight, rows_sum};
ghost use Rattle.fourier_analysis.specs.Longitudes.{cosines_from, sines_from};
ghost use Rattle.legendre_analysis.specs.Degrees.{added_cell};
ghost use Rattle.analysis.specs.Rows.{RowRoom, legendre_by};

use legendre::Latitude;

// A row's weight over twice its longitudes.
fn mean_weight(weight: f64, longitudes: usize) -> f64
    requires { longitudes ≤ 5402 }
    ensures { result ≡ weight ⊘ (two64 ⊗ of_whole longitudes) }
{
    weight / (2.0 * longitudes as f64)
}

// One row, whose values start at index `at`, added to the coefficients.
fn add_row(
    nmax: usize,
    latitude: Latitude,
    weight: f64,
    longitudes: usize,
    at: usize,
    values: &[f64],
    trig: &[f64],
    a: &[f64],
    b: &[f64],
    sectorals: &[f64],
    r: &mut [f64],
    even: &mut [f64],
    odd: &mut [f64],
    sums: &mut [f64],
    c: &mut [f64],
    s: &mut [f64],
)
    requires row_room { RowRoom nmax (length a.now) (length b.now) (length sectorals.now) (length r.old) (length even.old) (length odd.old)
        (length sums.old) (length c.old) (length s.old) }
    requires filled_1 { Filled 0 pmm (nmax + 1) sectorals.now sectorals.now }
    requires filled_2 { longitudes ≤ 5402 }
    requires filled_3 { at + longitudes ≤ length values.now }
    requires filled_4 { (nmax + 1) * (longitudes + longitudes) ≤ length trig.now }
    ensures filled_2 { Filled 0
        (along
        (added_cell weight (p_cell (from 0 a.now nan) (from 0 b.now nan) latitude.t latitude.u)
        (cosines_from values.now trig.now at longitudes) c.old))
        (table_size nmax) c.old c.new }
    ensures filled_3 { Filled 0
        (along
        (added_cell weight (p_cell (from 0 a.now nan) (from 0 b.now nan) latitude.t latitude.u)
        (sines_from values.now trig.now at longitudes) s.old))
        (table_size nmax) s.old s.new }
{
    let t = latitude.t;
    let u = latitude.u;
    fourier_analysis::order_sums(nmax, longitudes, at, values, trig, sums);
    legendre::rows::rescales(nmax, u, r);
    legendre_analysis::degrees::add_degrees(
        nmax, t, u, weight, a, b, sectorals, r, sums, even, odd, c, s,
    );
}

// All rows added to coefficients that are clear.
pub fn add_rows(
    nmax: usize,
    longitudes: usize,
    values: &[f64],
    weights: &[f64],
    latitudes: &[f64],
    trig: &[f64],
    a: &[f64],
    b: &[f64],
    sectorals: &[f64],
    r: &mut [f64],
    even: &mut [f64],
    odd: &mut [f64],
    sums: &mut [f64],
    c: &mut [f64],
    s: &mut [f64],
)
    requires row_room { RowRoom nmax (length a.now) (length b.now) (length sectorals.now) (length r.old) (length even.old) (length odd.old)
        (length sums.old) (length c.old) (length s.old) }
    requires filled_1 { Filled 0 pmm (nmax + 1) sectorals.now sectorals.now }
    requires filled_2 { Filled 0 zero_at (table_size nmax) c.old c.old }
    requires filled_3 { Filled 0 zero_at (table_size nmax) s.old s.old }
    requires longitudes_value_1 { longitudes ≡ longitudes_of nmax }
    requires longitudes_value_2 { (nmax + 1) * longitudes ≤ length values.now }
    requires longitudes_value_3 { (nmax + 1) * (longitudes + longitudes) ≤ length trig.now }
    requires longitudes_value_4 { nmax < length weights.now }
    requires longitudes_value_5 { nmax + nmax + 1 < length latitudes.now }
    ensures filled_2 { Filled 0
        (along
        (rows_sum (row_weight weights.now nmax) (legendre_by a.now b.now latitudes.now)
        (cosine_sum values.now trig.now nmax) (nmax + 1)))
        (table_size nmax) c.old c.new }
    ensures filled_3 { Filled 0
        (along
        (rows_sum (row_weight weights.now nmax) (legendre_by a.now b.now latitudes.now)
        (sine_sum values.now trig.now nmax) (nmax + 1)))
        (table_size nmax) s.old s.new }
{
    let mut at = 0;
    for i in 0..nmax + 1 {
        let latitude = legendre::directions::latitude_of(i, latitudes);
        let weight = mean_weight(weights[i], longitudes);
        add_row(
            nmax, latitude, weight, longitudes, at, values, trig, a, b, sectorals, r, even, odd,
            sums, c, s,
        );
        at = at + longitudes;
    }
}
