// The coefficients of a field from the values of a functional on a grid: Gauss–Legendre quadrature over the latitudes, a plain sum over the longitudes.
#![tactic(auto)]

mod rows;
mod workspace;

ghost use Rattle.std.specs.Prelude.{◌≡◌, ◌*◌, ◌≤◌, length};
ghost use Rattle.refusal.specs.Numbers.{after, behind, outcome, value_if};
ghost use Rattle.storage.specs.Fill.{fill};
ghost use Rattle.storage.specs.Triangle.{table_size, along};
ghost use Rattle.functional.specs.Factor.{factor_of, lacks_love};
ghost use Rattle.coefficients.specs.Values.{zero_head};
ghost use Rattle.analysis.specs.Analysis.{points_of, cosine_sum, sine_sum, analysis_cell, analysis_check};

use coefficients::{Head, TideSystem};
use functional::Functional;
use refusal::Refusal;

// The points of the grid up to degree nmax: nmax + 1 rows of 2 nmax + 2 longitudes.
fn grid_points(nmax: usize) -> usize
    requires { nmax ≤ 2700 }
    ensures fact_1 { result ≡ points_of nmax }
    ensures fact_2 { result ≤ 14590802 }
{
    (nmax + 1) * (nmax + nmax + 2)
}

// SIZE, LENGTH, LOVE and SPACE, over the lengths of the lists.
fn analysis_check(
    nmax: usize,
    values: usize,
    weights: usize,
    lats: usize,
    trig: usize,
    lacks: bool,
    work: usize,
    c: usize,
    s: usize,
) -> Result<(), Refusal>
    ensures { result ≡ analysis_check nmax values weights lats trig lacks work c s }
{
    if nmax > storage::MAX_DEGREE {
        return Err(Refusal::Size);
    }
    let rows = nmax + 1;
    let points = grid_points(nmax);
    let size = storage::table_size(nmax);
    if values != points {
        return Err(Refusal::Length);
    }
    if weights != rows {
        return Err(Refusal::Length);
    }
    if lats != rows + rows {
        return Err(Refusal::Length);
    }
    if trig != points + points {
        return Err(Refusal::Length);
    }
    if lacks {
        return Err(Refusal::Love);
    }
    if work < 3 * size {
        return Err(Refusal::Space);
    }
    if c < size {
        return Err(Refusal::Space);
    }
    if s < size {
        return Err(Refusal::Space);
    }
    Ok(())
}

// The coefficients up to degree nmax of a functional's values at radius r on a grid of nmax + 1 rows, by the weights and the latitudes' pairs of a
// sine and a cosine, and 2 nmax + 2 longitudes; `trig` has the cosine and the sine of m times each longitude, order after order.
pub fn analysis(
    functional: Functional,
    love: &[f64],
    r: f64,
    nmax: usize,
    gm: f64,
    radius: f64,
    values: &[f64],
    weights: &[f64],
    latitudes: &[f64],
    trig: &[f64],
    work: &mut [f64],
    c: &mut [f64],
    s: &mut [f64],
) -> Result<Head, Refusal>
    ensures value { result ≡ value_if
        (analysis_check nmax (length values.now) (length weights.now) (length latitudes.now)
        (length trig.now) (lacks_love functional (length love.now) nmax) (length work.old)
        (length c.old) (length s.old))
        (zero_head gm radius nmax) }
    ensures c_after { c.new ≡ after (outcome result)
        (fill 0
        (along
        (analysis_cell (factor_of functional love.now gm radius r) weights.now latitudes.now
        (cosine_sum values.now trig.now nmax) nmax))
        (table_size nmax) c.old)
        c.old }
    ensures s_after { s.new ≡ after (outcome result)
        (fill 0
        (along
        (analysis_cell (factor_of functional love.now gm radius r) weights.now latitudes.now
        (sine_sum values.now trig.now nmax) nmax))
        (table_size nmax) s.old)
        s.old }
    ensures work_unchanged { behind (outcome result) (3 * table_size nmax) work.new ≡ behind (outcome result) (3 * table_size nmax) work.old }
    ensures work_len_unchanged { length work.new ≡ length work.old }
{
    let lacks = functional.lacks_love(love.len(), nmax);
    analysis_check(
        nmax,
        values.len(),
        weights.len(),
        latitudes.len(),
        trig.len(),
        lacks,
        work.len(),
        c.len(),
        s.len(),
    )?;
    workspace::compute(
        functional, love, r, nmax, gm, radius, values, weights, latitudes, trig, work, c, s,
    );
    Ok(Head {
        gm,
        radius,
        tide_system: TideSystem::Unknown,
        date: None,
        nmax,
    })
}
