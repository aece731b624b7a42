// Fully normalized associated Legendre functions (4π normalization, no Condon–Shortley phase), by the modified forward column recursion of
// Holmes & Featherstone (2002): it runs on P(n, m) / u^m, scaled by 1e-280 against overflow, and the power of the cosine u comes last. Numbers that
// are no sine and cosine, or no coefficients of `new`, are answered too, and a column of theirs may overflow.
#![tactic(auto)]

pub mod directions;
mod mirrors;
pub mod rows;

ghost use Rattle.std.specs.Prelude.{◌≡◌, length};
ghost use Rattle.std.specs.Float.{nan};
ghost use Rattle.refusal.specs.Numbers.{after};
ghost use Rattle.storage.specs.Checks.{room_check, outputs_check, entry_answer};
ghost use Rattle.storage.specs.Elements.{from};
ghost use Rattle.storage.specs.Fill.{fill};
ghost use Rattle.storage.specs.Triangle.{table_size, along};
ghost use Rattle.recursion.specs.Recursion.{a_cell, b_cell, p_cell};
ghost use Rattle.derivative.specs.Derivative.{dp_cell};
ghost use Rattle.legendre.specs.Checks.{compute_check, mirror_check};
ghost use Rattle.legendre.specs.Grown.{grown};
ghost use Rattle.legendre.specs.Mirrored.{mirrored};

use refusal::Refusal;

// A geocentric latitude by its sine t and its cosine u.
#[derive(Clone, Copy)]
pub struct Latitude {
    pub t: f64,
    pub u: f64,
}

// The recursion coefficients up to degree nmax, row after row along their storage.
pub fn new(nmax: usize, a: &mut [f64], b: &mut [f64]) -> Result<(), Refusal>
    ensures value { result ≡ room_check nmax (length a.old) (length b.old) }
    ensures a_after { a.new ≡ after result (fill 0 (along a_cell) (table_size nmax) a.old) a.old }
    ensures b_after { b.new ≡ after result (fill 0 (along b_cell) (table_size nmax) b.old) b.old }
{
    storage::room_check(nmax, a.len(), b.len())?;
    recursion::a_table(0, 0, nmax, a);
    recursion::b_table(0, 0, nmax, b);
    Ok(())
}

// The rows of the recursion coefficients above degree `from` and up to degree nmax, behind those up to `from`, which stay as they are. Where these are
// the rows of `new`, the lists are then as `new` would have left them.
pub fn grow(from: usize, nmax: usize, a: &mut [f64], b: &mut [f64]) -> Result<(), Refusal>
    ensures value { result ≡ room_check nmax (length a.old) (length b.old) }
    ensures a_after { a.new ≡ after result (grown a_cell from nmax a.old) a.old }
    ensures b_after { b.new ≡ after result (grown b_cell from nmax b.old) b.old }
{
    storage::room_check(nmax, a.len(), b.len())?;
    if from >= nmax {
        return Ok(());
    }
    let start = storage::table_size(from);
    recursion::a_table(from + 1, start, nmax, a);
    recursion::b_table(from + 1, start, nmax, b);
    Ok(())
}

// P(n, m) up to degree nmax at one latitude, from the recursion coefficients a and b.
pub fn compute(
    nmax: usize,
    latitude: Latitude,
    a: &[f64],
    b: &[f64],
    p: &mut [f64],
) -> Result<(), Refusal>
    ensures value { result ≡ compute_check nmax (length a.now) (length b.now) (length p.old) }
    ensures p_after { p.new ≡ after result
        (fill 0 (along (p_cell (from 0 a.now nan) (from 0 b.now nan) latitude.t latitude.u)) (table_size nmax)
        p.old)
        p.old }
{
    storage::tables_check(nmax, a.len(), b.len())?;
    if p.len() < storage::table_size(nmax) {
        return Err(Refusal::Space);
    }
    rows::compute(nmax, latitude.t, latitude.u, a, b, p);
    Ok(())
}

// The same, and the derivatives by latitude. A derivative is made of P(n, m - 1) and P(n, m + 1), with no division by u.
pub fn compute_with_derivative(
    nmax: usize,
    latitude: Latitude,
    a: &[f64],
    b: &[f64],
    p: &mut [f64],
    dp: &mut [f64],
) -> Result<(), Refusal>
    ensures value { result ≡ outputs_check nmax (length a.now) (length b.now) nmax (length p.old) (length dp.old) }
    ensures p_after { p.new ≡ after result
        (fill 0 (along (p_cell (from 0 a.now nan) (from 0 b.now nan) latitude.t latitude.u)) (table_size nmax)
        p.old)
        p.old }
    ensures dp_after { dp.new ≡ after result
        (fill 0 (along (dp_cell (from 0 a.now nan) (from 0 b.now nan) latitude.t latitude.u)) (table_size nmax)
        dp.old)
        dp.old }
{
    storage::outputs_check(nmax, a.len(), b.len(), nmax, p.len(), dp.len())?;
    rows::compute(nmax, latitude.t, latitude.u, a, b, p);
    derivative::derive(nmax, p, dp);
    Ok(())
}

// The table of P at t becomes the table at -t, with the same u and the same recursion coefficients: P(n, m) times (-1)^(n - m).
pub fn mirror(nmax: usize, table: &mut [f64]) -> Result<(), Refusal>
    ensures value { result ≡ mirror_check nmax (length table.old) }
    ensures table_after { table.new ≡ after result (fill 0 (along (mirrored 0 table.old)) (table_size nmax) table.old) table.old }
{
    mirrors::mirror_by(nmax, 0, table)
}

// The table of the derivatives by latitude likewise: each times (-1)^(n - m + 1).
pub fn mirror_derivative(nmax: usize, table: &mut [f64]) -> Result<(), Refusal>
    ensures value { result ≡ mirror_check nmax (length table.old) }
    ensures table_after { table.new ≡ after result (fill 0 (along (mirrored 1 table.old)) (table_size nmax) table.old) table.old }
{
    mirrors::mirror_by(nmax, 1, table)
}

// P(n, m) from a table.
pub fn p(nmax: usize, table: &[f64], n: usize, m: usize) -> Result<f64, Refusal>
    ensures { result ≡ entry_answer nmax table.now n m }
{
    storage::entry(nmax, table, n, m)
}

// The derivative of P(n, m) by latitude, from the table of derivatives.
pub fn dp(nmax: usize, table: &[f64], n: usize, m: usize) -> Result<f64, Refusal>
    ensures { result ≡ entry_answer nmax table.now n m }
{
    storage::entry(nmax, table, n, m)
}
