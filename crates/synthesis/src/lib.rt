// Values of a field on a grid of latitudes and longitudes.
#![tactic(auto)]

mod rows;
mod workspace;

ghost use Rattle.std.specs.Prelude.{◌≡◌, Bool, ℕ, ◌+◌, ◌*◌, ◌<◌, T, length, get_or, Ok};
ghost use Rattle.std.specs.Float.{nan};
ghost use Rattle.std.specs.Float.Ieee.Scale.{finite};
ghost use Rattle.refusal.specs.Numbers.{after, behind};
ghost use Rattle.storage.specs.Fill.{fill};
ghost use Rattle.storage.specs.Rectangle.{by_rows};
ghost use Rattle.storage.specs.Triangle.{cells};
ghost use Rattle.legendre.specs.Directions.{cosines, sines, legendre_row};
ghost use Rattle.functional.specs.Factor.{factor_of, lacks_love};
ghost use Rattle.rounding.specs.Margins.{GridWithin};
ghost use Rattle.synthesis.specs.Grid.{grid_cell, SizesAtMostOne, work_size, grid_check};

use coefficients::Head;
use functional::Functional;
use refusal::Refusal;

// The most rows of a grid, and the most longitudes.
pub const MAX_LINES: usize = 65535;

// SIZE, LENGTH, LOVE and SPACE, over the lengths of the lists.
fn grid_check(
    nmax: usize,
    clen: usize,
    slen: usize,
    rows: usize,
    lats: usize,
    longitudes: usize,
    trig: usize,
    lacks: bool,
    work: usize,
    out: usize,
) -> Result<(), Refusal>
    ensures { result ≡ grid_check nmax clen slen rows lats longitudes trig lacks work out }
{
    if rows > MAX_LINES {
        return Err(Refusal::Size);
    }
    if longitudes > MAX_LINES {
        return Err(Refusal::Size);
    }
    storage::tables_check(nmax, clen, slen)?;
    if lats != rows + rows {
        return Err(Refusal::Length);
    }
    if trig != longitudes * (nmax + nmax + 2) {
        return Err(Refusal::Length);
    }
    if lacks {
        return Err(Refusal::Love);
    }
    if work < 3 * clen + 3 * (nmax + 1) {
        return Err(Refusal::Space);
    }
    if out < rows * longitudes {
        return Err(Refusal::Space);
    }
    Ok(())
}

// A functional of the field at radius r, at each longitude of each row, row after row. The latitudes are pairs of a sine and a cosine; `trig` has the
// cosine and the sine of m times the longitude for the orders m up to N, longitude after longitude.
pub fn grid(
    head: Head,
    c: &[f64],
    s: &[f64],
    functional: Functional,
    love: &[f64],
    r: f64,
    rows: usize,
    latitudes: &[f64],
    longitudes: usize,
    trig: &[f64],
    work: &mut [f64],
    out: &mut [f64],
) -> Result<(), Refusal>
    ensures value { result ≡ grid_check head.nmax (length c.now) (length s.now) rows (length latitudes.now)
        longitudes (length trig.now) (lacks_love functional (length love.now) head.nmax)
        (length work.old) (length out.old) }
    ensures out_after { out.new ≡ after result
        (fill 0
        (by_rows
        (grid_cell (factor_of functional love.now head.gm head.radius r) latitudes.now c.now s.now
        trig.now head.nmax)
        longitudes)
        (rows * longitudes) out.old)
        out.old }
    ensures work_unchanged { behind result (work_size head.nmax) work.new ≡ behind result (work_size head.nmax) work.old }
    ensures work_len_unchanged { length work.new ≡ length work.old }
    ensures by_index { (i j : ℕ) → result ≡ Ok tt → i < rows → j < longitudes → T (finite (get_or out.new (i * longitudes + j) nan))
        → SizesAtMostOne head.nmax (cells c.now nan) (cells s.now nan)
        (cosines trig.now head.nmax j) (sines trig.now head.nmax j)
        → GridWithin (legendre_row latitudes.now i) (factor_of functional love.now head.gm head.radius r)
        (cells c.now nan) (cells s.now nan)
        (cosines trig.now head.nmax j) (sines trig.now head.nmax j) head.nmax
        (get_or out.new (i * longitudes + j) nan) }
{
    let lacks = functional.lacks_love(love.len(), head.nmax);
    grid_check(
        head.nmax,
        c.len(),
        s.len(),
        rows,
        latitudes.len(),
        longitudes,
        trig.len(),
        lacks,
        work.len(),
        out.len(),
    )?;
    workspace::compute(
        head, c, s, functional, love, r, rows, latitudes, longitudes, trig, work, out,
    );
    Ok(())
}
