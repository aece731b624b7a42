// Averages of a field over a basin, by the coefficients of the basin's kernel (Swenson & Wahr 2002).
#![tactic(auto)]

ghost use Rattle.std.specs.Prelude.{◌≡◌, ◌+◌, ◌≤◌, ◌<◌, min, length, Ok};
ghost use Rattle.std.specs.Float.{binary64, nan};
ghost use Rattle.refusal.specs.Numbers.{value_if};
ghost use Rattle.storage.specs.Triangle.{cells, table_size};
ghost use Rattle.functional.specs.Factor.{factor_of, lacks_love};
ghost use Rattle.rounding.specs.Sums.{running_sum, triangle_sum};
ghost use Rattle.rounding.specs.Margins.{average_summand, average};
ghost use Rattle.slepian.specs.Average.{WithinMargin, average_check, degree_term};

use coefficients::Head;
use functional::Functional;
use refusal::Refusal;

// The terms of degree n, which start at index `at`, added to a sum one after the other.
fn add_degree(
    sum: f64,
    factor: f64,
    n: usize,
    at: usize,
    c: &[f64],
    s: &[f64],
    kc: &[f64],
    ks: &[f64],
) -> f64
    requires fact_1 { at + n < length c.now }
    requires fact_2 { at + n < length s.now }
    requires fact_3 { at + n < length kc.now }
    requires fact_4 { at + n < length ks.now }
    ensures { result ≡ running_sum binary64 (degree_term factor at c.now s.now kc.now ks.now) (n + 1) sum }
{
    let count = n + 1;
    let mut total = sum;
    for m in 0..count {
        total = total + factor * (c[at + m] * kc[at + m] + s[at + m] * ks[at + m]);
    }
    total
}

// The terms of the degrees 0 to top, added from +0.0, degree by degree.
fn sum_degrees(
    top: usize,
    field: Head,
    c: &[f64],
    s: &[f64],
    kc: &[f64],
    ks: &[f64],
    functional: Functional,
    love: &[f64],
    r: f64,
) -> f64
    requires fact_1 { top ≤ 2700 }
    requires fact_2 { table_size top ≤ length c.now }
    requires fact_3 { table_size top ≤ length s.now }
    requires fact_4 { table_size top ≤ length kc.now }
    requires fact_5 { table_size top ≤ length ks.now }
    ensures { result ≡ triangle_sum binary64
        (average_summand (cells c.now nan) (cells s.now nan) (cells kc.now nan) (cells ks.now nan)
        (factor_of functional love.now field.gm field.radius r))
        (top + 1) }
{
    let gm = field.gm;
    let radius = field.radius;
    let mut sum = 0.0;
    let mut at = 0;
    for n in 0..top + 1 {
        let factor = functional.degree_factor(love, n, gm, radius, r);
        sum = add_degree(sum, factor, n, at, c, s, kc, ks);
        at = at + n + 1;
    }
    sum
}

// SIZE of both degrees, LENGTH of the four lists, then LOVE.
fn average_check(
    nmax: usize,
    clen: usize,
    slen: usize,
    kmax: usize,
    kclen: usize,
    kslen: usize,
    lacks: bool,
) -> Result<(), Refusal>
    ensures { result ≡ average_check nmax clen slen kmax kclen kslen lacks }
{
    if kmax > storage::MAX_DEGREE {
        return Err(Refusal::Size);
    }
    storage::tables_check(nmax, clen, slen)?;
    storage::tables_check(kmax, kclen, kslen)?;
    if lacks {
        return Err(Refusal::Love);
    }
    Ok(())
}

// The mean over a basin of a functional of the field at radius r, to the lower of the two degrees: the sum of factor (C C' + S S') over all
// pairs, divided by the kernel's C'(0,0).
pub fn basin_average(
    field: Head,
    c: &[f64],
    s: &[f64],
    kernel: Head,
    kc: &[f64],
    ks: &[f64],
    functional: Functional,
    love: &[f64],
    r: f64,
) -> Result<f64, Refusal>
    ensures value { result ≡ value_if
        (average_check field.nmax (length c.now) (length s.now)
        kernel.nmax (length kc.now) (length ks.now)
        (lacks_love functional (length love.now) (min field.nmax kernel.nmax)))
        (average (cells c.now nan) (cells s.now nan) (cells kc.now nan) (cells ks.now nan)
        (factor_of functional love.now field.gm field.radius r)
        (min field.nmax kernel.nmax)) }
    ensures within_margin { WithinMargin
        (cells c.now nan) (cells s.now nan) (cells kc.now nan) (cells ks.now nan)
        (factor_of functional love.now field.gm field.radius r)
        (min field.nmax kernel.nmax) result }
{
    let top = storage::smaller(field.nmax, kernel.nmax);
    let lacks = functional.lacks_love(love.len(), top);
    average_check(
        field.nmax,
        c.len(),
        s.len(),
        kernel.nmax,
        kc.len(),
        ks.len(),
        lacks,
    )?;
    let sum = sum_degrees(top, field, c, s, kc, ks, functional, love, r);
    Ok(sum / kc[0])
}
