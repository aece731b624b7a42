// The coefficients, from the sums over the rows: each degree's entries over its factor.
ghost use Rattle.std.specs.Prelude.{◌+◌, ◌≤◌, ◌<◌, length};
ghost use Rattle.std.specs.Float.{nan};
ghost use Rattle.storage.specs.Elements.{from};
ghost use Rattle.storage.specs.Filled.{Filled};
ghost use Rattle.storage.specs.Triangle.{table_size, along};
ghost use Rattle.functional.specs.Factor.{factor_of};
ghost use Rattle.legendre_analysis.specs.Division.{quotient_row, divided_row, divided_cell};

use functional::Functional;

// The entries of degree n, which start at index `at`, over a factor that is not 0.
fn quotients(n: usize, at: usize, factor: f64, c: &mut [f64])
    requires { at + n < length c.old }
    ensures { Filled at (quotient_row factor at c.old) (n + 1) c.old c.new }
{
    let count = n + 1;
    for m in 0..count {
        c[at + m] = c[at + m] / factor;
    }
}

// The entries of degree n over its factor, and zeros where the factor equals 0.
fn divide_degree(n: usize, at: usize, factor: f64, c: &mut [f64])
    requires { at + n < length c.old }
    ensures { Filled at (divided_row factor at c.old) (n + 1) c.old c.new }
{
    if factor == 0.0 {
        storage::clear(n + 1, &mut c[at..]);
        return;
    }
    quotients(n, at, factor, c);
}

// All degrees.
fn divide_degrees(nmax: usize, factors: &[f64], c: &mut [f64])
    requires fact_1 { nmax ≤ 2700 }
    requires fact_2 { nmax < length factors.now }
    requires fact_3 { table_size nmax ≤ length c.old }
    ensures { Filled 0 (along (divided_cell (from 0 factors.now nan) c.old)) (table_size nmax)
        c.old c.new }
{
    let mut at = 0;
    for n in 0..nmax + 1 {
        divide_degree(n, at, factors[n], c);
        at = at + n + 1;
    }
}

// The factors of the functional, then both tables over them.
pub fn divide(
    functional: Functional,
    love: &[f64],
    r: f64,
    nmax: usize,
    gm: f64,
    radius: f64,
    factors: &mut [f64],
    c: &mut [f64],
    s: &mut [f64],
)
    requires fact_1 { nmax ≤ 2700 }
    requires fact_2 { nmax < length factors.old }
    requires fact_3 { table_size nmax ≤ length c.old }
    requires fact_4 { table_size nmax ≤ length s.old }
    ensures filled { Filled 0 (along (divided_cell (factor_of functional love.now gm radius r) c.old)) (table_size nmax)
        c.old c.new }
    ensures filled_2 { Filled 0 (along (divided_cell (factor_of functional love.now gm radius r) s.old)) (table_size nmax)
        s.old s.new }
{
    functional.factors(love, nmax, gm, radius, r, factors);
    divide_degrees(nmax, factors, c);
    divide_degrees(nmax, factors, s);
}
