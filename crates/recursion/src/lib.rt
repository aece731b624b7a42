// The recursion coefficients of Holmes & Featherstone (2002), row by row along their storage. Each is one correctly rounded root, where rows are many by
// way of a guess from a product of tabled roots: nothing is promised of the guesses, and the answer does not depend on them.
#![tactic(auto)]

ghost use Rattle.std.specs.Prelude.{◌≡◌, ℕ, ◌+◌, ◌-◌, ◌*◌, ◌≤◌, ◌<◌, length};
ghost use Rattle.storage.specs.Filled.{Filled};
ghost use Rattle.storage.specs.Triangle.{row_start, table_size, rows_from};
ghost use Rattle.recursion.specs.Recursion.{a_cell, b_cell};
ghost use Rattle.recursion.specs.Tables.{with_tables};

// Up to so many rows take less time without guesses: tabling these takes two roots for each order of the last row.
const FEW_ROWS: usize = 4;

// About 1/√k at k = 1 .. 2 nmax, for the rows from degree `first` to nmax; nothing where these are few.
fn inverse_roots(first: usize, nmax: usize, out: &mut [f64])
    requires fact_1 { first ≤ nmax + 1 }
    requires fact_2 { nmax ≤ 2700 }
    requires fact_3 { nmax + nmax < length out.old }
{
    if nmax < first + FEW_ROWS {
        return;
    }
    let last = 2 * nmax;
    for k in 1..last + 1 {
        out[k] = number::root(1.0 / k as f64);
    }
}

// About √((k - 1)/k) likewise.
fn ratio_roots(first: usize, nmax: usize, out: &mut [f64])
    requires fact_1 { first ≤ nmax + 1 }
    requires fact_2 { nmax ≤ 2700 }
    requires fact_3 { nmax + nmax < length out.old }
{
    if nmax < first + FEW_ROWS {
        return;
    }
    let last = 2 * nmax;
    for k in 1..last + 1 {
        out[k] = number::root((k - 1) as f64 / k as f64);
    }
}

// The row of degree n of a, which starts at index `at`.
fn a_row(n: usize, at: usize, inverse: &[f64], a: &mut [f64])
    requires fact_1 { n ≤ 2700 }
    requires fact_2 { n + n < length inverse.now }
    requires fact_3 { at + n < length a.old }
    ensures { Filled at (a_cell n) (n + 1) a.old a.new }
{
    let nf = n as f64;
    let product = (2.0 * nf - 1.0) * (2.0 * nf + 1.0);
    let c = number::root(product);
    // m as a number, counted along since a cast takes longer
    let mut mf = 0.0;
    for m in 0..n {
        let guess = c * (inverse[n - m] * inverse[n + m]);
        a[at + m] = number::root_near(product / ((nf - mf) * (nf + mf)), guess);
        mf = mf + 1.0;
    }
    a[at + n] = 0.0;
}

// The row of degree n of b, which starts at index `at`.
fn b_row(n: usize, at: usize, ratio: &[f64], b: &mut [f64])
    requires fact_1 { n ≤ 2700 }
    requires fact_2 { n + n < length ratio.now }
    requires fact_3 { at + n < length b.old }
    ensures { Filled at (b_cell n) (n + 1) b.old b.new }
{
    if n == 0 {
        b[at] = 0.0;
        return;
    }
    let last = n - 1;
    let nf = n as f64;
    let above = 2.0 * nf + 1.0;
    let below = 2.0 * nf - 3.0;
    // √(above / below) - 1, closer than the difference
    let excess = 4.0 / below / (1.0 + number::root(above / below));
    let mut mf = 0.0;
    for m in 0..last {
        let product = ratio[n - m] * ratio[n + m];
        b[at + m] = number::root_near(
            above * (nf + mf - 1.0) * (nf - mf - 1.0) / ((nf - mf) * (nf + mf) * below),
            product + excess * product,
        );
        mf = mf + 1.0;
    }
    b[at + last] = 0.0;
    b[at + n] = 0.0;
}

// The rows of a from degree `first` to nmax, which start at index `start`; `inverse` may be overwritten.
pub fn a_rows(first: usize, start: usize, nmax: usize, inverse: &mut [f64], a: &mut [f64])
    requires fact_1 { first ≤ nmax + 1 }
    requires fact_2 { start ≡ row_start first }
    requires fact_3 { nmax ≤ 2700 }
    requires fact_4 { nmax + nmax < length inverse.old }
    requires fact_5 { table_size nmax ≤ length a.old }
    ensures { Filled start (rows_from a_cell first) (table_size nmax - start) a.old a.new }
{
    inverse_roots(first, nmax, inverse);
    let mut at = start;
    for n in first..nmax + 1 {
        a_row(n, at, inverse, a);
        at = at + n + 1;
    }
}

// The rows of b likewise, with `ratio`.
pub fn b_rows(first: usize, start: usize, nmax: usize, ratio: &mut [f64], b: &mut [f64])
    requires fact_1 { first ≤ nmax + 1 }
    requires fact_2 { start ≡ row_start first }
    requires fact_3 { nmax ≤ 2700 }
    requires fact_4 { nmax + nmax < length ratio.old }
    requires fact_5 { table_size nmax ≤ length b.old }
    ensures { Filled start (rows_from b_cell first) (table_size nmax - start) b.old b.new }
{
    ratio_roots(first, nmax, ratio);
    let mut at = start;
    for n in first..nmax + 1 {
        b_row(n, at, ratio, b);
        at = at + n + 1;
    }
}

// The rows of a from degree `first` to nmax, which start at index `start`. A low degree takes a short table of guesses, since clearing the long one
// takes longer than its rows.
pub fn a_table(first: usize, start: usize, nmax: usize, a: &mut [f64])
    requires { (first ≤ nmax + 1) × ((start ≡ row_start first) × ((nmax ≤ 2700) × (table_size nmax ≤ length a.old))) }
    ensures { Filled start (rows_from a_cell first) (table_size nmax - start) a.old a.new }
{
    if nmax < 128 {
        let mut inverse = [0.0; 256];
        a_rows(first, start, nmax, &mut inverse, a);
    } else {
        let mut inverse = [0.0; 5401];
        a_rows(first, start, nmax, &mut inverse, a);
    }
}

// The rows of b likewise.
pub fn b_table(first: usize, start: usize, nmax: usize, b: &mut [f64])
    requires { (first ≤ nmax + 1) × ((start ≡ row_start first) × ((nmax ≤ 2700) × (table_size nmax ≤ length b.old))) }
    ensures { Filled start (rows_from b_cell first) (table_size nmax - start) b.old b.new }
{
    if nmax < 128 {
        let mut ratio = [0.0; 256];
        b_rows(first, start, nmax, &mut ratio, b);
    } else {
        let mut ratio = [0.0; 5401];
        b_rows(first, start, nmax, &mut ratio, b);
    }
}

// The tables a and b of the recursion, one after the other at the front of the working list; `guesses` may be overwritten.
pub fn tables_by(nmax: usize, total: usize, guesses: &mut [f64], work: &mut [f64])
    requires fact_1 { nmax ≤ 2700 }
    requires fact_2 { total ≡ table_size nmax }
    requires fact_3 { nmax + nmax < length guesses.old }
    requires fact_4 { total + total ≤ length work.old }
    ensures { work.new ≡ with_tables nmax work.old }
{
    a_rows(0, 0, nmax, guesses, work);
    b_rows(0, 0, nmax, guesses, &mut work[total..]);
}

// The same with a table of guesses of its own, short for a low degree.
pub fn tables(nmax: usize, total: usize, work: &mut [f64])
    requires { (nmax ≤ 2700) × ((total ≡ table_size nmax) × (total + total ≤ length work.old)) }
    ensures { work.new ≡ with_tables nmax work.old }
{
    if nmax < 128 {
        let mut guesses = [0.0; 256];
        tables_by(nmax, total, &mut guesses, work);
    } else {
        let mut guesses = [0.0; 5401];
        tables_by(nmax, total, &mut guesses, work);
    }
}
