// Degree variances and degree amplitudes.
ghost use Rattle.std.specs.Prelude.{◌≡◌, ℕ, ◌+◌, ◌≤◌, ◌<◌, length};
ghost use Rattle.number.specs.Float64.{◌⊕◌, zero64};
ghost use Rattle.storage.specs.Filled.{Filled};
ghost use Rattle.storage.specs.Fold.{fold_left};
ghost use Rattle.storage.specs.Triangle.{table_size};
ghost use Rattle.coefficients.specs.Values.{squares_from, variance_of, amplitude_from, amplitude_of};

use functional::Functional;

// The sum of the squares of row n, which starts at index `at`.
fn degree_sum(at: usize, n: usize, c: &[f64], s: &[f64]) -> f64
    requires fact_1 { at + n < length c.now }
    requires fact_2 { at + n < length s.now }
    ensures { result ≡ fold_left ◌⊕◌ (squares_from at c.now s.now) zero64 (n + 1) }
{
    let count = n + 1;
    let mut sum = 0.0;
    for m in 0..count {
        let cnm = c[at + m];
        let snm = s[at + m];
        sum = sum + (cnm * cnm + snm * snm);
    }
    sum
}

// The sums of two rows that follow each other.
#[derive(Clone, Copy)]
struct RowSums {
    first: f64,
    second: f64,
}

// The sums of the squares of rows n and n + 1, where row n starts at index `at`. Each sum is a chain of additions that wait for each
// other; two chains side by side take the time of one.
fn two_degree_sums(at: usize, n: usize, c: &[f64], s: &[f64]) -> RowSums
    requires fact_1 { at + n + n + 2 < length c.now }
    requires fact_2 { at + n + n + 2 < length s.now }
    ensures fact_1 { result.first ≡ fold_left ◌⊕◌ (squares_from at c.now s.now) zero64 (n + 1) }
    ensures fact_2 { result.second ≡ fold_left ◌⊕◌ (squares_from (at + n + 1) c.now s.now) zero64 (n + 1 + 1) }
{
    let count = n + 1;
    let next = at + n + 1;
    let mut first = 0.0;
    let mut second = 0.0;
    for order in 0..count {
        let cn = c[at + order];
        let sn = s[at + order];
        let cnext = c[next + order];
        let snext = s[next + order];
        first = first + (cn * cn + sn * sn);
        second = second + (cnext * cnext + snext * snext);
    }
    let clast = c[next + count];
    let slast = s[next + count];
    RowSums {
        first: first,
        second: second + (clast * clast + slast * slast),
    }
}

// The variance of each degree up to nmax.
pub fn variances(nmax: usize, c: &[f64], s: &[f64], out: &mut [f64])
    requires fact_1 { nmax ≤ 2700 }
    requires fact_2 { table_size nmax ≤ length c.now }
    requires fact_3 { table_size nmax ≤ length s.now }
    requires fact_4 { nmax < length out.old }
    ensures { Filled 0 (variance_of c.now s.now) (nmax + 1) out.old out.new }
{
    let mut at = 0;
    for pair in 0..(nmax + 1) / 2 {
        let n = 2 * pair;
        let sums = two_degree_sums(at, n, c, s);
        out[n] = sums.first;
        out[n + 1] = sums.second;
        at = at + (2 * n + 3);
    }
    if nmax % 2 == 0 {
        out[nmax] = degree_sum(at, nmax, c, s);
    }
}

// The amplitude of degree n from its variance.
fn amplitude(
    functional: Functional,
    love: &[f64],
    gm: f64,
    radius: f64,
    n: usize,
    variance: f64,
) -> f64
    requires { n ≤ 2700 }
    ensures { result ≡ amplitude_from functional love.now gm radius n variance }
{
    number::magnitude(functional.degree_factor(love, n, gm, radius, radius))
        * number::root(variance)
}

// The amplitude of each degree up to nmax.
pub fn amplitudes(
    functional: Functional,
    love: &[f64],
    gm: f64,
    radius: f64,
    nmax: usize,
    c: &[f64],
    s: &[f64],
    out: &mut [f64],
)
    requires fact_1 { nmax ≤ 2700 }
    requires fact_2 { table_size nmax ≤ length c.now }
    requires fact_3 { table_size nmax ≤ length s.now }
    requires fact_4 { nmax < length out.old }
    ensures { Filled 0 (amplitude_of functional love.now gm radius c.now s.now) (nmax + 1)
        out.old out.new }
{
    variances(nmax, c, s, out);
    for n in 0..nmax + 1 {
        out[n] = amplitude(functional, love, gm, radius, n, out[n]);
    }
}
