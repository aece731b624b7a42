// Vectors in lists: the inner product, the norm and the Householder vector of a column.
ghost use Rattle.std.specs.Prelude.{◌≡◌, ◌+◌, ◌≤◌, length};
ghost use Rattle.std.specs.Float.{nan};
ghost use Rattle.storage.specs.Elements.{from};
ghost use Rattle.storage.specs.Filled.{Filled};
ghost use Rattle.householder.specs.Reduction.{dot, norm, alpha_of, less_alpha_at, less_alpha, householder_vector};
ghost use Rattle.householder.specs.Columns.{quotient, less_multiple};

// The inner product of x, from index `xat` on, and y, from index `yat` on, over the indices from lo to hi - 1.
pub fn dot(x: &[f64], xat: usize, y: &[f64], yat: usize, lo: usize, hi: usize) -> f64
    requires fact_1 { lo ≤ hi }
    requires fact_2 { xat + hi ≤ length x.now }
    requires fact_3 { yat + hi ≤ length y.now }
    ensures { result ≡ dot (from xat x.now nan) (from yat y.now nan) lo hi }
{
    let mut sum = 0.0;
    for i in lo..hi {
        sum = sum + x[xat + i] * y[yat + i];
    }
    sum
}

// The norm of x, from index `at` on, over the indices from lo to hi - 1.
pub fn norm(x: &[f64], at: usize, lo: usize, hi: usize) -> f64
    requires fact_1 { lo ≤ hi }
    requires fact_2 { at + hi ≤ length x.now }
    ensures { result ≡ norm (from at x.now nan) lo hi }
{
    number::root(dot(x, at, x, at, lo, hi))
}

// The number that the reflection of a column leaves below the diagonal: the norm, with the sign that the column's number there has not.
fn alpha(size: f64, x0: f64) -> f64
    ensures { result ≡ alpha_of size x0 }
{
    if x0 >= 0.0 { -size } else { size }
}

// Number i of a column x, less alpha at index k + 1, and 0 above it.
fn less_alpha_at(k: usize, size: f64, i: usize, x: f64) -> f64
    requires { k ≤ 512 }
    ensures { result ≡ less_alpha_at k size x i }
{
    if i <= k {
        return 0.0;
    }
    if i == k + 1 {
        return x - alpha(size, x);
    }
    x
}

// The column that starts at index `at`, less alpha, in v.
fn less_alpha(n: usize, k: usize, size: f64, at: usize, w: &[f64], v: &mut [f64])
    requires fact_1 { k ≤ 512 }
    requires fact_2 { at + n ≤ length w.now }
    requires fact_3 { n ≤ length v.old }
    ensures { Filled 0 (less_alpha k size (from at w.now nan)) n v.old v.new }
{
    for i in 0..n {
        v[i] = less_alpha_at(k, size, i, w[at + i]);
    }
}

// v over s.
fn divide(n: usize, s: f64, v: &mut [f64])
    requires { n ≤ length v.old }
    ensures { Filled 0 (quotient s v.old) n v.old v.new }
{
    for i in 0..n {
        v[i] = v[i] / s;
    }
}

// The Householder vector of the column that starts at index `at`, whose norm below index k is `size`.
pub fn householder_vector(n: usize, k: usize, size: f64, at: usize, w: &[f64], v: &mut [f64])
    requires fact_1 { k ≤ 512 }
    requires fact_2 { at + n ≤ length w.now }
    requires fact_3 { n ≤ length v.old }
    ensures { Filled 0 (householder_vector n k size (from at w.now nan)) n v.old v.new }
{
    less_alpha(n, k, size, at, w, v);
    let s = norm(v, 0, 0, n);
    divide(n, s, v);
}

// p less x times v.
pub fn subtract_multiple(n: usize, x: f64, v: &[f64], p: &mut [f64])
    requires fact_1 { n ≤ length v.now }
    requires fact_2 { n ≤ length p.old }
    ensures { Filled 0 (less_multiple x v.now p.old) n p.old p.new }
{
    for i in 0..n {
        p[i] = p[i] - x * v[i];
    }
}
