// Eigenvalues and eigenvectors of a symmetric matrix by cyclic Jacobi rotations. The product of the rotations is held column by column, so that its
// columns, which are rotated, are runs of the storage.
#![tactic(auto)]

ghost use Rattle.std.specs.Prelude.{◌≡◌, ◌++◌, ◌+◌, ◌*◌, ◌≤◌, ◌<◌, length, drop};
ghost use Rattle.matrix.specs.Layout.{plain, Kept, Room};
ghost use Rattle.jacobi.specs.Jacobi.{state, squares, add_off_row, off_squares, ratio, tangent, cosine, rotate, rotate_at, sweep_row, sweep, sweeps};
ghost use Rattle.jacobi.specs.Jacobi.{jacobi, jacobi_values, jacobi_vectors, jacobi_sweeps, jacobi_settled};
ghost use Rattle.jacobi.specs.JacobiLaws.{held, Became};

use matrix::Convergence;

// The sum of the squares of all numbers.
fn squares(a: &[f64]) -> f64
    ensures { result ≡ squares a.now }
{
    let size = a.len();
    let mut t = 0.0;
    for k in 0..size {
        t = t + a[k] * a[k];
    }
    t
}

// The sum `from`, and the squares of row p above the diagonal.
fn add_off_row(n: usize, p: usize, from: f64, a: &[f64]) -> f64
    requires fact_1 { Room n a.now }
    requires fact_2 { p < n }
    ensures { result ≡ add_off_row n (plain n a.now) p from }
{
    let at = matrix::row(n, p);
    let mut t = from;
    for q in p + 1..n {
        t = t + a[at + q] * a[at + q];
    }
    t
}

// The sum of the squares above the diagonal.
fn off_squares(n: usize, a: &[f64]) -> f64
    requires { Room n a.now }
    ensures { result ≡ off_squares n (plain n a.now) }
{
    let mut t = 0.0;
    for p in 0..n {
        t = add_off_row(n, p, t, a);
    }
    t
}

// The cotangent of twice the angle of the rotation that zeroes a_pq.
fn ratio(n: usize, p: usize, q: usize, a: &[f64]) -> f64
    requires fact_1 { Room n a.now }
    requires fact_2 { p < n }
    requires fact_3 { q < n }
    ensures { result ≡ ratio n p q (plain n a.now) }
{
    let qq = matrix::cell(n, q, q);
    let pp = matrix::cell(n, p, p);
    let pq = matrix::cell(n, p, q);
    (a[qq] - a[pp]) / (2.0 * a[pq])
}

// The tangent of that angle, of the two the smaller.
fn tangent(theta: f64) -> f64
    ensures { result ≡ tangent theta }
{
    number::signum(theta) / (number::magnitude(theta) + number::hypot(theta, 1.0))
}

// The cosine of an angle by its tangent.
fn cosine(t: f64) -> f64
    ensures { result ≡ cosine t }
{
    1.0 / number::hypot(t, 1.0)
}

// The rotation with the cosine c and the sine s.
fn rotate(c: f64, s: f64, n: usize, p: usize, q: usize, a: &mut [f64], v: &mut [f64])
    requires fact_1 { Room n a.old }
    requires fact_2 { Room n v.old }
    requires fact_3 { p < q }
    requires fact_4 { q < n }
    ensures { Became n (rotate c s n p q (held n a.old v.old))
        a.old v.old a.new v.new }
{
    matrix::rotate_columns(a, n, p, q, c, s);
    matrix::rotate_rows(a, n, p, q, c, s);
    matrix::rotate_rows(v, n, p, q, c, s);
}

// The rotation that zeroes a_pq, where that is not zero.
fn rotate_at(n: usize, p: usize, q: usize, a: &mut [f64], v: &mut [f64])
    requires fact_1 { Room n a.old }
    requires fact_2 { Room n v.old }
    requires fact_3 { p < q }
    requires fact_4 { q < n }
    ensures { Became n (rotate_at n p q (held n a.old v.old))
        a.old v.old a.new v.new }
{
    let pq = matrix::cell(n, p, q);
    if a[pq] == 0.0 {
        return;
    }
    let t = tangent(ratio(n, p, q, a));
    let c = cosine(t);
    rotate(c, t * c, n, p, q, a, v);
}

// The rotations of p with every q above it.
fn sweep_row(n: usize, p: usize, a: &mut [f64], v: &mut [f64])
    requires fact_1 { Room n a.old }
    requires fact_2 { Room n v.old }
    requires fact_3 { p < n }
    ensures { Became n (sweep_row n p (held n a.old v.old))
        a.old v.old a.new v.new }
{
    for q in p + 1..n {
        rotate_at(n, p, q, a, v);
    }
}

// The rotations of every p.
fn sweep(n: usize, a: &mut [f64], v: &mut [f64])
    requires fact_1 { Room n a.old }
    requires fact_2 { Room n v.old }
    ensures { Became n (sweep n (held n a.old v.old))
        a.old v.old a.new v.new }
{
    for p in 0..n {
        sweep_row(n, p, a, v);
    }
}

// At most 100 sweeps, with the test before each.
fn sweeps(n: usize, scale: f64, a: &mut [f64], v: &mut [f64]) -> Convergence
    requires fact_1 { Room n a.old }
    requires fact_2 { Room n v.old }
    ensures fact_1 { state (held n a.new v.new) result.count result.settled ≡ sweeps n scale (held n a.old v.old) }
    ensures fact_2 { Kept (n * n) a.old a.new }
    ensures fact_3 { Kept (n * n) v.old v.new }
    ensures fact_4 { result.count ≤ 100 }
{
    for k in 0..100 {
        if off_squares(n, a) <= 1e-34 * scale {
            return Convergence {
                settled: true,
                count: k,
            };
        }
        sweep(n, a, v);
    }
    Convergence {
        settled: false,
        count: 100,
    }
}

// The matrix a, rotated until it is diagonal or the sweeps are over, in the list of the vectors, and the product of the rotations in the working list.
fn diagonalize(n: usize, a: &[f64], work: &mut [f64], vectors: &mut [f64]) -> Convergence
    requires fact_1 { length a.now ≡ n * n }
    requires fact_2 { Room n work.old }
    requires fact_3 { Room n vectors.old }
    ensures fact_1 { state (held n vectors.new work.new) result.count result.settled ≡ jacobi n a.now }
    ensures fact_2 { Kept (n * n) vectors.old vectors.new }
    ensures fact_3 { Kept (n * n) work.old work.new }
    ensures fact_4 { result.count ≤ 100 }
{
    matrix::copy(a.len(), a, vectors);
    matrix::identity(n, work);
    let scale = squares(a);
    sweeps(n, scale, vectors, work)
}

// The eigenvalues of the n by n matrix a, and its eigenvectors as columns, at the front of the two lists. What stands in the first n² + 4n numbers of
// the working list afterwards is left free. The matrix stands in the list of the vectors while it is rotated.
pub fn solve(
    n: usize,
    a: &[f64],
    work: &mut [f64],
    values: &mut [f64],
    vectors: &mut [f64],
) -> Convergence
    requires fact_1 { n ≤ 512 }
    requires fact_2 { length a.now ≡ n * n }
    requires fact_3 { n * n + 4 * n ≤ length work.old }
    requires fact_4 { n ≤ length values.old }
    requires fact_5 { n * n ≤ length vectors.old }
    ensures values_after { values.new ≡ jacobi_values n a.now ++ drop n values.old }
    ensures vectors_after { vectors.new ≡ jacobi_vectors n a.now ++ drop (n * n) vectors.old }
    ensures kept { Kept (n * n + 4 * n) work.old work.new }
    ensures sweeps_value_1 { result.count ≡ jacobi_sweeps n a.now }
    ensures sweeps_value_2 { result.settled ≡ jacobi_settled n a.now }
    ensures sweeps_value_3 { result.count ≤ 100 }
{
    let r = diagonalize(n, a, work, vectors);
    matrix::diagonal(n, vectors, values);
    matrix::transpose(n, work, vectors);
    r
}
