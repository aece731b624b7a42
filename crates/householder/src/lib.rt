// The reduction of a matrix to tridiagonal form by Householder reflections. The matrix and the product of the reflections are held column by
// column: each column is a run of the storage, and every inner loop goes along runs.
#![tactic(auto)]

pub mod accumulation;
mod columns;
pub mod reflection;
pub mod vector;

ghost use Rattle.std.specs.Prelude.{◌≡◌, ◌+◌, ◌*◌, ◌≤◌, ◌<◌, length};
ghost use Rattle.storage.specs.Filled.{Filled};
ghost use Rattle.matrix.specs.Matrix.{diagonal_cell};
ghost use Rattle.matrix.specs.Layout.{transposed, Room, Kept};
ghost use Rattle.householder.specs.Reduction.{reduction_of, reflection, reductions, tridiagonal, subdiagonal_cell};
ghost use Rattle.householder.specs.Columns.{subdiagonal_in};

// The reflection that clears column k below the subdiagonal, of the matrix in w, and of the product of the reflections in q.
fn clear_column(n: usize, k: usize, v: &mut [f64], p: &mut [f64], w: &mut [f64], q: &mut [f64])
    requires fact_1 { k + 1 < n }
    requires fact_2 { n ≤ length v.old }
    requires fact_3 { n ≤ length p.old }
    requires fact_4 { Room n w.old }
    requires fact_5 { Room n q.old }
    ensures q_after { reduction_of (transposed n w.new) (transposed n q.new)
        ≡ reflection n k (reduction_of (transposed n w.old) (transposed n q.old)) }
    ensures kept_1 { Kept (n * n) w.old w.new }
    ensures kept_2 { Kept (n * n) q.old q.new }
{
    let at = matrix::row(n, k);
    let size = vector::norm(w, at, k + 1, n);
    if size == 0.0 {
        return;
    }
    vector::householder_vector(n, k, size, at, w, v);
    reflection::reflect(n, k, v, p, w);
    accumulation::accumulate(n, k, v, p, q);
}

// All reflections.
fn reflections(n: usize, v: &mut [f64], p: &mut [f64], w: &mut [f64], q: &mut [f64])
    requires fact_1 { n ≤ length v.old }
    requires fact_2 { n ≤ length p.old }
    requires fact_3 { Room n w.old }
    requires fact_4 { Room n q.old }
    ensures q_after { reduction_of (transposed n w.new) (transposed n q.new)
        ≡ reductions n (reduction_of (transposed n w.old) (transposed n q.old)) }
    ensures kept_1 { Kept (n * n) w.old w.new }
    ensures kept_2 { Kept (n * n) q.old q.new }
{
    for k in 0..n.saturating_sub(2) {
        clear_column(n, k, v, p, w, q);
    }
}

// The number below the diagonal in column i, and 0 in the last column, which has none.
pub fn subdiagonal_at(n: usize, i: usize, w: &[f64]) -> f64
    requires fact_1 { Room n w.now }
    requires fact_2 { i < n }
    ensures { result ≡ subdiagonal_in n w.now i }
{
    if i + 1 < n {
        let at = matrix::cell(n, i, i + 1);
        return w[at];
    }
    0.0
}

// The subdiagonal of the matrix in w, at the front of w: no number is written over before it is read.
fn subdiagonal(n: usize, w: &mut [f64])
    requires { Room n w.old }
    ensures { Filled 0 (subdiagonal_in n w.old) n w.old w.new }
{
    for i in 0..n {
        w[i] = subdiagonal_at(n, i, w);
    }
}

// The tridiagonal form of the n by n matrix a: its diagonal in `values`, its subdiagonal and a 0 in the first n numbers of `work`, and the
// orthogonal matrix of the reduction in `vectors`, column by column.
pub fn reduce(n: usize, a: &[f64], work: &mut [f64], values: &mut [f64], vectors: &mut [f64])
    requires fact_1 { length a.now ≡ n * n }
    requires fact_2 { Room n work.old }
    requires fact_3 { n ≤ length values.old }
    requires fact_4 { Room n vectors.old }
    ensures filled { Filled 0 (diagonal_cell n (tridiagonal n a.now).matrix) n values.old values.new }
    ensures filled_2 { Filled 0 (subdiagonal_cell n (tridiagonal n a.now).matrix) n work.new work.new }
    ensures vectors_after { transposed n vectors.new ≡ (tridiagonal n a.now).orthogonal }
    ensures kept_1 { Kept (n * n) work.old work.new }
    ensures kept_2 { Kept (n * n) vectors.old vectors.new }
{
    let mut v = [0.0; 512];
    let mut p = [0.0; 512];
    matrix::transpose(n, a, work);
    matrix::identity(n, vectors);
    reflections(n, &mut v, &mut p, work, vectors);
    matrix::diagonal(n, work, values);
    subdiagonal(n, work);
}
