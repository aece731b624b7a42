// Eigenvalues and eigenvectors of a symmetric matrix: values in no particular order, vectors as columns. A matrix that has not settled is still
// answered, and the answer says so.
#![tactic(auto)]

pub mod within;

ghost use Rattle.std.specs.Prelude.{◌≡◌, ◌+◌, ◌*◌, ◌≤◌, length};
ghost use Rattle.std.specs.Float.{nan};
ghost use Rattle.refusal.specs.Numbers.{after, behind, outcome, result_number, value_if};
ghost use Rattle.storage.specs.Elements.{from};
ghost use Rattle.storage.specs.Fill.{fill};
ghost use Rattle.storage.specs.Filled.{Filled};
ghost use Rattle.matrix.specs.Layout.{Kept};
ghost use Rattle.linalg.specs.Eigen.{householder_values, householder_vectors, householder_convergence};
ghost use Rattle.linalg.specs.Eigen.{eigen_values, eigen_vectors, eigen_convergence, eigen_limit, eigen_check};
ghost use Rattle.linalg.specs.Solution.{count_in};

pub use matrix::Convergence;
use refusal::Refusal;

// The most rows of a matrix.
pub const MAX_ROWS: usize = 512;

// By Householder reduction and QL iteration. The iteration leaves the vectors column by column; they are turned to rows in the working list.
fn reduce_and_iterate(
    n: usize,
    a: &[f64],
    work: &mut [f64],
    values: &mut [f64],
    vectors: &mut [f64],
) -> Convergence
    requires fact_1 { n ≤ 512 }
    requires fact_2 { length a.now ≡ n * n }
    requires fact_3 { n * n + 4 * n ≤ length work.old }
    requires fact_4 { n ≤ length values.old }
    requires fact_5 { n * n ≤ length vectors.old }
    ensures filled { Filled 0 (from 0 (householder_values n a.now) nan) n values.old values.new }
    ensures filled_2 { Filled 0 (from 0 (householder_vectors n a.now) nan) (n * n) vectors.old vectors.new }
    ensures kept { Kept (n * n + 4 * n) work.old work.new }
    ensures value { result ≡ householder_convergence n a.now }
{
    householder::reduce(n, a, work, values, vectors);
    let ended = ql::iterate(n, &mut values[..n], &mut work[..n], vectors);
    matrix::transpose(n, vectors, work);
    matrix::copy(a.len(), work, vectors);
    ended
}

// Up to n = 32 by Jacobi rotations, which keep small values accurate; above it by reduction and iteration, which take one n³ and not one a sweep.
pub fn eigen(
    n: usize,
    a: &[f64],
    work: &mut [f64],
    values: &mut [f64],
    vectors: &mut [f64],
) -> Convergence
    requires fact_1 { n ≤ 512 }
    requires fact_2 { length a.now ≡ n * n }
    requires fact_3 { n * n + 4 * n ≤ length work.old }
    requires fact_4 { n ≤ length values.old }
    requires fact_5 { n * n ≤ length vectors.old }
    ensures filled { Filled 0 (from 0 (eigen_values n a.now) nan) n values.old values.new }
    ensures filled_2 { Filled 0 (from 0 (eigen_vectors n a.now) nan) (n * n) vectors.old vectors.new }
    ensures kept { Kept (n * n + 4 * n) work.old work.new }
    ensures value { result ≡ eigen_convergence n a.now }
{
    if n > 32 {
        return reduce_and_iterate(n, a, work, values, vectors);
    }
    jacobi::solve(n, a, work, values, vectors)
}

// SIZE, LENGTH and SPACE, over the lengths of the lists.
fn eigen_check(
    n: usize,
    a: usize,
    work: usize,
    values: usize,
    vectors: usize,
) -> Result<(), Refusal>
    ensures { result ≡ eigen_check n a work values vectors }
{
    if n > MAX_ROWS {
        return Err(Refusal::Size);
    }
    let size = n * n;
    if a != size {
        return Err(Refusal::Length);
    }
    if work < size + 4 * n {
        return Err(Refusal::Space);
    }
    if values < n {
        return Err(Refusal::Space);
    }
    if vectors < size {
        return Err(Refusal::Space);
    }
    Ok(())
}

// The eigenvalues of the n by n matrix a, and its eigenvectors as columns, at the front of the two lists. What stands in the first n² + 4n numbers of
// the working list afterwards is left free. The count is at most 100 up to n = 32, and 100n above it.
pub fn symmetric_eigen(
    n: usize,
    a: &[f64],
    work: &mut [f64],
    values: &mut [f64],
    vectors: &mut [f64],
) -> Result<Convergence, Refusal>
    ensures value_1 { result ≡ value_if (eigen_check n (length a.now) (length work.old) (length values.old)
        (length vectors.old)) (eigen_convergence n a.now) }
    ensures value_2 { count_in result ≤ eigen_limit n }
    ensures values_after { values.new
        ≡ after (outcome result) (fill 0 (from 0 (eigen_values n a.now) nan) n values.old) values.old }
    ensures vectors_after { vectors.new
        ≡ after (outcome result) (fill 0 (from 0 (eigen_vectors n a.now) nan) (n * n) vectors.old) vectors.old }
    ensures work_unchanged { behind (outcome result) (n * n + 4 * n) work.new ≡ behind (outcome result) (n * n + 4 * n) work.old }
    ensures work_len_unchanged { length work.new ≡ length work.old }
{
    eigen_check(n, a.len(), work.len(), values.len(), vectors.len())?;
    Ok(eigen(n, a, work, values, vectors))
}

// The same by Householder reduction and QL iteration at every n, with a count of at most 100n (Golub & Van Loan, Matrix Computations, Algorithms 8.3.1
// and 8.3.3; EISPACK's tred2 and tql2).
pub fn householder_ql(
    n: usize,
    a: &[f64],
    work: &mut [f64],
    values: &mut [f64],
    vectors: &mut [f64],
) -> Result<Convergence, Refusal>
    ensures value_1 { result ≡ value_if (eigen_check n (length a.now) (length work.old) (length values.old)
        (length vectors.old)) (householder_convergence n a.now) }
    ensures value_2 { count_in result ≤ 100 * n }
    ensures values_after { values.new
        ≡ after (outcome result) (fill 0 (from 0 (householder_values n a.now) nan) n values.old) values.old }
    ensures vectors_after { vectors.new
        ≡ after (outcome result) (fill 0 (from 0 (householder_vectors n a.now) nan) (n * n) vectors.old) vectors.old }
    ensures work_unchanged { behind (outcome result) (n * n + 4 * n) work.new ≡ behind (outcome result) (n * n + 4 * n) work.old }
    ensures work_len_unchanged { length work.new ≡ length work.old }
{
    eigen_check(n, a.len(), work.len(), values.len(), vectors.len())?;
    Ok(reduce_and_iterate(n, a, work, values, vectors))
}
