// The eigenvalues and eigenvectors of a symmetric matrix inside one list: the matrix at its front, and the vectors behind it, one after the other.
ghost use Rattle.std.specs.Prelude.{◌≡◌, ◌+◌, ◌*◌, ◌≤◌, length};
ghost use Rattle.std.specs.Float.{nan};
ghost use Rattle.storage.specs.Elements.{from};
ghost use Rattle.storage.specs.Filled.{Filled};
ghost use Rattle.matrix.specs.Layout.{plain, Kept};
ghost use Rattle.householder_within.specs.Within.{Mirrored};
ghost use Rattle.linalg.specs.Eigen.{householder_values, householder_vectors, householder_convergence};
ghost use Rattle.linalg.specs.Eigen.{eigen_values, eigen_vectors, eigen_convergence};
ghost use Rattle.linalg.specs.Within.{VectorsBehind};

use crate::Convergence;

// By Householder reduction and QL iteration, which leaves the vectors column by column.
fn reduce_and_iterate_within(n: usize, w: &mut [f64], values: &mut [f64]) -> Convergence
    requires fact_1 { n ≤ 512 }
    requires fact_2 { n * n + (n * n + 4 * n) ≤ length w.old }
    requires fact_3 { n ≤ length values.old }
    requires fact_4 { Mirrored n w.old }
    ensures fact_1 { Filled 0 (from 0 (householder_values n (plain n w.old)) nan) n values.old values.new }
    ensures fact_2 { VectorsBehind n (householder_vectors n (plain n w.old)) w.new }
    ensures fact_3 { Kept (n * n + (n * n + 4 * n)) w.old w.new }
    ensures fact_4 { result ≡ householder_convergence n (plain n w.old) }
{
    let mut e = [0.0; 512];
    let at = n * n;
    householder_within::reduce_within(n, at, w, values, &mut e);
    ql::iterate(n, &mut values[..n], &mut e[..n], &mut w[at..])
}

// By `eigen`, for a matrix that short arrays hold: the part of the list behind the matrix is the working list, and then takes the vectors.
fn eigen_apart(n: usize, w: &mut [f64], values: &mut [f64]) -> Convergence
    requires fact_1 { n ≤ 32 }
    requires fact_2 { n * n + (n * n + 4 * n) ≤ length w.old }
    requires fact_3 { n ≤ length values.old }
    ensures fact_1 { Filled 0 (from 0 (eigen_values n (plain n w.old)) nan) n values.old values.new }
    ensures fact_2 { VectorsBehind n (eigen_vectors n (plain n w.old)) w.new }
    ensures fact_3 { Kept (n * n + (n * n + 4 * n)) w.old w.new }
    ensures fact_4 { result ≡ eigen_convergence n (plain n w.old) }
{
    let mut a = [0.0; 1024];
    let mut vectors = [0.0; 1024];
    let at = n * n;
    matrix::copy(at, w, &mut a);
    let r = crate::eigen(n, &a[..at], &mut w[at..], values, &mut vectors);
    matrix::transpose(n, &vectors, &mut w[at..]);
    r
}

// By the method that the size asks for, as `eigen`: a long matrix is overwritten.
pub fn eigen_within(n: usize, w: &mut [f64], values: &mut [f64]) -> Convergence
    requires fact_1 { n ≤ 512 }
    requires fact_2 { n * n + (n * n + 4 * n) ≤ length w.old }
    requires fact_3 { n ≤ length values.old }
    requires fact_4 { Mirrored n w.old }
    ensures fact_1 { Filled 0 (from 0 (eigen_values n (plain n w.old)) nan) n values.old values.new }
    ensures fact_2 { VectorsBehind n (eigen_vectors n (plain n w.old)) w.new }
    ensures fact_3 { Kept (n * n + (n * n + 4 * n)) w.old w.new }
    ensures fact_4 { result ≡ eigen_convergence n (plain n w.old) }
{
    if n > 32 {
        return reduce_and_iterate_within(n, w, values);
    }
    eigen_apart(n, w, values)
}
