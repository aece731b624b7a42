// The calls of the crate linalg: eigenvalues and eigenvectors of symmetric matrices.
ghost use Rattle.std.specs.Prelude.{◌≡◌, ◌+◌, ◌*◌, ◌≤◌, length};
ghost use Rattle.std.specs.Float.{nan};
ghost use Rattle.refusal.specs.Numbers.{after, behind, result_number};
ghost use Rattle.storage.specs.Elements.{from};
ghost use Rattle.storage.specs.Fill.{fill};
ghost use Rattle.linalg.specs.Eigen.{householder_values, householder_vectors, householder_convergence};
ghost use Rattle.linalg.specs.Eigen.{eigen_values, eigen_vectors, eigen_convergence, eigen_limit, eigen_check};
ghost use Rattle.linalg.specs.Solution.{settled_number};
ghost use Rattle.geopotential.specs.Matrices.{settled_after, count_after};

use linalg::Convergence;
use refusal::Refusal;

// Hands on through `settled` and `count` how a solver ended, which a refusal leaves alone; answers 0 or the number of the refusal.
pub fn hand_on_convergence(
    a: Result<Convergence, Refusal>,
    settled: &mut u32,
    count: &mut usize,
) -> u32
    ensures value { result ≡ result_number a }
    ensures settled_after { settled.new ≡ settled_after a settled.old }
    ensures count_after { count.new ≡ count_after a count.old }
{
    match a {
        Ok(c) => {
            *settled = u32::from(c.settled);
            *count = c.count;
            0
        }
        Err(e) => u32::from(e),
    }
}

pub fn geopotential_symmetric_eigen(
    n: usize,
    a: &[f64],
    work: &mut [f64],
    values: &mut [f64],
    vectors: &mut [f64],
    settled: &mut u32,
    count: &mut usize,
) -> u32
    ensures value { result ≡ result_number (eigen_check n (length a.now) (length work.old) (length values.old)
        (length vectors.old)) }
    ensures values_after { values.new ≡ after
        (eigen_check n (length a.now) (length work.old) (length values.old) (length vectors.old))
        (fill 0 (from 0 (eigen_values n a.now) nan) n values.old) values.old }
    ensures vectors_after { vectors.new ≡ after
        (eigen_check n (length a.now) (length work.old) (length values.old) (length vectors.old))
        (fill 0 (from 0 (eigen_vectors n a.now) nan) (n * n) vectors.old) vectors.old }
    ensures work_unchanged { behind
        (eigen_check n (length a.now) (length work.old) (length values.old) (length vectors.old))
        (n * n + 4 * n) work.new
        ≡ behind
        (eigen_check n (length a.now) (length work.old) (length values.old) (length vectors.old))
        (n * n + 4 * n) work.old }
    ensures work_len_unchanged { length work.new ≡ length work.old }
    ensures settled_after { settled.new ≡ after
        (eigen_check n (length a.now) (length work.old) (length values.old) (length vectors.old))
        (settled_number (eigen_convergence n a.now).settled) settled.old }
    ensures count_after { count.new ≡ after
        (eigen_check n (length a.now) (length work.old) (length values.old) (length vectors.old))
        (eigen_convergence n a.now).count count.old }
    ensures count_bound { result ≡ 0 → count.new ≤ eigen_limit n }
{
    let ended = linalg::symmetric_eigen(n, a, work, values, vectors);
    hand_on_convergence(ended, settled, count)
}

pub fn geopotential_householder_ql(
    n: usize,
    a: &[f64],
    work: &mut [f64],
    values: &mut [f64],
    vectors: &mut [f64],
    settled: &mut u32,
    count: &mut usize,
) -> u32
    ensures value { result ≡ result_number (eigen_check n (length a.now) (length work.old) (length values.old)
        (length vectors.old)) }
    ensures values_after { values.new ≡ after
        (eigen_check n (length a.now) (length work.old) (length values.old) (length vectors.old))
        (fill 0 (from 0 (householder_values n a.now) nan) n values.old) values.old }
    ensures vectors_after { vectors.new ≡ after
        (eigen_check n (length a.now) (length work.old) (length values.old) (length vectors.old))
        (fill 0 (from 0 (householder_vectors n a.now) nan) (n * n) vectors.old) vectors.old }
    ensures work_unchanged { behind
        (eigen_check n (length a.now) (length work.old) (length values.old) (length vectors.old))
        (n * n + 4 * n) work.new
        ≡ behind
        (eigen_check n (length a.now) (length work.old) (length values.old) (length vectors.old))
        (n * n + 4 * n) work.old }
    ensures work_len_unchanged { length work.new ≡ length work.old }
    ensures settled_after { settled.new ≡ after
        (eigen_check n (length a.now) (length work.old) (length values.old) (length vectors.old))
        (settled_number (householder_convergence n a.now).settled) settled.old }
    ensures count_after { count.new ≡ after
        (eigen_check n (length a.now) (length work.old) (length values.old) (length vectors.old))
        (householder_convergence n a.now).count count.old }
    ensures count_bound { result ≡ 0 → count.new ≤ 100 * n }
{
    let ended = linalg::householder_ql(n, a, work, values, vectors);
    hand_on_convergence(ended, settled, count)
}
