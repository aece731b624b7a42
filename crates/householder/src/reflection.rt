// One Householder reflection of the matrix: A - 2vqᵀ - 2qvᵀ.
ghost use Rattle.std.specs.Prelude.{◌≡◌, ◌+◌, ◌*◌, ◌≤◌, ◌<◌, length};
ghost use Rattle.std.specs.Float.{nan};
ghost use Rattle.storage.specs.Elements.{from};
ghost use Rattle.storage.specs.Filled.{Filled};
ghost use Rattle.storage.specs.Rectangle.{by_rows};
ghost use Rattle.matrix.specs.Layout.{transposed, Room, Kept};
ghost use Rattle.householder.specs.Reduction.{reflected};
ghost use Rattle.householder.specs.Columns.{updated_run, updated_columns};

use crate::columns::product;
use crate::vector::{dot, subtract_multiple};

// One column, from index `at` on, with its numbers vj of v and qj of q.
fn update_column(n: usize, at: usize, vj: f64, qj: f64, v: &[f64], q: &[f64], w: &mut [f64])
    requires fact_1 { n ≤ length v.now }
    requires fact_2 { n ≤ length q.now }
    requires fact_3 { at + n ≤ length w.old }
    ensures { Filled at (updated_run at vj qj v.now q.now w.old) n w.old w.new }
{
    for i in 0..n {
        w[at + i] = w[at + i] - 2.0 * (v[i] * qj + q[i] * vj);
    }
}

// All columns.
fn update(n: usize, v: &[f64], q: &[f64], w: &mut [f64])
    requires fact_1 { n ≤ length v.now }
    requires fact_2 { n ≤ length q.now }
    requires fact_3 { Room n w.old }
    ensures { Filled 0 (by_rows (updated_columns n v.now q.now w.old) n) (n * n)
        w.old w.new }
{
    for j in 0..n {
        update_column(n, matrix::row(n, j), v[j], q[j], v, q, w);
    }
}

// The matrix HAH, with q = p - (vᵀp)v from p = Av.
pub fn reflect(n: usize, k: usize, v: &[f64], p: &mut [f64], w: &mut [f64])
    requires fact_1 { k < n }
    requires fact_2 { n ≤ length v.now }
    requires fact_3 { n ≤ length p.old }
    requires fact_4 { Room n w.old }
    ensures fact_1 { transposed n w.new ≡ reflected n k (transposed n w.old) (from 0 v.now nan) }
    ensures fact_2 { Kept (n * n) w.old w.new }
{
    product(n, k + 1, w, v, p);
    let vp = dot(v, 0, p, 0, k + 1, n);
    subtract_multiple(n, vp, v, p);
    update(n, v, p, w);
}
