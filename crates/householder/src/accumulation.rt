// The product of the reflections: Q - 2(Qv)vᵀ.
ghost use Rattle.std.specs.Prelude.{◌≡◌, ◌+◌, ◌-◌, ◌*◌, ◌≤◌, ◌<◌, length};
ghost use Rattle.std.specs.Float.{nan};
ghost use Rattle.storage.specs.Elements.{from};
ghost use Rattle.storage.specs.Filled.{Filled};
ghost use Rattle.storage.specs.Rectangle.{by_rows};
ghost use Rattle.matrix.specs.Layout.{transposed, Room, Kept};
ghost use Rattle.householder.specs.Reduction.{accumulated};
ghost use Rattle.householder.specs.Columns.{accumulated_run, accumulated_columns};

use crate::columns::product;

// One column, from index `at` on, with its number vj of v, and p = Qv.
fn accumulate_column(n: usize, at: usize, vj: f64, p: &[f64], q: &mut [f64])
    requires fact_1 { n ≤ length p.now }
    requires fact_2 { at + n ≤ length q.old }
    ensures { Filled at (accumulated_run at vj p.now q.old) n q.old q.new }
{
    for i in 0..n {
        q[at + i] = q[at + i] - 2.0 * p[i] * vj;
    }
}

// The columns from lo on.
fn accumulate_columns(n: usize, lo: usize, v: &[f64], p: &[f64], q: &mut [f64])
    requires fact_1 { lo ≤ n }
    requires fact_2 { n ≤ length v.now }
    requires fact_3 { n ≤ length p.now }
    requires fact_4 { Room n q.old }
    ensures { Filled (lo * n) (by_rows (accumulated_columns n lo v.now p.now q.old) n) ((n - lo) * n)
        q.old q.new }
{
    for j in 0..n - lo {
        accumulate_column(n, matrix::row(n, lo + j), v[lo + j], p, q);
    }
}

// The matrix QH.
pub fn accumulate(n: usize, k: usize, v: &[f64], p: &mut [f64], q: &mut [f64])
    requires fact_1 { k < n }
    requires fact_2 { n ≤ length v.now }
    requires fact_3 { n ≤ length p.old }
    requires fact_4 { Room n q.old }
    ensures fact_1 { transposed n q.new ≡ accumulated n k (transposed n q.old) (from 0 v.now nan) }
    ensures fact_2 { Kept (n * n) q.old q.new }
{
    product(n, k + 1, q, v, p);
    accumulate_columns(n, k + 1, v, p, q);
}
