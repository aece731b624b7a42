// The reduction of a symmetric matrix to tridiagonal form inside one list: the matrix at its front, the product of the reflections from index `at` on,
// both column by column. Two parts of one list can't be lent for writing at once, and no step needs both.
#![tactic(auto)]

ghost use Rattle.std.specs.Prelude.{◌≡◌, ◌+◌, ◌*◌, ◌≤◌, ◌<◌, length, drop};
ghost use Rattle.storage.specs.Filled.{Filled};
ghost use Rattle.matrix.specs.Matrix.{diagonal_cell};
ghost use Rattle.matrix.specs.Layout.{plain, transposed, Room, Kept};
ghost use Rattle.householder.specs.Reduction.{reflection, reductions, tridiagonal, subdiagonal_cell};
ghost use Rattle.householder.specs.Columns.{subdiagonal_in};
ghost use Rattle.householder_within.specs.Within.{held_within, RoomWithin, Mirrored};

// The reflection that clears column k below the subdiagonal.
fn clear_column(n: usize, k: usize, at: usize, v: &mut [f64], p: &mut [f64], w: &mut [f64])
    requires fact_1 { k + 1 < n }
    requires fact_2 { n ≤ length v.old }
    requires fact_3 { n ≤ length p.old }
    requires fact_4 { RoomWithin n at w.old }
    ensures fact_1 { held_within n at w.new ≡ reflection n k (held_within n at w.old) }
    ensures fact_2 { Kept (at + n * n) w.old w.new }
{
    let column = matrix::row(n, k);
    let size = householder::vector::norm(w, column, k + 1, n);
    if size == 0.0 {
        return;
    }
    householder::vector::householder_vector(n, k, size, column, w, v);
    householder::reflection::reflect(n, k, v, p, w);
    householder::accumulation::accumulate(n, k, v, p, &mut w[at..]);
}

// All reflections.
fn reflections(n: usize, at: usize, v: &mut [f64], p: &mut [f64], w: &mut [f64])
    requires fact_1 { n ≤ length v.old }
    requires fact_2 { n ≤ length p.old }
    requires fact_3 { RoomWithin n at w.old }
    ensures fact_1 { held_within n at w.new ≡ reductions n (held_within n at w.old) }
    ensures fact_2 { Kept (at + n * n) w.old w.new }
{
    for k in 0..n.saturating_sub(2) {
        clear_column(n, k, at, v, p, w);
    }
}

// The subdiagonal of the matrix at the front of w, and a 0.
fn subdiagonal(n: usize, w: &[f64], e: &mut [f64])
    requires fact_1 { Room n w.now }
    requires fact_2 { n ≤ length e.old }
    ensures { Filled 0 (subdiagonal_in n w.now) n e.old e.new }
{
    for i in 0..n {
        e[i] = householder::subdiagonal_at(n, i, w);
    }
}

// The tridiagonal form of the n by n matrix at the front of w, which is symmetric bit for bit: its diagonal in d, its subdiagonal and a 0 in e, and the
// orthogonal matrix of the reduction from index `at` of w on, column by column.
pub fn reduce_within(n: usize, at: usize, w: &mut [f64], d: &mut [f64], e: &mut [f64])
    requires fact_1 { RoomWithin n at w.old }
    requires fact_2 { Mirrored n w.old }
    requires fact_3 { n ≤ length d.old }
    requires fact_4 { n ≤ length e.old }
    ensures filled { Filled 0 (diagonal_cell n (tridiagonal n (plain n w.old)).matrix) n d.old d.new }
    ensures filled_2 { Filled 0 (subdiagonal_cell n (tridiagonal n (plain n w.old)).matrix) n e.old e.new }
    ensures w_after { transposed n (drop at w.new) ≡ (tridiagonal n (plain n w.old)).orthogonal }
    ensures kept { Kept (at + n * n) w.old w.new }
{
    let mut v = [0.0; 512];
    let mut p = [0.0; 512];
    matrix::identity(n, &mut w[at..]);
    reflections(n, at, &mut v, &mut p, w);
    matrix::diagonal(n, w, d);
    subdiagonal(n, w, e);
}
