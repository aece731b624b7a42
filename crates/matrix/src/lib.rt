// Square matrices in the first n * n numbers of a list, row by row: what both eigensolvers ask of them.
#![tactic(auto)]

ghost use Rattle.std.specs.Prelude.{◌≡◌, ◌*◌, ◌+◌, ◌≤◌, ◌<◌, length};
ghost use Rattle.std.specs.Float.{nan};
ghost use Rattle.storage.specs.Elements.{from};
ghost use Rattle.storage.specs.Filled.{Filled};
ghost use Rattle.storage.specs.Rectangle.{by_rows};
ghost use Rattle.matrix.specs.Matrix.{cell, kronecker, diagonal_cell};
ghost use Rattle.matrix.specs.Layout.{flipped, Room, RowAt, CellAt, RunsRotated, RowsRotated, ColumnsRotated};

// How a solver ended. Jacobi rotations settle where their test passes before one of the hundred sweeps, and the count is of sweeps done; the QL
// iteration where each number meets its stopping test within its hundred rounds, and the count is of all rounds that went past the test, those that
// broke off on a zero among them. That a solver settled says nothing of how near the answer is. The count stands in either case, so this is no Option.
#[derive(Clone, Copy, Debug, PartialEq, Eq)]
pub struct Convergence {
    pub settled: bool,
    pub count: usize,
}

// Where row i begins.
pub fn row(n: usize, i: usize) -> usize
    requires fact_1 { n ≤ 512 }
    requires fact_2 { i < n }
    ensures { RowAt n i result }
{
    i * n
}

// Where the number at row i and column j stands.
pub fn cell(n: usize, i: usize, j: usize) -> usize
    requires fact_1 { n ≤ 512 }
    requires fact_2 { i < n }
    requires fact_3 { j < n }
    ensures { CellAt n i j result }
{
    row(n, i) + j
}

// The first `size` numbers of one list, into another.
pub fn copy(size: usize, src: &[f64], list: &mut [f64])
    requires fact_1 { size ≤ length src.now }
    requires fact_2 { size ≤ length list.old }
    ensures { Filled 0 (from 0 src.now nan) size list.old list.new }
{
    for k in 0..size {
        list[k] = src[k];
    }
}

// The number at row i and column j of the identity matrix.
fn kronecker(i: usize, j: usize) -> f64
    ensures { result ≡ kronecker i j }
{
    if i == j { 1.0 } else { 0.0 }
}

// Row i of the identity matrix, from index `at` on.
fn identity_row(n: usize, i: usize, at: usize, list: &mut [f64])
    requires { at + n ≤ length list.old }
    ensures { Filled at (kronecker i) n list.old list.new }
{
    for j in 0..n {
        list[at + j] = kronecker(i, j);
    }
}

// The identity matrix.
pub fn identity(n: usize, list: &mut [f64])
    requires { Room n list.old }
    ensures { Filled 0 (by_rows kronecker n) (n * n) list.old list.new }
{
    for i in 0..n {
        identity_row(n, i, row(n, i), list);
    }
}

// The diagonal of a matrix.
pub fn diagonal(n: usize, a: &[f64], list: &mut [f64])
    requires fact_1 { Room n a.now }
    requires fact_2 { n ≤ length list.old }
    ensures { Filled 0 (diagonal_cell n a.now) n list.old list.new }
{
    for i in 0..n {
        let at = cell(n, i, i);
        list[i] = a[at];
    }
}

// Column i of a matrix, from index `at` on.
fn transpose_row(n: usize, i: usize, a: &[f64], at: usize, list: &mut [f64])
    requires fact_1 { Room n a.now }
    requires fact_2 { i < n }
    requires fact_3 { at + n ≤ length list.old }
    ensures { Filled at (flipped (cell n a.now) i) n list.old list.new }
{
    for j in 0..n {
        let from = cell(n, j, i);
        list[at + j] = a[from];
    }
}

// A matrix with rows and columns exchanged.
pub fn transpose(n: usize, a: &[f64], list: &mut [f64])
    requires fact_1 { Room n a.now }
    requires fact_2 { Room n list.old }
    ensures { Filled 0 (by_rows (flipped (cell n a.now)) n) (n * n) list.old list.new }
{
    for i in 0..n {
        transpose_row(n, i, a, row(n, i), list);
    }
}

// The numbers x and y at the same place of two runs become c x - s y and s x + c y.
fn rotate_runs(list: &mut [f64], at: usize, to: usize, n: usize, c: f64, s: f64)
    requires fact_1 { at + n ≤ to }
    requires fact_2 { to + n ≤ length list.old }
    ensures { RunsRotated c s at to n list.old list.new }
{
    for k in 0..n {
        let x = list[at + k];
        let y = list[to + k];
        list[at + k] = c * x - s * y;
        list[to + k] = s * x + c * y;
    }
}

// The rotation of rows p and q. Where a matrix is held column by column, it is the rotation of columns p and q.
pub fn rotate_rows(list: &mut [f64], n: usize, p: usize, q: usize, c: f64, s: f64)
    requires fact_1 { Room n list.old }
    requires fact_2 { p < q }
    requires fact_3 { q < n }
    ensures { RowsRotated c s n p q list.old list.new }
{
    rotate_runs(list, row(n, p), row(n, q), n, c, s);
}

// The rotation of columns p and q.
pub fn rotate_columns(list: &mut [f64], n: usize, p: usize, q: usize, c: f64, s: f64)
    requires fact_1 { Room n list.old }
    requires fact_2 { p < q }
    requires fact_3 { q < n }
    ensures { ColumnsRotated c s n p q list.old list.new }
{
    for k in 0..n {
        let at = row(n, k);
        let x = list[at + p];
        let y = list[at + q];
        list[at + p] = c * x - s * y;
        list[at + q] = s * x + c * y;
    }
}
