// Rayleigh's quotients of all columns of a matrix of vectors at once, along its rows: each quotient's two sums keep their own order.
ghost use Rattle.std.specs.Prelude.{◌≡◌, ℕ, ◌+◌, ◌*◌, ◌≤◌, ◌<◌, length, drop};
ghost use Rattle.storage.specs.Filled.{Filled};
ghost use Rattle.matrix.specs.Layout.{plain};
ghost use Rattle.caps.specs.Caps.{rayleigh};
ghost use Rattle.caps.specs.Quotients.{row_sum, added_product};

// The row of k numbers from index `row` of work on, times each column of the vectors.
fn product_row(k: usize, row: usize, work: &[f64], vectors: &[f64], y: &mut [f64])
    requires fact_1 { k ≤ 181 }
    requires fact_2 { row + k ≤ length work.now }
    requires fact_3 { k * k ≤ length vectors.now }
    requires fact_4 { k ≤ length y.old }
    ensures { Filled 0 (row_sum k row vectors.now work.now k) k y.old y.new }
{
    storage::clear(k, y);
    let mut at = 0;
    for j in 0..k {
        crate::nodes::add_row(k, 0, work[row + j], 1.0, &vectors[at..], y);
        at = at + k;
    }
}

// The products of a row of the vectors, from index `at` on, with y, added to each column's sum.
fn add_products(k: usize, at: usize, y: &[f64], vectors: &[f64], sums: &mut [f64])
    requires fact_1 { k ≤ length y.now }
    requires fact_2 { at + k ≤ length vectors.now }
    requires fact_3 { k ≤ length sums.old }
    ensures { Filled 0 (added_product at y.now vectors.now sums.old) k sums.old sums.new }
{
    for col in 0..k {
        sums[col] = sums[col] + vectors[at + col] * y[col];
    }
}

// The quotients, with the k by k matrix from index `at` of work on; y is overwritten.
pub fn quotients(
    k: usize,
    at: usize,
    work: &[f64],
    vectors: &[f64],
    y: &mut [f64],
    sums: &mut [f64],
)
    requires fact_1 { k ≤ 181 }
    requires fact_2 { at + k * k ≤ length work.now }
    requires fact_3 { k * k ≤ length vectors.now }
    requires fact_4 { k ≤ length y.old }
    requires fact_5 { k ≤ length sums.old }
    ensures fact_1 { Filled 0 (rayleigh k (plain k (drop at work.now)) (plain k vectors.now)) k sums.old sums.new }
    ensures fact_2 { length y.new ≡ length y.old }
{
    storage::clear(k, sums);
    let mut row = 0;
    for i in 0..k {
        product_row(k, at + row, work, vectors, y);
        add_products(k, row, y, vectors, sums);
        row = row + k;
    }
}
