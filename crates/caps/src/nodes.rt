// The concentration matrix of one order, node by node: it stands in a run of the working list behind the tables of the recursion.
ghost use Rattle.std.specs.Prelude.{◌≡◌, ℕ, ◌+◌, ◌*◌, ◌≤◌, ◌<◌, length, get_or};
ghost use Rattle.std.specs.Float.{nan};
ghost use Rattle.number.specs.Float64.{◌⊗◌};
ghost use Rattle.storage.specs.Elements.{zero_at};
ghost use Rattle.storage.specs.Filled.{Filled};
ghost use Rattle.storage.specs.Rectangle.{by_rows};
ghost use Rattle.storage.specs.Triangle.{idx};
ghost use Rattle.recursion.specs.Recursion.{pmm};
ghost use Rattle.caps.specs.Caps.{cap_factor, concentration_cell};
ghost use Rattle.caps.specs.Columns.{TablesIn};
ghost use Rattle.caps.specs.Nodes.{added_cell, added_node, added_by, rescale_of, first_rescale, next_rescale, NodeRoom};

use legendre::Latitude;

// What the order and the cap's size count for.
fn factor(m: usize, x0: f64) -> f64
    ensures { result ≡ cap_factor m x0 }
{
    if m == 0 {
        return 0.5 * (1.0 - x0) / 2.0;
    }
    0.25 * (1.0 - x0) / 2.0
}

// x p times the column, added to the k numbers from index `at` on. The order of the three factors is the Rust's: a row times a column has other bits
// than the column times the row.
pub(crate) fn add_row(k: usize, at: usize, x: f64, p: f64, col: &[f64], work: &mut [f64])
    requires fact_1 { k ≤ length col.now }
    requires fact_2 { at + k ≤ length work.old }
    ensures { Filled at (added_cell (x ⊗ p) col.now work.old at) k work.old work.new }
{
    for j in 0..k {
        work[at + j] = work[at + j] + x * p * col[j];
    }
}

// x times the column times the column, added to the k by k matrix from index `at` on.
fn add_node(k: usize, at: usize, x: f64, col: &[f64], work: &mut [f64])
    requires fact_1 { k ≤ 181 }
    requires fact_2 { k ≤ length col.now }
    requires fact_3 { at + k * k ≤ length work.old }
    ensures { Filled at (by_rows (added_node k x col.now work.old at) k) (k * k) work.old work.new }
{
    let mut row = at;
    for i in 0..k {
        add_row(k, row, x, col[i], col, work);
        row = row + k;
    }
}

// One node: its column of order m, and what it adds to the k by k matrix from index `at` on.
fn node(
    m: usize,
    k: usize,
    start: usize,
    total: usize,
    at: usize,
    latitude: Latitude,
    rescale: f64,
    sectoral: f64,
    x: f64,
    col: &mut [f64],
    work: &mut [f64],
)
    requires fact_1 { sectoral ≡ pmm m }
    requires fact_2 { start ≡ idx m m }
    requires fact_3 { NodeRoom m k total at (length col.old) (length work.old) }
    ensures fact_1 { Filled at (by_rows (added_by k total latitude.t rescale m x work.old at) k) (k * k) work.old work.new }
    ensures fact_2 { length col.new ≡ length col.old }
{
    crate::columns::column(m, k, start, total, latitude.t, rescale, sectoral, work, col);
    add_node(k, at, x, col, work);
}

// All nodes: the k by k matrix of order m from index `at` on. `rescales` has the power u^m / 1e-280 of each node's cosine; col is overwritten.
pub fn concentration(
    m: usize,
    k: usize,
    lmax: usize,
    start: usize,
    total: usize,
    at: usize,
    x0: f64,
    sectoral: f64,
    weights: &[f64],
    latitudes: &[f64],
    rescales: &[f64],
    col: &mut [f64],
    work: &mut [f64],
)
    requires sectoral_value_1 { sectoral ≡ pmm m }
    requires sectoral_value_2 { start ≡ idx m m }
    requires sectoral_value_3 { NodeRoom m k total at (length col.old) (length work.old) }
    requires sectoral_value_4 { TablesIn lmax total work.old }
    requires sectoral_value_5 { m + k ≡ lmax + 1 }
    requires lmax_in_bounds_1 { lmax < length weights.now }
    requires lmax_in_bounds_2 { lmax + lmax + 1 < length latitudes.now }
    requires lmax_in_bounds_3 { lmax < length rescales.now }
    requires lmax_in_bounds_4 { Filled 0 (rescale_of latitudes.now m) (lmax + 1) rescales.now rescales.now }
    ensures fact_1 { Filled at (by_rows (concentration_cell lmax m x0 weights.now latitudes.now) k) (k * k)
        work.old work.new }
    ensures fact_2 { length col.new ≡ length col.old }
{
    let factor = factor(m, x0);
    clear(k, at, work);
    for i in 0..lmax + 1 {
        let latitude = legendre::directions::latitude_of(i, latitudes);
        let x = factor * weights[i];
        node(
            m,
            k,
            start,
            total,
            at,
            latitude,
            rescales[i],
            sectoral,
            x,
            col,
            work,
        );
    }
}

// The k by k matrix of zeros from index `at` on.
fn clear(k: usize, at: usize, work: &mut [f64])
    requires fact_1 { k ≤ 181 }
    requires fact_2 { at + k * k ≤ length work.old }
    ensures { Filled at zero_at (k * k) work.old work.new }
{
    storage::clear(k * k, &mut work[at..]);
}

// The powers for order 0.
pub fn first_rescales(count: usize, rescales: &mut [f64])
    requires { count ≤ length rescales.old }
    ensures { Filled 0 first_rescale count rescales.old rescales.new }
{
    for i in 0..count {
        rescales[i] = 1.0 / 1e-280;
    }
}

// The powers for the next order.
pub fn next_rescales(count: usize, latitudes: &[f64], rescales: &mut [f64])
    requires fact_1 { count ≤ length rescales.old }
    requires fact_2 { count + count ≤ length latitudes.now }
    ensures { Filled 0 (next_rescale latitudes.now rescales.old) count rescales.old rescales.new }
{
    for i in 0..count {
        let latitude = legendre::directions::latitude_of(i, latitudes);
        rescales[i] = rescales[i] * latitude.u;
    }
}
