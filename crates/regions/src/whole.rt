// The whole matrix: the sums over the nodes in its lower half, divided by 4π, and copied to its upper half. The copy makes it symmetric bit for bit;
// the upper half in its own order of operations would not be.
ghost use Rattle.std.specs.Prelude.{◌≡◌, ◌+◌, ◌-◌, ◌*◌, ◌≤◌, ◌<◌, length};
ghost use Rattle.storage.specs.Filled.{Filled};
ghost use Rattle.storage.specs.Rectangle.{by_rows};
ghost use Rattle.matrix.specs.Layout.{Room};
ghost use Rattle.region_nodes.specs.Basis.{basis_size};
ghost use Rattle.region_nodes.specs.Regions.{region_cell};
ghost use Rattle.regions.specs.Nodes.{NodeLists};
ghost use Rattle.regions.specs.Mirror.{over_four_pi, below_diagonal, mirrored};

// The first `size` numbers over 4π.
pub fn divide(size: usize, d: &mut [f64])
    requires { size ≤ length d.old }
    ensures { Filled 0 (over_four_pi d.old) size d.old d.new }
{
    for i in 0..size {
        d[i] = d[i] / 12.566370614359172;
    }
}

// Row i right of the diagonal, from index `at` on: a copy of column i below it.
fn mirror_row(n: usize, i: usize, at: usize, d: &mut [f64])
    requires fact_1 { Room n d.old }
    requires fact_2 { i < n }
    requires fact_3 { at ≡ i * n + (i + 1) }
    ensures { Filled at (below_diagonal n i d.old) (n - (i + 1)) d.old d.new }
{
    for k in 0..n - (i + 1) {
        let from = matrix::cell(n, i + 1 + k, i);
        d[at + k] = d[from];
    }
}

// All rows.
fn mirror(n: usize, d: &mut [f64])
    requires { Room n d.old }
    ensures { Filled 0 (by_rows (mirrored n d.old) n) (n * n) d.old d.new }
{
    for i in 0..n {
        mirror_row(n, i, matrix::row(n, i) + (i + 1), d);
    }
}

// The matrix of accepted lists, at the front of d.
pub fn fill_matrix(
    lmax: usize,
    nodes: usize,
    weights: &[f64],
    latitudes: &[f64],
    marks: &[u8],
    s: &[f64],
    c: &[f64],
    d: &mut [f64],
)
    requires fact_1 { NodeLists lmax nodes (length weights.now) (length latitudes.now) (length marks.now) (length s.now) (length c.now) }
    requires fact_2 { basis_size lmax * basis_size lmax ≤ length d.old }
    ensures { Filled 0 (by_rows (region_cell lmax weights.now latitudes.now marks.now s.now c.now nodes)
        (basis_size lmax)) (basis_size lmax * basis_size lmax) d.old d.new }
{
    let mut a = [0.0; 253];
    let mut b = [0.0; 253];
    let mut p = [0.0; 253];
    let mut functions = [0.0; 484];
    let mut products = [0.0; 1849];
    recursion::a_rows(0, 0, lmax, &mut functions, &mut a);
    recursion::b_rows(0, 0, lmax, &mut functions, &mut b);
    crate::nodes::add_nodes(
        lmax,
        nodes,
        weights,
        latitudes,
        marks,
        s,
        c,
        &a,
        &b,
        &mut p,
        &mut functions,
        &mut products,
        d,
    );
    let n = crate::basis_size(lmax);
    divide(n * n, d);
    mirror(n, d);
}
