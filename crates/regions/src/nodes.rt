// The nodes, one after the other: what each adds to the lower half of the matrix.
ghost use Rattle.std.specs.Prelude.{◌≡◌, ◌*◌, ◌<◌, length};
ghost use Rattle.storage.specs.Filled.{Filled};
ghost use Rattle.storage.specs.Rectangle.{by_rows};
ghost use Rattle.region_nodes.specs.Basis.{basis_size};
ghost use Rattle.regions.specs.Nodes.{NodeLists, NodeArrays, node_cell, partial_cell};

// One node, by the tables a and b of the recursion; p, `functions` and `products` are overwritten. A node that is marked 0 adds nothing.
fn node(
    lmax: usize,
    v: usize,
    nodes: usize,
    weights: &[f64],
    latitudes: &[f64],
    marks: &[u8],
    s: &[f64],
    c: &[f64],
    a: &[f64],
    b: &[f64],
    p: &mut [f64],
    functions: &mut [f64],
    products: &mut [f64],
    d: &mut [f64],
)
    requires fact_1 { v < nodes }
    requires fact_2 { NodeLists lmax nodes (length weights.now) (length latitudes.now) (length marks.now) (length s.now) (length c.now) }
    requires fact_3 { NodeArrays lmax a.now b.now (length p.old) (length functions.old) (length products.old) (length d.old) }
    ensures filled { Filled 0 (by_rows (node_cell lmax weights.now latitudes.now marks.now s.now c.now v
        d.old) (basis_size lmax)) (basis_size lmax * basis_size lmax) d.old d.new }
    ensures p_len_unchanged_1 { length p.new ≡ length p.old }
    ensures p_len_unchanged_2 { length functions.new ≡ length functions.old }
    ensures p_len_unchanged_3 { length products.new ≡ length products.old }
{
    if marks[v] == 0 {
        return;
    }
    let latitude = legendre::directions::latitude_of(v, latitudes);
    let n = crate::basis_size(lmax);
    let width = lmax + lmax + 1;
    legendre::rows::compute_short(lmax, latitude.t, latitude.u, a, b, p);
    region_nodes::basis::functions(lmax, p, functions);
    region_nodes::longitudes::products(lmax, v * width, s, c, products);
    crate::sums::add_node(lmax, n, width, weights[v], functions, products, d);
}

// All nodes, added to a matrix of zeros.
pub fn add_nodes(
    lmax: usize,
    nodes: usize,
    weights: &[f64],
    latitudes: &[f64],
    marks: &[u8],
    s: &[f64],
    c: &[f64],
    a: &[f64],
    b: &[f64],
    p: &mut [f64],
    functions: &mut [f64],
    products: &mut [f64],
    d: &mut [f64],
)
    requires fact_1 { NodeLists lmax nodes (length weights.now) (length latitudes.now) (length marks.now) (length s.now) (length c.now) }
    requires fact_2 { NodeArrays lmax a.now b.now (length p.old) (length functions.old) (length products.old) (length d.old) }
    ensures { Filled 0 (by_rows (partial_cell lmax weights.now latitudes.now marks.now s.now c.now nodes)
        (basis_size lmax)) (basis_size lmax * basis_size lmax) d.old d.new }
{
    let n = crate::basis_size(lmax);
    storage::clear(n * n, d);
    for v in 0..nodes {
        node(
            lmax, v, nodes, weights, latitudes, marks, s, c, a, b, p, functions, products, d,
        );
    }
}
