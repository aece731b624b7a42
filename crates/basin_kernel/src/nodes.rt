// The nodes, one after the other. The tables a and b of the recursion stand at the front of the working list, the powers of a node's u behind them.
ghost use Rattle.std.specs.Prelude.{◌≡◌, true, false, ◌+◌, ◌*◌, ◌≤◌, ◌<◌, length};
ghost use Rattle.storage.specs.Elements.{zero_at};
ghost use Rattle.storage.specs.Filled.{Filled};
ghost use Rattle.storage.specs.Triangle.{table_size, along};
ghost use Rattle.matrix.specs.Layout.{Kept};
ghost use Rattle.regions.specs.Nodes.{NodeListsTo};
ghost use Rattle.basin_kernel.specs.Kernel.{kernel_c, kernel_s};
ghost use Rattle.basin_kernel.specs.Nodes.{TablesIn, node_added, kernel_sum};

// One node; `even` and `odd` are overwritten. A node that is marked 0 adds nothing.
fn add_node(
    lmax: usize,
    total: usize,
    v: usize,
    nodes: usize,
    weights: &[f64],
    latitudes: &[f64],
    marks: &[u8],
    s: &[f64],
    c: &[f64],
    work: &mut [f64],
    even: &mut [f64],
    odd: &mut [f64],
    kc: &mut [f64],
    ks: &mut [f64],
)
    requires v_lt_nodes_1 { v < nodes }
    requires v_lt_nodes_2 { NodeListsTo 2700 lmax nodes (length weights.now) (length latitudes.now) (length marks.now) (length s.now) (length c.now) }
    requires v_lt_nodes_3 { TablesIn lmax total work.old }
    requires lmax_in_bounds_1 { lmax < length even.old }
    requires lmax_in_bounds_2 { lmax < length odd.old }
    requires lmax_in_bounds_3 { total ≤ length kc.old }
    requires lmax_in_bounds_4 { total ≤ length ks.old }
    ensures filled { Filled 0
        (along (node_added lmax weights.now latitudes.now marks.now s.now c.now false v kc.old))
        (table_size lmax) kc.old kc.new }
    ensures filled_2 { Filled 0
        (along (node_added lmax weights.now latitudes.now marks.now s.now c.now true v ks.old))
        (table_size lmax) ks.old ks.new }
    ensures tables_in_1 { TablesIn lmax total work.new }
    ensures tables_in_2 { Kept (3 * total) work.old work.new }
    ensures tables_in_3 { length even.new ≡ length even.old }
    ensures tables_in_4 { length odd.new ≡ length odd.old }
{
    if marks[v] == 0 {
        return;
    }
    let latitude = legendre::directions::latitude_of(v, latitudes);
    let start = v * (lmax + lmax + 1);
    legendre::rows::rescales(lmax, latitude.u, &mut work[total + total..]);
    let a = &work[..];
    let b = &a[total..];
    let r = &b[total..];
    crate::rows::add_degrees(
        lmax, start, latitude.t, latitude.u, weights[v], a, b, r, s, c, even, odd, kc, ks,
    );
}

// All nodes, added to tables of zeros.
fn add_nodes(
    lmax: usize,
    total: usize,
    nodes: usize,
    weights: &[f64],
    latitudes: &[f64],
    marks: &[u8],
    s: &[f64],
    c: &[f64],
    work: &mut [f64],
    even: &mut [f64],
    odd: &mut [f64],
    kc: &mut [f64],
    ks: &mut [f64],
)
    requires node_lists_to_1 { NodeListsTo 2700 lmax nodes (length weights.now) (length latitudes.now) (length marks.now) (length s.now) (length c.now) }
    requires node_lists_to_2 { TablesIn lmax total work.old }
    requires lmax_in_bounds_1 { lmax < length even.old }
    requires lmax_in_bounds_2 { lmax < length odd.old }
    requires lmax_in_bounds_3 { total ≤ length kc.old }
    requires lmax_in_bounds_4 { total ≤ length ks.old }
    requires filled_1 { Filled 0 zero_at (table_size lmax) kc.old kc.old }
    requires filled_2 { Filled 0 zero_at (table_size lmax) ks.old ks.old }
    ensures filled_2 { Filled 0
        (along (kernel_sum lmax weights.now latitudes.now marks.now s.now c.now false nodes))
        (table_size lmax) kc.old kc.new }
    ensures filled_3 { Filled 0
        (along (kernel_sum lmax weights.now latitudes.now marks.now s.now c.now true nodes))
        (table_size lmax) ks.old ks.new }
    ensures kept { Kept (3 * total) work.old work.new }
{
    for v in 0..nodes {
        add_node(
            lmax, total, v, nodes, weights, latitudes, marks, s, c, work, even, odd, kc, ks,
        );
    }
}

// The kernel of lists that are accepted, in tables of zeros, by the tables of the recursion in the working list.
pub(crate) fn add_all(
    lmax: usize,
    total: usize,
    nodes: usize,
    weights: &[f64],
    latitudes: &[f64],
    marks: &[u8],
    s: &[f64],
    c: &[f64],
    work: &mut [f64],
    kc: &mut [f64],
    ks: &mut [f64],
)
    requires node_lists_to_1 { NodeListsTo 2700 lmax nodes (length weights.now) (length latitudes.now) (length marks.now) (length s.now) (length c.now) }
    requires node_lists_to_2 { TablesIn lmax total work.old }
    requires node_lists_to_3 { table_size lmax ≤ length kc.old }
    requires node_lists_to_4 { table_size lmax ≤ length ks.old }
    requires filled_1 { Filled 0 zero_at (table_size lmax) kc.old kc.old }
    requires filled_2 { Filled 0 zero_at (table_size lmax) ks.old ks.old }
    ensures filled_2 { Filled 0
        (along (kernel_c lmax weights.now latitudes.now marks.now s.now c.now nodes))
        (table_size lmax) kc.old kc.new }
    ensures filled_3 { Filled 0
        (along (kernel_s lmax weights.now latitudes.now marks.now s.now c.now nodes))
        (table_size lmax) ks.old ks.new }
    ensures kept { Kept (3 * total) work.old work.new }
{
    let mut even = [0.0; 2701];
    let mut odd = [0.0; 2701];
    add_nodes(
        lmax, total, nodes, weights, latitudes, marks, s, c, work, &mut even, &mut odd, kc, ks,
    );
    regions::whole::divide(total, kc);
    regions::whole::divide(total, ks);
}
