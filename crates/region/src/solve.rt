// The functions of a region whose sizes are accepted. The working list holds the matrix behind the room of three tables, and behind it the vectors.
ghost use Rattle.std.specs.Prelude.{◌≡◌, true, false, ◌+◌, ◌*◌, ◌≤◌, length, take};
ghost use Rattle.std.specs.Float.{nan};
ghost use Rattle.storage.specs.Elements.{from};
ghost use Rattle.storage.specs.Filled.{Filled};
ghost use Rattle.storage.specs.Rectangle.{by_rows};
ghost use Rattle.storage.specs.Triangle.{table_size};
ghost use Rattle.matrix.specs.Layout.{Kept};
ghost use Rattle.linalg.specs.Eigen.{eigen_values, eigen_convergence};
ghost use Rattle.ranking.specs.Places.{ranked_places};
ghost use Rattle.region_nodes.specs.Basis.{basis_size};
ghost use Rattle.region_nodes.specs.Regions.{concentration_matrix};
ghost use Rattle.regions.specs.Nodes.{NodeLists};
ghost use Rattle.region.specs.Region.{region_work, region_convergence};
ghost use Rattle.region.specs.RegionChecks.{RegionAccepted};
ghost use Rattle.region.specs.Storage.{VectorsIn, RegionMade};
ghost use Rattle.region.specs.Written.{picked_value, picked_vector};

use linalg::Convergence;

// The eigenvalues of the matrix, and its eigenvectors as runs in the working list: the matrix is made from index `at` on, and solved within the list.
fn solve(
    lmax: usize,
    nodes: usize,
    n: usize,
    at: usize,
    weights: &[f64],
    latitudes: &[f64],
    marks: &[u8],
    s: &[f64],
    c: &[f64],
    work: &mut [f64],
    values: &mut [f64],
) -> Convergence
    requires fact_1 { NodeLists lmax nodes (length weights.now) (length latitudes.now) (length marks.now) (length s.now) (length c.now) }
    requires fact_2 { n ≡ basis_size lmax }
    requires fact_3 { at ≡ 3 * table_size lmax }
    requires fact_4 { region_work lmax ≤ length work.old }
    requires fact_5 { n ≤ length values.old }
    ensures filled { Filled 0 (from 0 (eigen_values n
        (concentration_matrix lmax weights.now latitudes.now marks.now s.now c.now nodes)) nan) n
        values.old values.new }
    ensures vectors_in_1 { VectorsIn n (at + n * n)
        (concentration_matrix lmax weights.now latitudes.now marks.now s.now c.now nodes)
        work.new }
    ensures vectors_in_2 { Kept (region_work lmax) work.old work.new }
    ensures value { result ≡ eigen_convergence n
        (concentration_matrix lmax weights.now latitudes.now marks.now s.now c.now nodes) }
{
    regions::whole::fill_matrix(
        lmax,
        nodes,
        weights,
        latitudes,
        marks,
        s,
        c,
        &mut work[at..],
    );
    linalg::within::eigen_within(n, &mut work[at..], values)
}

// The functions ranked by the values, and written in that order.
fn write(
    lmax: usize,
    n: usize,
    table: usize,
    at: usize,
    values: &[f64],
    work: &[f64],
    concentrations: &mut [f64],
    cs: &mut [f64],
    ss: &mut [f64],
)
    requires lmax_bound_1 { lmax ≤ 21 }
    requires lmax_bound_2 { n ≡ basis_size lmax }
    requires lmax_bound_3 { table ≡ table_size lmax }
    requires lmax_bound_4 { n ≤ length values.now }
    requires lmax_bound_5 { at + n * n ≤ length work.now }
    requires n_in_bounds_1 { n ≤ length concentrations.old }
    requires n_in_bounds_2 { n * table ≤ length cs.old }
    requires n_in_bounds_3 { n * table ≤ length ss.old }
    ensures filled { Filled 0 (picked_value (ranked_places (take n values.now)) values.now) n
        concentrations.old concentrations.new }
    ensures filled_2 { Filled 0 (by_rows (picked_vector false n at (ranked_places (take n values.now)) work.now) table) (n * table)
        cs.old cs.new }
    ensures filled_3 { Filled 0 (by_rows (picked_vector true n at (ranked_places (take n values.now)) work.now) table) (n * table)
        ss.old ss.new }
{
    let mut places = [0u16; 484];
    let mut spare = [0u16; 484];
    ranking::rank(&values[..n], &mut places, &mut spare);
    crate::functions::write_values(n, &places, values, concentrations);
    crate::functions::write_functions(false, lmax, n, table, at, &places, work, cs);
    crate::functions::write_functions(true, lmax, n, table, at, &places, work, ss);
}

// All of it.
pub fn compute(
    lmax: usize,
    nodes: usize,
    weights: &[f64],
    latitudes: &[f64],
    marks: &[u8],
    s: &[f64],
    c: &[f64],
    work: &mut [f64],
    concentrations: &mut [f64],
    cs: &mut [f64],
    ss: &mut [f64],
) -> Convergence
    requires { RegionAccepted lmax nodes (length weights.now) (length latitudes.now) (length marks.now) (length s.now) (length c.now)
        (length work.old) (length concentrations.old) (length cs.old) (length ss.old) }
    ensures region_made { RegionMade lmax
        (concentration_matrix lmax weights.now latitudes.now marks.now s.now c.now nodes)
        work.old work.new concentrations.old concentrations.new cs.old cs.new
        ss.old ss.new }
    ensures value { result ≡ region_convergence lmax
        (concentration_matrix lmax weights.now latitudes.now marks.now s.now c.now nodes) }
{
    let sizes = crate::region_sizes(lmax);
    let n = sizes.functions;
    let table = sizes.table;
    let at = 3 * table;
    let mut values = [0.0; 484];
    let ended = solve(
        lmax,
        nodes,
        n,
        at,
        weights,
        latitudes,
        marks,
        s,
        c,
        work,
        &mut values,
    );
    write(
        lmax,
        n,
        table,
        at + n * n,
        &values,
        work,
        concentrations,
        cs,
        ss,
    );
    ended
}
