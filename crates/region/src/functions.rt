// The functions written in the order of their ranks, from the working list, in which each function's vector is a run of n numbers in the order of the
// basis.
ghost use Rattle.std.specs.Prelude.{◌≡◌, ◌+◌, ◌*◌, ◌≤◌, ◌<◌, length};
ghost use Rattle.storage.specs.Filled.{Filled};
ghost use Rattle.storage.specs.Rectangle.{by_rows};
ghost use Rattle.storage.specs.Triangle.{table_size, along};
ghost use Rattle.ranking.specs.RankedIn.{PlacesIn};
ghost use Rattle.region_nodes.specs.Basis.{basis_size};
ghost use Rattle.region.specs.Written.{number_in, in_vector, picked_vector, picked_value};

// The number of order m of one degree, whose cosine and sine numbers start at index `at`: there is no sine of order 0.
fn number_of(sine: bool, m: usize, at: usize, w: &[f64]) -> f64
    requires { at + (m + m) < length w.now }
    ensures { result ≡ number_in sine w.now at m }
{
    if sine {
        if m == 0 {
            return 0.0;
        }
        return w[at + (m + m)];
    }
    if m == 0 {
        return w[at];
    }
    w[at + (m + m - 1)]
}

// The numbers of degree l, from index `to` on.
fn write_degree(sine: bool, l: usize, at: usize, w: &[f64], to: usize, out: &mut [f64])
    requires fact_1 { at + (l + l) < length w.now }
    requires fact_2 { to + l < length out.old }
    ensures { Filled to (number_in sine w.now at) (l + 1) out.old out.new }
{
    let count = l + 1;
    for m in 0..count {
        out[to + m] = number_of(sine, m, at, w);
    }
}

// The numbers of one function, whose vector starts at index `start`, as a table from index `to` on.
fn write_function(sine: bool, lmax: usize, start: usize, w: &[f64], to: usize, out: &mut [f64])
    requires fact_1 { lmax ≤ 21 }
    requires fact_2 { start + basis_size lmax ≤ length w.now }
    requires fact_3 { to + table_size lmax ≤ length out.old }
    ensures { Filled to (along (in_vector sine w.now start)) (table_size lmax) out.old out.new }
{
    let mut at = start;
    let mut row = to;
    for l in 0..lmax + 1 {
        write_degree(sine, l, at, w, row, out);
        at = at + l + l + 1;
        row = row + l + 1;
    }
}

// The numbers of all n functions in the order of the places; their vectors start at index `at`.
pub fn write_functions(
    sine: bool,
    lmax: usize,
    n: usize,
    table: usize,
    at: usize,
    places: &[u16],
    w: &[f64],
    out: &mut [f64],
)
    requires lmax_bound_1 { lmax ≤ 21 }
    requires lmax_bound_2 { n ≡ basis_size lmax }
    requires lmax_bound_3 { table ≡ table_size lmax }
    requires lmax_bound_4 { PlacesIn n places.now }
    requires lmax_bound_5 { at + n * n ≤ length w.now }
    requires table_in_bounds { n * table ≤ length out.old }
    ensures { Filled 0 (by_rows (picked_vector sine n at places.now w.now) table) (n * table)
        out.old out.new }
{
    let mut to = 0;
    for i in 0..n {
        let place = usize::from(places[i]);
        write_function(sine, lmax, at + matrix::row(n, place), w, to, out);
        to = to + table;
    }
}

// The values in the order of the places.
pub fn write_values(n: usize, places: &[u16], values: &[f64], out: &mut [f64])
    requires fact_1 { PlacesIn n places.now }
    requires fact_2 { n ≤ length values.now }
    requires fact_3 { n ≤ length out.old }
    ensures { Filled 0 (picked_value places.now values.now) n out.old out.new }
{
    for i in 0..n {
        let place = usize::from(places[i]);
        out[i] = values[place];
    }
}
