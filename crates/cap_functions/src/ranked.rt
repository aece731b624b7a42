// The functions of a cap by their places, order after order and column after column, and the answer by their ranked places.
ghost use Rattle.std.specs.Prelude.{◌≡◌, ◌+◌, ◌*◌, ◌≤◌, ◌<◌, length, take, drop};
ghost use Rattle.std.specs.Float.{nan};
ghost use Rattle.storage.specs.Elements.{from};
ghost use Rattle.storage.specs.Filled.{Filled};
ghost use Rattle.storage.specs.Triangle.{table_size};
ghost use Rattle.ranking.specs.Places.{ranked_places};
ghost use Rattle.cap_functions.specs.CapPlaces.{vectors_at};
ghost use Rattle.ranking.specs.Rankings.{joined};
ghost use Rattle.ranking.specs.RankedIn.{PlacesIn};
ghost use Rattle.cap_functions.specs.CapRanked.{order_at, start_at, same_order, apart_by, run_at, picked_order, picked_number, RunsIn};

// The functions of order m are those of the places f to f + k - 1; their vectors follow each other from index v of the working list on.
fn number_order(m: usize, k: usize, f: usize, v: usize, orders: &mut [usize], starts: &mut [usize])
    requires fact_1 { k ≤ 181 }
    requires fact_2 { f + k ≤ length orders.old }
    requires fact_3 { f + k ≤ length starts.old }
    requires fact_4 { v + k * k ≤ 3000000 }
    ensures fact_1 { Filled f (same_order m) k orders.old orders.new }
    ensures fact_2 { Filled f (apart_by v k) k starts.old starts.new }
{
    let mut start = v;
    for col in 0..k {
        orders[f + col] = m;
        starts[f + col] = start;
        start = start + k;
    }
}

// The order and the start of the vector of every function.
pub fn number_functions(lmax: usize, at: usize, orders: &mut [usize], starts: &mut [usize])
    requires fact_1 { lmax ≤ 180 }
    requires fact_2 { at ≡ vectors_at lmax }
    requires fact_3 { table_size lmax ≤ length orders.old }
    requires fact_4 { table_size lmax ≤ length starts.old }
    ensures fact_1 { Filled 0 (order_at lmax) (table_size lmax) orders.old orders.new }
    ensures fact_2 { Filled 0 (start_at lmax) (table_size lmax) starts.old starts.new }
{
    let count = lmax + 1;
    let mut f = 0;
    let mut v = at;
    for m in 0..count {
        let k = count - m;
        number_order(m, k, f, v, orders, starts);
        f = f + k;
        v = v + crate::square(k);
    }
}

// The orders as numbers and the concentrations, which stand from index `at` of the working list on, in the order of the places.
fn write_functions(
    lmax: usize,
    n: usize,
    at: usize,
    places: &[u16],
    order: &[usize],
    starts: &[usize],
    work: &[f64],
    orders: &mut [f64],
    concentrations: &mut [f64],
)
    requires fact_1 { PlacesIn n places.now }
    requires fact_2 { RunsIn lmax n order.now starts.now (length work.now) }
    requires fact_3 { at + n ≤ length work.now }
    requires fact_4 { n ≤ length orders.old }
    requires fact_5 { n ≤ length concentrations.old }
    ensures fact_1 { Filled 0 (picked_order places.now order.now) n orders.old orders.new }
    ensures fact_2 { Filled 0 (picked_number at places.now work.now) n concentrations.old concentrations.new }
{
    for i in 0..n {
        let f = usize::from(places[i]);
        let m = order[f];
        orders[i] = m as f64;
        concentrations[i] = work[at + f];
    }
}

// The vectors end to end, in the order of the places.
fn write_vectors(
    lmax: usize,
    n: usize,
    places: &[u16],
    order: &[usize],
    starts: &[usize],
    work: &[f64],
    vectors: &mut [f64],
)
    requires fact_1 { PlacesIn n places.now }
    requires fact_2 { RunsIn lmax n order.now starts.now (length work.now) }
    requires fact_3 { length (joined (run_at lmax order.now starts.now work.now) (take n places.now)) ≤ length vectors.old }
    ensures { Filled 0
        (from 0 (joined (run_at lmax order.now starts.now work.now) (take n places.now)) nan)
        (length (joined (run_at lmax order.now starts.now work.now) (take n places.now)))
        vectors.old vectors.new }
{
    let mut v = 0;
    for i in 0..n {
        let f = usize::from(places[i]);
        let m = order[f];
        let k = lmax - m + 1;
        crate::copy_run(k, starts[f], work, v, vectors);
        v = v + k;
    }
}

// The n functions ranked by their concentrations; the places are overwritten.
pub fn write(
    lmax: usize,
    n: usize,
    at: usize,
    order: &[usize],
    starts: &[usize],
    work: &[f64],
    places: &mut [u16],
    spare: &mut [u16],
    orders: &mut [f64],
    concentrations: &mut [f64],
    vectors: &mut [f64],
)
    requires runs_in_1 { RunsIn lmax n order.now starts.now (length work.now) }
    requires runs_in_2 { at + n ≤ length work.now }
    requires runs_in_3 { n ≤ 16471 }
    requires runs_in_4 { n ≤ length places.old }
    requires runs_in_5 { n ≤ length spare.old }
    requires n_in_bounds_1 { n ≤ length orders.old }
    requires n_in_bounds_2 { n ≤ length concentrations.old }
    requires n_in_bounds_3 { length (joined (run_at lmax order.now starts.now work.now) (ranked_places (take n (drop at work.now)))) ≤ length vectors.old }
    ensures filled_1 { Filled 0 (picked_order (ranked_places (take n (drop at work.now))) order.now) n
        orders.old orders.new }
    ensures filled_2 { Filled 0 (picked_number at (ranked_places (take n (drop at work.now))) work.now) n
        concentrations.old concentrations.new }
    ensures filled_3 { Filled 0
        (from 0 (joined (run_at lmax order.now starts.now work.now) (ranked_places (take n (drop at work.now)))) nan)
        (length (joined (run_at lmax order.now starts.now work.now) (ranked_places (take n (drop at work.now)))))
        vectors.old vectors.new }
{
    ranking::rank(&work[at..at + n], places, spare);
    write_functions(
        lmax,
        n,
        at,
        places,
        order,
        starts,
        work,
        orders,
        concentrations,
    );
    write_vectors(lmax, n, places, order, starts, work, vectors);
}
