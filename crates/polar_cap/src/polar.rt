// The Slepian functions of a polar cap: the checks of the call, and the arrays that it makes once and lends to every order.
ghost use Rattle.std.specs.Prelude.{◌≡◌, ◌+◌, ◌*◌, ◌≤◌, ◌<◌, length};
ghost use Rattle.storage.specs.Triangle.{table_size};
ghost use Rattle.polar_cap.specs.PolarCap.{cap_check};
ghost use Rattle.cap_functions.specs.CapPlaces.{CapRoom};
ghost use Rattle.polar_cap.specs.CapChecks.{CapAccepted};
ghost use Rattle.polar_cap.specs.CapStorage.{CapMade};

use refusal::Refusal;

// SIZE, LENGTH and SPACE, over the lengths of the lists.
pub fn cap_check(
    lmax: usize,
    weights: usize,
    latitudes: usize,
    work: usize,
    orders: usize,
    concentrations: usize,
    vectors: usize,
    settled: usize,
) -> Result<(), Refusal>
    ensures { result ≡ cap_check lmax weights latitudes work orders concentrations vectors settled }
{
    if lmax > crate::MAX_CAP {
        return Err(Refusal::Size);
    }
    let count = lmax + 1;
    if weights != count {
        return Err(Refusal::Length);
    }
    if latitudes != count + count {
        return Err(Refusal::Length);
    }
    let sizes = crate::cap_sizes(lmax);
    if work < sizes.work {
        return Err(Refusal::Space);
    }
    if orders < sizes.functions {
        return Err(Refusal::Space);
    }
    if concentrations < sizes.functions {
        return Err(Refusal::Space);
    }
    if vectors < sizes.numbers {
        return Err(Refusal::Space);
    }
    if settled < count * 2 {
        return Err(Refusal::Space);
    }
    Ok(())
}

// The tables, all orders, and the functions ranked; the arrays are overwritten.
fn cap_in(
    lmax: usize,
    x0: f64,
    weights: &[f64],
    latitudes: &[f64],
    rescales: &mut [f64],
    g: &mut [f64],
    column: &mut [f64],
    order: &mut [usize],
    starts: &mut [usize],
    places: &mut [u16],
    spare: &mut [u16],
    work: &mut [f64],
    orders: &mut [f64],
    concentrations: &mut [f64],
    vectors: &mut [f64],
    settled: &mut [f64],
)
    requires cap_room { CapRoom lmax (length weights.now) (length latitudes.now) (length rescales.old) (length g.old) (length column.old)
        (length work.old) (length orders.old) (length concentrations.old) (length vectors.old) }
    requires lmax_in_bounds_1 { table_size lmax ≤ length order.old }
    requires lmax_in_bounds_2 { table_size lmax ≤ length starts.old }
    requires lmax_in_bounds_3 { table_size lmax ≤ length places.old }
    requires lmax_in_bounds_4 { table_size lmax ≤ length spare.old }
    requires lmax_in_bounds_5 { (lmax + 1) * 2 ≤ length settled.old }
    ensures { CapMade lmax x0 weights.now latitudes.now work.old work.new
        orders.old orders.new concentrations.old concentrations.new
        vectors.old vectors.new settled.old settled.new }
{
    let sizes = crate::cap_sizes(lmax);
    let total = sizes.functions;
    let at = sizes.at;
    recursion::tables(lmax, total, work);
    crate::cap::all_orders(
        lmax,
        total,
        at,
        x0,
        weights,
        latitudes,
        rescales,
        g,
        column,
        work,
        orders,
        concentrations,
        vectors,
        settled,
    );
    cap_functions::ranked::number_functions(lmax, at + total, order, starts);
    cap_functions::ranked::write(
        lmax,
        total,
        at,
        order,
        starts,
        work,
        places,
        spare,
        orders,
        concentrations,
        vectors,
    );
}

// A low degree, in short arrays: an array is cleared before it is used.
fn cap_short(
    lmax: usize,
    x0: f64,
    weights: &[f64],
    latitudes: &[f64],
    work: &mut [f64],
    orders: &mut [f64],
    concentrations: &mut [f64],
    vectors: &mut [f64],
    settled: &mut [f64],
)
    requires fact_1 { CapAccepted lmax (length weights.now) (length latitudes.now) (length work.old) (length orders.old)
        (length concentrations.old) (length vectors.old) (length settled.old) }
    requires fact_2 { lmax < 16 }
    ensures { CapMade lmax x0 weights.now latitudes.now work.old work.new
        orders.old orders.new concentrations.old concentrations.new
        vectors.old vectors.new settled.old settled.new }
{
    let mut rescales = [0.0; 16];
    let mut g = [0.0; 256];
    let mut column = [0.0; 16];
    let mut order = [0usize; 136];
    let mut starts = [0usize; 136];
    let mut places = [0u16; 136];
    let mut spare = [0u16; 136];
    cap_in(
        lmax,
        x0,
        weights,
        latitudes,
        &mut rescales,
        &mut g,
        &mut column,
        &mut order,
        &mut starts,
        &mut places,
        &mut spare,
        work,
        orders,
        concentrations,
        vectors,
        settled,
    );
}

// Any degree.
fn cap_long(
    lmax: usize,
    x0: f64,
    weights: &[f64],
    latitudes: &[f64],
    work: &mut [f64],
    orders: &mut [f64],
    concentrations: &mut [f64],
    vectors: &mut [f64],
    settled: &mut [f64],
)
    requires { CapAccepted lmax (length weights.now) (length latitudes.now) (length work.old) (length orders.old)
        (length concentrations.old) (length vectors.old) (length settled.old) }
    ensures { CapMade lmax x0 weights.now latitudes.now work.old work.new
        orders.old orders.new concentrations.old concentrations.new
        vectors.old vectors.new settled.old settled.new }
{
    let mut rescales = [0.0; 181];
    let mut g = [0.0; 32761];
    let mut column = [0.0; 181];
    let mut order = [0usize; 16471];
    let mut starts = [0usize; 16471];
    let mut places = [0u16; 16471];
    let mut spare = [0u16; 16471];
    cap_in(
        lmax,
        x0,
        weights,
        latitudes,
        &mut rescales,
        &mut g,
        &mut column,
        &mut order,
        &mut starts,
        &mut places,
        &mut spare,
        work,
        orders,
        concentrations,
        vectors,
        settled,
    );
}

// The functions of a cap whose sizes are accepted.
pub fn compute(
    lmax: usize,
    x0: f64,
    weights: &[f64],
    latitudes: &[f64],
    work: &mut [f64],
    orders: &mut [f64],
    concentrations: &mut [f64],
    vectors: &mut [f64],
    settled: &mut [f64],
)
    requires { CapAccepted lmax (length weights.now) (length latitudes.now) (length work.old) (length orders.old)
        (length concentrations.old) (length vectors.old) (length settled.old) }
    ensures { CapMade lmax x0 weights.now latitudes.now work.old work.new
        orders.old orders.new concentrations.old concentrations.new
        vectors.old vectors.new settled.old settled.new }
{
    if lmax < 16 {
        cap_short(
            lmax,
            x0,
            weights,
            latitudes,
            work,
            orders,
            concentrations,
            vectors,
            settled,
        );
        return;
    }
    cap_long(
        lmax,
        x0,
        weights,
        latitudes,
        work,
        orders,
        concentrations,
        vectors,
        settled,
    );
}
