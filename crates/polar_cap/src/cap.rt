// The Slepian functions of a polar cap, order by order. The tables of the recursion stand at the front of the working list, behind them the matrix of
// one order, then the concentrations and the vectors of the orders so far.
ghost use Rattle.std.specs.Prelude.{◌≡◌, ◌+◌, ◌*◌, ◌≤◌, ◌<◌, length};
ghost use Rattle.std.specs.Float.{nan};
ghost use Rattle.storage.specs.Elements.{from};
ghost use Rattle.storage.specs.Fill.{fill};
ghost use Rattle.storage.specs.Filled.{Filled};
ghost use Rattle.storage.specs.Rectangle.{by_rows};
ghost use Rattle.storage.specs.Triangle.{idx, table_size};
ghost use Rattle.recursion.specs.Recursion.{pmm};
ghost use Rattle.matrix.specs.Matrix.{cell};
ghost use Rattle.matrix.specs.Layout.{flipped, Kept};
ghost use Rattle.caps.specs.Caps.{degrees};
ghost use Rattle.caps.specs.Columns.{TablesIn};
ghost use Rattle.caps.specs.Nodes.{NodeRoom, rescale_of};
ghost use Rattle.polar_cap.specs.PolarCap.{vectors_of, convergence_of, told, told_of, concentration_in, vectors_size, cap_work};
ghost use Rattle.cap_functions.specs.CapPlaces.{concentrations_at, vectors_at, functions_before, numbers_before, CapRoom};
ghost use Rattle.polar_cap.specs.CapStorage.{Apart, Stored};

use linalg::Convergence;

// The vectors of order m: the eigenvectors of Grünbaum's matrix, which is made in g. `values` is overwritten, and so is the working list behind
// index `at`.
fn vectors_of(
    m: usize,
    k: usize,
    lmax: usize,
    at: usize,
    x0: f64,
    g: &mut [f64],
    work: &mut [f64],
    values: &mut [f64],
    vectors: &mut [f64],
) -> Convergence
    requires m_le_lmax_1 { m ≤ lmax }
    requires m_le_lmax_2 { k ≡ degrees lmax m }
    requires m_le_lmax_3 { lmax ≤ 180 }
    requires m_le_lmax_4 { k * k ≤ length g.old }
    requires m_le_lmax_5 { at + (k * k + 4 * k) ≤ length work.old }
    requires k_in_bounds_1 { k ≤ length values.old }
    requires k_in_bounds_2 { k * k ≤ length vectors.old }
    ensures fact_1 { Filled 0 (from 0 (vectors_of lmax x0 m) nan) (k * k) vectors.old vectors.new }
    ensures fact_2 { Kept k values.old values.new }
    ensures fact_3 { Apart at (at + (k * k + 4 * k)) work.old work.new }
    ensures fact_4 { result ≡ convergence_of lmax x0 m }
{
    let size = cap_functions::square(k);
    caps::grunbaum::grunbaum(m, k, lmax, x0, g);
    linalg::eigen(k, &g[..size], &mut work[at..], values, vectors)
}

// The concentrations of order m: Rayleigh's quotients of its vectors with its concentration matrix, which is made from index `at` of the working list
// on. `column` is overwritten.
fn concentrations_of(
    m: usize,
    k: usize,
    lmax: usize,
    start: usize,
    total: usize,
    at: usize,
    x0: f64,
    sectoral: f64,
    weights: &[f64],
    latitudes: &[f64],
    rescales: &[f64],
    vectors: &[f64],
    column: &mut [f64],
    work: &mut [f64],
    out: &mut [f64],
)
    requires m_le_lmax_1 { m ≤ lmax }
    requires m_le_lmax_2 { k ≡ degrees lmax m }
    requires m_le_lmax_3 { sectoral ≡ pmm m }
    requires m_le_lmax_4 { start ≡ idx m m }
    requires m_le_lmax_5 { NodeRoom m k total at (length column.old) (length work.old) }
    requires tables_in_1 { TablesIn lmax total work.old }
    requires tables_in_2 { lmax < length weights.now }
    requires tables_in_3 { lmax + lmax + 1 < length latitudes.now }
    requires tables_in_4 { lmax < length rescales.now }
    requires tables_in_5 { k ≤ length out.old }
    requires filled_1 { Filled 0 (rescale_of latitudes.now m) (lmax + 1) rescales.now rescales.now }
    requires filled_2 { Filled 0 (from 0 (vectors_of lmax x0 m) nan) (k * k) vectors.now vectors.now }
    requires filled_3 { k * k ≤ length vectors.now }
    ensures fact_1 { Filled 0 (concentration_in lmax x0 weights.now latitudes.now m) k out.old out.new }
    ensures fact_2 { Apart at (at + k * k) work.old work.new }
{
    caps::nodes::concentration(
        m, k, lmax, start, total, at, x0, sectoral, weights, latitudes, rescales, column, work,
    );
    caps::quotients::quotients(k, at, work, vectors, column, out);
}

// The concentrations and the vectors of one order put behind those of the orders before it, each vector as a run.
fn store(k: usize, f: usize, v: usize, concentrations: &[f64], vectors: &[f64], work: &mut [f64])
    requires fact_1 { k ≤ 181 }
    requires fact_2 { k ≤ length concentrations.now }
    requires fact_3 { k * k ≤ length vectors.now }
    requires fact_4 { f + k ≤ v }
    requires fact_5 { v + k * k ≤ length work.old }
    ensures { Filled v (by_rows (flipped (cell k vectors.now)) k) (k * k)
        (fill f (from 0 concentrations.now nan) k work.old) work.new }
{
    cap_functions::copy_run(k, 0, concentrations, f, work);
    matrix::transpose(k, vectors, &mut work[v..]);
}

// One order: its vectors and its concentrations, put behind those of the orders before it. The outputs serve as working space.
fn order(
    m: usize,
    lmax: usize,
    start: usize,
    total: usize,
    f: usize,
    v: usize,
    x0: f64,
    sectoral: f64,
    weights: &[f64],
    latitudes: &[f64],
    rescales: &[f64],
    g: &mut [f64],
    column: &mut [f64],
    work: &mut [f64],
    orders: &mut [f64],
    concentrations: &mut [f64],
    vectors: &mut [f64],
) -> Convergence
    requires m_le_lmax_1 { m ≤ lmax }
    requires m_le_lmax_2 { sectoral ≡ pmm m }
    requires m_le_lmax_3 { start ≡ idx m m }
    requires m_le_lmax_4 { f ≡ concentrations_at lmax + functions_before lmax m }
    requires m_le_lmax_5 { v ≡ vectors_at lmax + numbers_before lmax m }
    requires filled_1 { Filled 0 (rescale_of latitudes.now m) (lmax + 1) rescales.now rescales.now }
    requires filled_2 { Stored lmax x0 weights.now latitudes.now total m work.old }
    requires filled_3 { CapRoom lmax (length weights.now) (length latitudes.now) (length rescales.now) (length g.old) (length column.old)
        (length work.old) (length orders.old) (length concentrations.old) (length vectors.old) }
    ensures stored_1 { Stored lmax x0 weights.now latitudes.now total (m + 1) work.new }
    ensures stored_2 { Kept (cap_work lmax) work.old work.new }
    ensures kept_1 { Kept (table_size lmax) orders.old orders.new }
    ensures kept_2 { Kept (table_size lmax) concentrations.old concentrations.new }
    ensures kept_3 { Kept (vectors_size lmax) vectors.old vectors.new }
    ensures kept_4 { result ≡ convergence_of lmax x0 m }
{
    let k = lmax - m + 1;
    let at = total + total;
    let ended = vectors_of(m, k, lmax, at, x0, g, work, orders, vectors);
    concentrations_of(
        m,
        k,
        lmax,
        start,
        total,
        at,
        x0,
        sectoral,
        weights,
        latitudes,
        rescales,
        vectors,
        column,
        work,
        concentrations,
    );
    store(k, f, v, concentrations, vectors, work);
    ended
}

// How the solver ended for order m, in two numbers.
fn tell(m: usize, ended: Convergence, settled: &mut [f64])
    requires fact_1 { m ≤ 180 }
    requires fact_2 { ended.count ≤ 51200 }
    requires fact_3 { m * 2 + 2 ≤ length settled.old }
    ensures { Filled (m * 2) (told ended) 2 settled.old settled.new }
{
    let at = m * 2;
    settled[at] = u32::from(ended.settled) as f64;
    settled[at + 1] = ended.count as f64;
}

// All orders, from the tables at the front of the working list. The sectoral numbers and the powers of the nodes' cosines run along; `rescales`, g and
// `column` are overwritten.
pub fn all_orders(
    lmax: usize,
    total: usize,
    at: usize,
    x0: f64,
    weights: &[f64],
    latitudes: &[f64],
    rescales: &mut [f64],
    g: &mut [f64],
    column: &mut [f64],
    work: &mut [f64],
    orders: &mut [f64],
    concentrations: &mut [f64],
    vectors: &mut [f64],
    settled: &mut [f64],
)
    requires fact_1 { at ≡ concentrations_at lmax }
    requires fact_2 { TablesIn lmax total work.old }
    requires fact_3 { CapRoom lmax (length weights.now) (length latitudes.now) (length rescales.old) (length g.old) (length column.old)
        (length work.old) (length orders.old) (length concentrations.old) (length vectors.old) }
    requires fact_4 { (lmax + 1) * 2 ≤ length settled.old }
    ensures stored_1 { Stored lmax x0 weights.now latitudes.now total (lmax + 1) work.new }
    ensures stored_2 { Kept (cap_work lmax) work.old work.new }
    ensures kept_1 { Kept (table_size lmax) orders.old orders.new }
    ensures kept_2 { Kept (table_size lmax) concentrations.old concentrations.new }
    ensures kept_3 { Kept (vectors_size lmax) vectors.old vectors.new }
    ensures filled { Filled 0 (by_rows (told_of lmax x0) 2) ((lmax + 1) * 2) settled.old settled.new }
{
    let count = lmax + 1;
    caps::nodes::first_rescales(count, rescales);
    let mut sectoral = 1e-280;
    let mut start = 0;
    let mut f = at;
    let mut v = at + total;
    for m in 0..count {
        let ended = order(
            m,
            lmax,
            start,
            total,
            f,
            v,
            x0,
            sectoral,
            weights,
            latitudes,
            rescales,
            g,
            column,
            work,
            orders,
            concentrations,
            vectors,
        );
        tell(m, ended, settled);
        caps::nodes::next_rescales(count, latitudes, rescales);
        let k = count - m;
        f = f + k;
        v = v + cap_functions::square(k);
        start = start + m + 2;
        sectoral = legendre::rows::next_sectoral(m + 1, sectoral);
    }
}
