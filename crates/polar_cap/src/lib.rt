// The Slepian functions of a polar cap, best concentrated first (Simons, Dahlen & Wieczorek 2006).
#![tactic(auto)]

mod cap;
mod polar;

ghost use Rattle.std.specs.Prelude.{◌≡◌, ◌+◌, ◌*◌, ◌≤◌, length};
ghost use Rattle.std.specs.Float.{nan};
ghost use Rattle.refusal.specs.Numbers.{after, behind};
ghost use Rattle.storage.specs.Elements.{from};
ghost use Rattle.storage.specs.Fill.{fill};
ghost use Rattle.storage.specs.Rectangle.{by_rows};
ghost use Rattle.storage.specs.Triangle.{table_size};
ghost use Rattle.cap_functions.specs.CapPlaces.{Sized};
ghost use Rattle.polar_cap.specs.PolarCap.{told_of, cap_check, cap_work, cap_orders, cap_concentrations, cap_vectors, vectors_size};

use refusal::Refusal;

// The highest degree of a cap's functions.
pub const MAX_CAP: usize = 180;

// How many functions there are and how many numbers their vectors have, where the concentrations stand in the working list, and how much of it is used.
#[derive(Clone, Copy)]
pub struct Sizes {
    pub functions: usize,
    pub numbers: usize,
    pub at: usize,
    pub work: usize,
}

// The sizes for a degree that is not refused: a kernel of the check, and of the call that tells lengths.
pub fn cap_sizes(lmax: usize) -> Sizes
    requires { lmax ≤ 180 }
    ensures { Sized lmax result.functions result.numbers result.at result.work }
{
    let count = lmax + 1;
    let product = count * (lmax + 2);
    let functions = product / 2;
    let numbers = product * (2 * lmax + 3) / 6;
    let cells = count * count;
    Sizes {
        functions,
        numbers,
        at: functions + functions + (cells + 4 * count),
        work: 3 * functions + 4 * cells + 5 * count + functions + functions + numbers,
    }
}

// The Slepian functions to degree lmax of the polar cap whose angle has this cosine, best concentrated first: their orders, their concentrations, and
// their coefficients of P(l, m) for l = m to lmax, end to end; and how the solver ended for each order m, two numbers by rising m: 1 where it
// settled or 0, then its count. The weights and the latitudes are those of the nodes over the cap.
pub fn polar_cap(
    lmax: usize,
    cosine: f64,
    weights: &[f64],
    latitudes: &[f64],
    work: &mut [f64],
    orders: &mut [f64],
    concentrations: &mut [f64],
    vectors: &mut [f64],
    settled: &mut [f64],
) -> Result<(), Refusal>
    ensures value { result ≡ cap_check lmax (length weights.now) (length latitudes.now) (length work.old)
        (length orders.old) (length concentrations.old) (length vectors.old) (length settled.old) }
    ensures orders_after { orders.new ≡ after result
        (fill 0 (from 0 (cap_orders lmax cosine weights.now latitudes.now) nan) (table_size lmax) orders.old)
        orders.old }
    ensures concentrations_after { concentrations.new ≡ after result
        (fill 0 (from 0 (cap_concentrations lmax cosine weights.now latitudes.now) nan) (table_size lmax)
        concentrations.old)
        concentrations.old }
    ensures vectors_after { vectors.new ≡ after result
        (fill 0 (from 0 (cap_vectors lmax cosine weights.now latitudes.now) nan) (vectors_size lmax) vectors.old)
        vectors.old }
    ensures settled_after { settled.new
        ≡ after result (fill 0 (by_rows (told_of lmax cosine) 2) ((lmax + 1) * 2) settled.old) settled.old }
    ensures work_unchanged_1 { behind result (cap_work lmax) work.new ≡ behind result (cap_work lmax) work.old }
    ensures work_unchanged_2 { length work.new ≡ length work.old }
{
    polar::cap_check(
        lmax,
        weights.len(),
        latitudes.len(),
        work.len(),
        orders.len(),
        concentrations.len(),
        vectors.len(),
        settled.len(),
    )?;
    polar::compute(
        lmax,
        cosine,
        weights,
        latitudes,
        work,
        orders,
        concentrations,
        vectors,
        settled,
    );
    Ok(())
}
