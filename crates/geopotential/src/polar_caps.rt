// The Slepian functions of a polar cap.
ghost use Rattle.std.specs.Prelude.{◌≡◌, ◌+◌, ◌*◌, length};
ghost use Rattle.std.specs.Float.{nan};
ghost use Rattle.refusal.specs.Numbers.{after, behind, result_number};
ghost use Rattle.storage.specs.Elements.{from};
ghost use Rattle.storage.specs.Fill.{fill};
ghost use Rattle.storage.specs.Rectangle.{by_rows};
ghost use Rattle.storage.specs.Triangle.{table_size};
ghost use Rattle.polar_cap.specs.PolarCap.{told_of, cap_check, cap_work, cap_orders, cap_concentrations, cap_vectors, vectors_size};

pub fn geopotential_polar_cap(
    lmax: usize,
    cosine: f64,
    weights: &[f64],
    latitudes: &[f64],
    work: &mut [f64],
    orders: &mut [f64],
    concentrations: &mut [f64],
    vectors: &mut [f64],
    settled: &mut [f64],
) -> u32
    ensures value { result ≡ result_number (cap_check lmax (length weights.now) (length latitudes.now)
        (length work.old) (length orders.old) (length concentrations.old) (length vectors.old)
        (length settled.old)) }
    ensures orders_after { orders.new ≡ after
        (cap_check lmax (length weights.now) (length latitudes.now) (length work.old)
        (length orders.old) (length concentrations.old) (length vectors.old)
        (length settled.old))
        (fill 0 (from 0 (cap_orders lmax cosine weights.now latitudes.now) nan) (table_size lmax) orders.old)
        orders.old }
    ensures concentrations_after { concentrations.new ≡ after
        (cap_check lmax (length weights.now) (length latitudes.now) (length work.old)
        (length orders.old) (length concentrations.old) (length vectors.old)
        (length settled.old))
        (fill 0 (from 0 (cap_concentrations lmax cosine weights.now latitudes.now) nan) (table_size lmax)
        concentrations.old)
        concentrations.old }
    ensures vectors_after { vectors.new ≡ after
        (cap_check lmax (length weights.now) (length latitudes.now) (length work.old)
        (length orders.old) (length concentrations.old) (length vectors.old)
        (length settled.old))
        (fill 0 (from 0 (cap_vectors lmax cosine weights.now latitudes.now) nan) (vectors_size lmax) vectors.old)
        vectors.old }
    ensures settled_after { settled.new ≡ after
        (cap_check lmax (length weights.now) (length latitudes.now) (length work.old)
        (length orders.old) (length concentrations.old) (length vectors.old)
        (length settled.old))
        (fill 0 (by_rows (told_of lmax cosine) 2) ((lmax + 1) * 2) settled.old) settled.old }
    ensures work_unchanged { behind
        (cap_check lmax (length weights.now) (length latitudes.now) (length work.old)
        (length orders.old) (length concentrations.old) (length vectors.old)
        (length settled.old))
        (cap_work lmax) work.new
        ≡ behind
        (cap_check lmax (length weights.now) (length latitudes.now) (length work.old)
        (length orders.old) (length concentrations.old) (length vectors.old)
        (length settled.old))
        (cap_work lmax) work.old }
    ensures work_len_unchanged { length work.new ≡ length work.old }
{
    refusal::result_number(polar_cap::polar_cap(
        lmax,
        cosine,
        weights,
        latitudes,
        work,
        orders,
        concentrations,
        vectors,
        settled,
    ))
}
