// The calls of the crate coefficients. Where a call takes no gm and radius, its answer does not depend on them.
ghost use Rattle.std.specs.Prelude.{◌≡◌, ◌+◌, min, length, set};
ghost use Rattle.std.specs.Float.{nan};
ghost use Rattle.refusal.specs.Numbers.{after, value_after, result_number};
ghost use Rattle.number.specs.Float64.{◌⊘◌};
ghost use Rattle.storage.specs.Elements.{zero_at, from};
ghost use Rattle.storage.specs.Fill.{fill};
ghost use Rattle.storage.specs.Triangle.{idx, table_size, along};
ghost use Rattle.storage.specs.Checks.{room_check, entry_answer};
ghost use Rattle.coefficients.specs.Checks.{set_check, variances_check};
ghost use Rattle.coefficients.specs.Values.{rescaled_entry, variance_of};
ghost use Rattle.geopotential.specs.Models.{degree_after, cut_check, same_check, amplitudes_number, amplitudes_after};

#[unsafe(no_mangle)]
pub extern "C" fn geopotential_zeros(
    gm: f64,
    radius: f64,
    nmax: usize,
    c: &mut [f64],
    s: &mut [f64],
) -> u32
    ensures value { result ≡ result_number (room_check nmax (length c.old) (length s.old)) }
    ensures c_after { c.new ≡ after (room_check nmax (length c.old) (length s.old)) (fill 0 zero_at (table_size nmax) c.old) c.old }
    ensures s_after { s.new ≡ after (room_check nmax (length c.old) (length s.old)) (fill 0 zero_at (table_size nmax) s.old) s.old }
{
    geopotential::models::geopotential_zeros(gm, radius, nmax, c, s)
}

#[unsafe(no_mangle)]
pub extern "C" fn geopotential_coefficient_c(
    nmax: usize,
    c: &[f64],
    n: usize,
    m: usize,
    value: &mut f64,
) -> u32
    ensures value { result ≡ result_number (entry_answer nmax c.now n m) }
    ensures value_after { value.new ≡ value_after (entry_answer nmax c.now n m) value.old }
{
    geopotential::models::geopotential_coefficient_c(nmax, c, n, m, value)
}

#[unsafe(no_mangle)]
pub extern "C" fn geopotential_coefficient_s(
    nmax: usize,
    s: &[f64],
    n: usize,
    m: usize,
    value: &mut f64,
) -> u32
    ensures value { result ≡ result_number (entry_answer nmax s.now n m) }
    ensures value_after { value.new ≡ value_after (entry_answer nmax s.now n m) value.old }
{
    geopotential::models::geopotential_coefficient_s(nmax, s, n, m, value)
}

#[unsafe(no_mangle)]
pub extern "C" fn geopotential_set(
    nmax: usize,
    c: &mut [f64],
    s: &mut [f64],
    n: usize,
    m: usize,
    cnm: f64,
    snm: f64,
) -> u32
    ensures value { result ≡ result_number (set_check nmax (length c.old) (length s.old) n m) }
    ensures c_after { c.new ≡ after (set_check nmax (length c.old) (length s.old) n m) (set c.old (idx n m) cnm) c.old }
    ensures s_after { s.new ≡ after (set_check nmax (length c.old) (length s.old) n m) (set s.old (idx n m) snm) s.old }
{
    geopotential::models::geopotential_set(nmax, c, s, n, m, cnm, snm)
}

// The degree that is kept goes through `degree`.
#[unsafe(no_mangle)]
pub extern "C" fn geopotential_truncated(
    nmax: usize,
    c: &[f64],
    s: &[f64],
    cut: usize,
    outc: &mut [f64],
    outs: &mut [f64],
    degree: &mut usize,
) -> u32
    ensures value { result ≡ result_number (cut_check nmax c.now s.now cut outc.old outs.old) }
    ensures outc_after { outc.new ≡ after (cut_check nmax c.now s.now cut outc.old outs.old) (fill 0 (from 0 c.now nan) (table_size (min cut nmax)) outc.old) outc.old }
    ensures outs_after { outs.new ≡ after (cut_check nmax c.now s.now cut outc.old outs.old) (fill 0 (from 0 s.now nan) (table_size (min cut nmax)) outs.old) outs.old }
    ensures degree_after { degree.new ≡ after (cut_check nmax c.now s.now cut outc.old outs.old) (min cut nmax) degree.old }
{
    geopotential::models::geopotential_truncated(nmax, c, s, cut, outc, outs, degree)
}

#[unsafe(no_mangle)]
pub extern "C" fn geopotential_rescaled(
    gm: f64,
    radius: f64,
    nmax: usize,
    c: &[f64],
    s: &[f64],
    newgm: f64,
    newradius: f64,
    outc: &mut [f64],
    outs: &mut [f64],
) -> u32
    ensures value { result ≡ result_number (same_check nmax c.now s.now outc.old outs.old) }
    ensures outc_after { outc.new ≡ after (same_check nmax c.now s.now outc.old outs.old) (fill 0 (along (rescaled_entry (gm ⊘ newgm) (radius ⊘ newradius) c.now)) (table_size nmax) outc.old) outc.old }
    ensures outs_after { outs.new ≡ after (same_check nmax c.now s.now outc.old outs.old) (fill 0 (along (rescaled_entry (gm ⊘ newgm) (radius ⊘ newradius) s.now)) (table_size nmax) outs.old) outs.old }
{
    geopotential::models::geopotential_rescaled(
        gm, radius, nmax, c, s, newgm, newradius, outc, outs,
    )
}

#[unsafe(no_mangle)]
pub extern "C" fn geopotential_degree_variances(
    nmax: usize,
    c: &[f64],
    s: &[f64],
    out: &mut [f64],
) -> u32
    ensures value { result ≡ result_number (variances_check nmax (length c.now) (length s.now) (length out.old)) }
    ensures out_after { out.new ≡ after (variances_check nmax (length c.now) (length s.now) (length out.old)) (fill 0 (variance_of c.now s.now) (nmax + 1) out.old) out.old }
{
    geopotential::models::geopotential_degree_variances(nmax, c, s, out)
}

// A functional above 5 is refused by 255, before every check.
#[unsafe(no_mangle)]
pub extern "C" fn geopotential_degree_amplitudes(
    gm: f64,
    radius: f64,
    nmax: usize,
    c: &[f64],
    s: &[f64],
    functional: u32,
    love: &[f64],
    out: &mut [f64],
) -> u32
    ensures value { result ≡ amplitudes_number nmax c.now s.now functional love.now out.old }
    ensures out_after { out.new ≡ amplitudes_after gm radius nmax c.now s.now functional love.now out.old }
{
    geopotential::models::geopotential_degree_amplitudes(
        gm, radius, nmax, c, s, functional, love, out,
    )
}
