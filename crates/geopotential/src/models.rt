// The calls of the crate coefficients. Where a call takes no gm and radius, its answer does not depend on them.
ghost use Rattle.std.specs.Prelude.{◌≡◌, ◌+◌, min, length, set};
ghost use Rattle.std.specs.Float.{nan};
ghost use Rattle.refusal.specs.Numbers.{after, value_after, result_number};
ghost use Rattle.number.specs.Float64.{◌⊘◌};
ghost use Rattle.storage.specs.Elements.{zero_at, from};
ghost use Rattle.storage.specs.Fill.{fill};
ghost use Rattle.storage.specs.Triangle.{idx, table_size, along};
ghost use Rattle.storage.specs.Checks.{room_check, entry_answer};
ghost use Rattle.coefficients.specs.Checks.{set_check, variances_check};
ghost use Rattle.coefficients.specs.Values.{rescaled_entry, variance_of};
ghost use Rattle.geopotential.specs.Models.{degree_after, cut_check, same_check, amplitudes_number, amplitudes_after};

use coefficients::{Head, TideSystem};
use functional::Functional;
use refusal::Refusal;

pub fn geopotential_zeros(gm: f64, radius: f64, nmax: usize, c: &mut [f64], s: &mut [f64]) -> u32
    ensures value { result ≡ result_number (room_check nmax (length c.old) (length s.old)) }
    ensures c_after { c.new ≡ after (room_check nmax (length c.old) (length s.old)) (fill 0 zero_at (table_size nmax) c.old) c.old }
    ensures s_after { s.new ≡ after (room_check nmax (length c.old) (length s.old)) (fill 0 zero_at (table_size nmax) s.old) s.old }
{
    refusal::result_number(Head::zeros(gm, radius, nmax, c, s))
}

pub fn geopotential_coefficient_c(
    nmax: usize,
    c: &[f64],
    n: usize,
    m: usize,
    value: &mut f64,
) -> u32
    ensures value { result ≡ result_number (entry_answer nmax c.now n m) }
    ensures value_after { value.new ≡ value_after (entry_answer nmax c.now n m) value.old }
{
    let head = Head {
        gm: 1.0,
        radius: 1.0,
        tide_system: TideSystem::Unknown,
        date: None,
        nmax,
    };
    refusal::hand_on(head.c(c, n, m), value)
}

pub fn geopotential_coefficient_s(
    nmax: usize,
    s: &[f64],
    n: usize,
    m: usize,
    value: &mut f64,
) -> u32
    ensures value { result ≡ result_number (entry_answer nmax s.now n m) }
    ensures value_after { value.new ≡ value_after (entry_answer nmax s.now n m) value.old }
{
    let head = Head {
        gm: 1.0,
        radius: 1.0,
        tide_system: TideSystem::Unknown,
        date: None,
        nmax,
    };
    refusal::hand_on(head.s(s, n, m), value)
}

pub fn geopotential_set(
    nmax: usize,
    c: &mut [f64],
    s: &mut [f64],
    n: usize,
    m: usize,
    cnm: f64,
    snm: f64,
) -> u32
    ensures value { result ≡ result_number (set_check nmax (length c.old) (length s.old) n m) }
    ensures c_after { c.new ≡ after (set_check nmax (length c.old) (length s.old) n m) (set c.old (idx n m) cnm) c.old }
    ensures s_after { s.new ≡ after (set_check nmax (length c.old) (length s.old) n m) (set s.old (idx n m) snm) s.old }
{
    let head = Head {
        gm: 1.0,
        radius: 1.0,
        tide_system: TideSystem::Unknown,
        date: None,
        nmax,
    };
    refusal::result_number(head.set(c, s, n, m, cnm, snm))
}

// Hands the degree of a field on through `degree`, which a refusal leaves alone; answers 0 or the number of the refusal.
fn hand_on_degree(a: Result<Head, Refusal>, degree: &mut usize) -> u32
    ensures value { result ≡ result_number a }
    ensures degree_after { degree.new ≡ degree_after a degree.old }
{
    match a {
        Ok(h) => {
            *degree = h.nmax;
            0
        }
        Err(e) => u32::from(e),
    }
}

// The degree that is kept goes through `degree`.
pub fn geopotential_truncated(
    nmax: usize,
    c: &[f64],
    s: &[f64],
    cut: usize,
    outc: &mut [f64],
    outs: &mut [f64],
    degree: &mut usize,
) -> u32
    ensures value { result ≡ result_number (cut_check nmax c.now s.now cut outc.old outs.old) }
    ensures outc_after { outc.new ≡ after (cut_check nmax c.now s.now cut outc.old outs.old) (fill 0 (from 0 c.now nan) (table_size (min cut nmax)) outc.old) outc.old }
    ensures outs_after { outs.new ≡ after (cut_check nmax c.now s.now cut outc.old outs.old) (fill 0 (from 0 s.now nan) (table_size (min cut nmax)) outs.old) outs.old }
    ensures degree_after { degree.new ≡ after (cut_check nmax c.now s.now cut outc.old outs.old) (min cut nmax) degree.old }
{
    let head = Head {
        gm: 1.0,
        radius: 1.0,
        tide_system: TideSystem::Unknown,
        date: None,
        nmax,
    };
    hand_on_degree(head.truncated(c, s, cut, outc, outs), degree)
}

pub fn geopotential_rescaled(
    gm: f64,
    radius: f64,
    nmax: usize,
    c: &[f64],
    s: &[f64],
    newgm: f64,
    newradius: f64,
    outc: &mut [f64],
    outs: &mut [f64],
) -> u32
    ensures value { result ≡ result_number (same_check nmax c.now s.now outc.old outs.old) }
    ensures outc_after { outc.new ≡ after (same_check nmax c.now s.now outc.old outs.old) (fill 0 (along (rescaled_entry (gm ⊘ newgm) (radius ⊘ newradius) c.now)) (table_size nmax) outc.old) outc.old }
    ensures outs_after { outs.new ≡ after (same_check nmax c.now s.now outc.old outs.old) (fill 0 (along (rescaled_entry (gm ⊘ newgm) (radius ⊘ newradius) s.now)) (table_size nmax) outs.old) outs.old }
{
    let head = Head {
        gm,
        radius,
        tide_system: TideSystem::Unknown,
        date: None,
        nmax,
    };
    refusal::result_number(head.rescaled(c, s, newgm, newradius, outc, outs))
}

pub fn geopotential_degree_variances(nmax: usize, c: &[f64], s: &[f64], out: &mut [f64]) -> u32
    ensures value { result ≡ result_number (variances_check nmax (length c.now) (length s.now) (length out.old)) }
    ensures out_after { out.new ≡ after (variances_check nmax (length c.now) (length s.now) (length out.old)) (fill 0 (variance_of c.now s.now) (nmax + 1) out.old) out.old }
{
    let head = Head {
        gm: 1.0,
        radius: 1.0,
        tide_system: TideSystem::Unknown,
        date: None,
        nmax,
    };
    refusal::result_number(head.degree_variances(c, s, out))
}

// A functional above 5 is refused by 255, before every check.
pub fn geopotential_degree_amplitudes(
    gm: f64,
    radius: f64,
    nmax: usize,
    c: &[f64],
    s: &[f64],
    functional: u32,
    love: &[f64],
    out: &mut [f64],
) -> u32
    ensures value { result ≡ amplitudes_number nmax c.now s.now functional love.now out.old }
    ensures out_after { out.new ≡ amplitudes_after gm radius nmax c.now s.now functional love.now out.old }
{
    let Ok(f) = Functional::try_from(functional) else {
        return 255;
    };
    let head = Head {
        gm,
        radius,
        tide_system: TideSystem::Unknown,
        date: None,
        nmax,
    };
    refusal::result_number(head.degree_amplitudes(c, s, f, love, out))
}
