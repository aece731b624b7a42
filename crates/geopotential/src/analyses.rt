// The call of the crate analysis: the coefficients of a grid's values.
ghost use Rattle.std.specs.Prelude.{◌≡◌, length};
ghost use Rattle.geopotential.specs.Analyses.{analysis_number, analysis_after, analysis_keeps};
ghost use Rattle.analysis.specs.Analysis.{cosine_sum, sine_sum};

use functional::Functional;

// A functional above 5 is refused by 255, before every check.
pub fn geopotential_analysis(
    functional: u32,
    love: &[f64],
    r: f64,
    nmax: usize,
    gm: f64,
    radius: f64,
    values: &[f64],
    weights: &[f64],
    latitudes: &[f64],
    trig: &[f64],
    work: &mut [f64],
    c: &mut [f64],
    s: &mut [f64],
) -> u32
    ensures value { result ≡ analysis_number functional love.now nmax values.now weights.now latitudes.now
        trig.now work.old c.old s.old }
    ensures c_after { c.new ≡ analysis_after functional love.now nmax values.now weights.now
        latitudes.now trig.now work.old c.old s.old
        gm radius r (cosine_sum values.now trig.now nmax) c.old }
    ensures s_after { s.new ≡ analysis_after functional love.now nmax values.now weights.now
        latitudes.now trig.now work.old c.old s.old
        gm radius r (sine_sum values.now trig.now nmax) s.old }
    ensures work_unchanged { analysis_keeps functional love.now nmax values.now weights.now latitudes.now
        trig.now work.old c.old s.old work.new
        ≡ analysis_keeps functional love.now nmax values.now weights.now latitudes.now
        trig.now work.old c.old s.old work.old }
    ensures work_len_unchanged { length work.new ≡ length work.old }
{
    let Ok(f) = Functional::try_from(functional) else {
        return 255;
    };
    refusal::result_number(analysis::analysis(
        f, love, r, nmax, gm, radius, values, weights, latitudes, trig, work, c, s,
    ))
}
