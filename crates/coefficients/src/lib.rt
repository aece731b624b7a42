// Spherical-harmonic gravity fields: fully normalized (4π, no Condon–Shortley phase) Stokes coefficients C(n,m) and S(n,m) in two lent lists,
// row by row, beside a head by value.
#![tactic(auto)]

mod degrees;
mod tables;

ghost use Rattle.std.specs.Prelude.{◌≡◌, ℕ, ◌+◌, ◌≤◌, min, length, set};
ghost use Rattle.std.specs.Float.{nan};
ghost use Rattle.refusal.specs.Numbers.{after, outcome, result_number, value_if};
ghost use Rattle.number.specs.Float64.{◌⊘◌};
ghost use Rattle.storage.specs.Elements.{zero_at, from};
ghost use Rattle.storage.specs.Fill.{fill};
ghost use Rattle.storage.specs.Triangle.{idx, table_size, along};
ghost use Rattle.coefficients.specs.Model.{tide_number, tide_of};
ghost use Rattle.storage.specs.Checks.{room_check, entry_answer, outputs_check};
ghost use Rattle.coefficients.specs.Checks.{set_check, variances_check, amplitudes_check};
ghost use Rattle.coefficients.specs.Values.{zero_head, cut_head, rescaled_head, rescaled_entry, variance_of, amplitude_of};

use functional::Functional;
use refusal::Refusal;

// How the permanent tide is treated in C(2,0).
#[derive(Clone, Copy, Debug, PartialEq, Eq)]
pub enum TideSystem {
    // no permanent tide, direct or indirect
    TideFree,
    // the permanent deformation, without the direct tidal potential
    ZeroTide,
    // both the direct and the indirect permanent part
    MeanTide,
    // not stated
    Unknown,
}

// What belongs to a field beside its coefficients.
#[derive(Clone, Copy, Debug, PartialEq)]
pub struct Head {
    // geocentric gravitational constant GM, m³/s²
    pub gm: f64,
    // reference radius R of the expansion, m
    pub radius: f64,
    // tide system of C(2,0)
    pub tide_system: TideSystem,
    // day of the field
    pub date: Option<i32>,
    // maximum degree N
    pub nmax: usize,
}

// The number of a tide system in a model file.
impl From<TideSystem> for u32 {
    ghost from_gives = { λ t n. n ≡ tide_number t };

    fn from(t: TideSystem) -> u32 {
        match t {
            TideSystem::TideFree => 0,
            TideSystem::ZeroTide => 1,
            TideSystem::MeanTide => 2,
            TideSystem::Unknown => 3,
        }
    }
}

// The tide system of a number; Unknown for one above 3, which every call refuses before it asks.
impl From<u32> for TideSystem {
    ghost from_gives = { λ n t. t ≡ tide_of n };

    fn from(number: u32) -> TideSystem {
        match number {
            0 => TideSystem::TideFree,
            1 => TideSystem::ZeroTide,
            2 => TideSystem::MeanTide,
            _ => TideSystem::Unknown,
        }
    }
}

impl Head {
    // All-zero coefficients up to degree nmax, with the tide system unknown.
    pub fn zeros(
        gm: f64,
        radius: f64,
        nmax: usize,
        c: &mut [f64],
        s: &mut [f64],
    ) -> Result<Head, Refusal>
        ensures value { result ≡ value_if (room_check nmax (length c.old) (length s.old)) (zero_head gm radius nmax) }
        ensures c_after { c.new ≡ after (outcome result) (fill 0 zero_at (table_size nmax) c.old) c.old }
        ensures s_after { s.new ≡ after (outcome result) (fill 0 zero_at (table_size nmax) s.old) s.old }
    {
        storage::room_check(nmax, c.len(), s.len())?;
        let size = storage::table_size(nmax);
        storage::clear(size, c);
        storage::clear(size, s);
        Ok(Head {
            gm,
            radius,
            tide_system: TideSystem::Unknown,
            date: None,
            nmax,
        })
    }

    // C(n,m).
    pub fn c(self, c: &[f64], n: usize, m: usize) -> Result<f64, Refusal>
        ensures { result ≡ entry_answer self.nmax c.now n m }
    {
        storage::entry(self.nmax, c, n, m)
    }

    // S(n,m).
    pub fn s(self, s: &[f64], n: usize, m: usize) -> Result<f64, Refusal>
        ensures { result ≡ entry_answer self.nmax s.now n m }
    {
        storage::entry(self.nmax, s, n, m)
    }

    // Sets C(n,m) to cnm and S(n,m) to snm.
    pub fn set(
        self,
        c: &mut [f64],
        s: &mut [f64],
        n: usize,
        m: usize,
        cnm: f64,
        snm: f64,
    ) -> Result<(), Refusal>
        ensures value { result ≡ set_check self.nmax (length c.old) (length s.old) n m }
        ensures c_after { c.new ≡ after result (set c.old (idx n m) cnm) c.old }
        ensures s_after { s.new ≡ after result (set s.old (idx n m) snm) s.old }
    {
        let nmax = self.nmax;
        storage::tables_check(nmax, c.len(), s.len())?;
        let k = storage::place(nmax, n, m)?;
        c[k] = cnm;
        s[k] = snm;
        Ok(())
    }

    // The field up to degree `cut`, or all of it where the cut lies above its maximum degree.
    pub fn truncated(
        self,
        c: &[f64],
        s: &[f64],
        cut: usize,
        outc: &mut [f64],
        outs: &mut [f64],
    ) -> Result<Head, Refusal>
        ensures value { result ≡ value_if
            (outputs_check self.nmax (length c.now) (length s.now)
            (min cut self.nmax) (length outc.old) (length outs.old))
            (cut_head self cut) }
        ensures outc_after { outc.new ≡ after (outcome result)
            (fill 0 (from 0 c.now nan) (table_size (min cut self.nmax)) outc.old)
            outc.old }
        ensures outs_after { outs.new ≡ after (outcome result)
            (fill 0 (from 0 s.now nan) (table_size (min cut self.nmax)) outs.old)
            outs.old }
    {
        let nmax = self.nmax;
        let tide = self.tide_system;
        let day = self.date;
        let top = storage::smaller(cut, nmax);
        storage::outputs_check(nmax, c.len(), s.len(), top, outc.len(), outs.len())?;
        let size = storage::table_size(top);
        tables::copy(size, c, outc);
        tables::copy(size, s, outs);
        Ok(Head {
            gm: self.gm,
            radius: self.radius,
            tide_system: tide,
            date: day,
            nmax: top,
        })
    }

    // The same field with another GM and reference radius: C'(n,m) = C(n,m) (GM/GM') (R/R')^n, so that its potential is unchanged.
    pub fn rescaled(
        self,
        c: &[f64],
        s: &[f64],
        gm: f64,
        radius: f64,
        outc: &mut [f64],
        outs: &mut [f64],
    ) -> Result<Head, Refusal>
        ensures value { result ≡ value_if
            (outputs_check self.nmax (length c.now) (length s.now)
            self.nmax (length outc.old) (length outs.old))
            (rescaled_head self gm radius) }
        ensures outc_after { outc.new ≡ after (outcome result)
            (fill 0 (along (rescaled_entry (self.gm ⊘ gm) (self.radius ⊘ radius) c.now)) (table_size self.nmax) outc.old)
            outc.old }
        ensures outs_after { outs.new ≡ after (outcome result)
            (fill 0 (along (rescaled_entry (self.gm ⊘ gm) (self.radius ⊘ radius) s.now)) (table_size self.nmax) outs.old)
            outs.old }
    {
        let nmax = self.nmax;
        let tide = self.tide_system;
        let date = self.date;
        storage::outputs_check(nmax, c.len(), s.len(), nmax, outc.len(), outs.len())?;
        tables::rescale(nmax, self.gm / gm, self.radius / radius, c, s, outc, outs);
        Ok(Head {
            gm,
            radius,
            tide_system: tide,
            date,
            nmax,
        })
    }

    // The degree variances, the sums of C(n,m)² + S(n,m)² over m, for each n up to the maximum degree.
    pub fn degree_variances(self, c: &[f64], s: &[f64], out: &mut [f64]) -> Result<(), Refusal>
        ensures value { result ≡ variances_check self.nmax (length c.now) (length s.now) (length out.old) }
        ensures out_after { out.new ≡ after result
            (fill 0 (variance_of c.now s.now) (self.nmax + 1) out.old)
            out.old }
    {
        let nmax = self.nmax;
        storage::tables_check(nmax, c.len(), s.len())?;
        if out.len() <= nmax {
            return Err(Refusal::Space);
        }
        degrees::variances(nmax, c, s, out);
        Ok(())
    }

    // The degree amplitudes of a functional on the reference sphere: |factor(n)| times the root of the degree variance.
    pub fn degree_amplitudes(
        self,
        c: &[f64],
        s: &[f64],
        functional: Functional,
        love: &[f64],
        out: &mut [f64],
    ) -> Result<(), Refusal>
        ensures value { result ≡ amplitudes_check self.nmax (length c.now) (length s.now)
            functional (length love.now) (length out.old) }
        ensures out_after { out.new ≡ after result
            (fill 0 (amplitude_of functional love.now self.gm self.radius c.now s.now) (self.nmax + 1)
            out.old)
            out.old }
    {
        let nmax = self.nmax;
        storage::tables_check(nmax, c.len(), s.len())?;
        if functional.lacks_love(love.len(), nmax) {
            return Err(Refusal::Love);
        }
        if out.len() <= nmax {
            return Err(Refusal::Space);
        }
        degrees::amplitudes(functional, love, self.gm, self.radius, nmax, c, s, out);
        Ok(())
    }
}
