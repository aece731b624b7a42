// The functionals of a gravity field: for each, the factor that multiplies the harmonic sum of a degree.
#![tactic(auto)]

ghost use Rattle.std.specs.Prelude.{◌≡◌, ℕ, ◌+◌, ◌≤◌, ◌<◌, length};
ghost use Rattle.storage.specs.Filled.{Filled};
ghost use Rattle.functional.specs.Factor.{factor_of, lacks_love, factor_answer};
ghost use Rattle.functional.specs.Numbers.{Decodes};

use refusal::Refusal;

// Mean density of the Earth used by Wahr et al. (1998), kg/m³.
pub const RHO_EARTH: f64 = 5517.0;

// Density of fresh water, kg/m³.
pub const RHO_WATER: f64 = 1000.0;

// A quantity that is a multiple, degree by degree, of the harmonic sum of P(n,m) (C(n,m) cos mλ + S(n,m) sin mλ) over m, in spherical
// approximation. The load Love numbers of WaterHeight are lent beside it.
#[derive(Clone, Copy, Debug, PartialEq, Eq)]
pub enum Functional {
    // gravitational potential V, m²/s²
    Potential,
    // geoid height by Bruns' formula with γ = GM/r², m
    GeoidHeight,
    // gravity disturbance −∂T/∂r, m/s²
    GravityDisturbance,
    // gravity anomaly −∂T/∂r − 2T/r, m/s²
    GravityAnomaly,
    // radial gravity gradient ∂²T/∂r², s⁻²
    RadialGradient,
    // equivalent water height on the reference sphere, m
    WaterHeight,
}

// A number above 5, which is no functional's.
#[derive(Clone, Copy, Debug, PartialEq, Eq)]
pub struct NoFunctional(pub u32);

// The functional of a number, in the order of the enum.
impl TryFrom<u32> for Functional {
    type Error = NoFunctional;

    ghost try_from_gives = { Decodes };

    fn try_from(number: u32) -> Result<Functional, NoFunctional> {
        match number {
            0 => Ok(Functional::Potential),
            1 => Ok(Functional::GeoidHeight),
            2 => Ok(Functional::GravityDisturbance),
            3 => Ok(Functional::GravityAnomaly),
            4 => Ok(Functional::RadialGradient),
            5 => Ok(Functional::WaterHeight),
            _ => Err(NoFunctional(number)),
        }
    }
}

impl Functional {
    // The factor of degree n, for loops that have made the checks of `factor` before them: a Love number that the list has not is NaN.
    pub fn degree_factor(self, love: &[f64], n: usize, gm: f64, radius: f64, r: f64) -> f64
        requires { n ≤ 2700 }
        ensures { result ≡ factor_of self love.now gm radius r n }
    {
        let nf = n as f64;
        match self {
            Functional::Potential => gm / r * number::powi(radius / r, n),
            Functional::GeoidHeight => r * number::powi(radius / r, n),
            Functional::GravityDisturbance => gm / (r * r)
                * (nf + 1.0)
                * number::powi(radius / r, n),
            Functional::GravityAnomaly => gm / (r * r) * (nf - 1.0) * number::powi(radius / r, n),
            Functional::RadialGradient => {
                gm / (r * r * r) * (nf + 1.0) * (nf + 2.0) * number::powi(radius / r, n)
            }
            Functional::WaterHeight => {
                radius * RHO_EARTH / (3.0 * RHO_WATER) * (2.0 * nf + 1.0)
                    / (1.0 + number::element_or_nan(love, n))
            }
        }
    }

    // The factors of the degrees up to nmax.
    pub fn factors(self, love: &[f64], nmax: usize, gm: f64, radius: f64, r: f64, out: &mut [f64])
        requires fact_1 { nmax ≤ 2700 }
        requires fact_2 { nmax < length out.old }
        ensures { Filled 0 (factor_of self love.now gm radius r) (nmax + 1) out.old out.new }
    {
        for n in 0..nmax + 1 {
            out[n] = self.degree_factor(love, n, gm, radius, r);
        }
    }

    // Whether a list of so many Love numbers has none for degree n, and the functional wants one.
    pub fn lacks_love(self, numbers: usize, n: usize) -> bool
        ensures { result ≡ lacks_love self numbers n }
    {
        match self {
            Functional::WaterHeight => numbers <= n,
            Functional::Potential => false,
            Functional::GeoidHeight => false,
            Functional::GravityDisturbance => false,
            Functional::GravityAnomaly => false,
            Functional::RadialGradient => false,
        }
    }

    // The factor of degree n at radius r, for a field with the given gm and reference radius.
    pub fn factor(
        self,
        love: &[f64],
        n: usize,
        gm: f64,
        radius: f64,
        r: f64,
    ) -> Result<f64, Refusal>
        ensures { result ≡ factor_answer self love.now n gm radius r }
    {
        if n > storage::MAX_DEGREE {
            return Err(Refusal::Size);
        }
        if self.lacks_love(love.len(), n) {
            return Err(Refusal::Love);
        }
        Ok(self.degree_factor(love, n, gm, radius, r))
    }
}
