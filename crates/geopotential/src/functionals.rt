// The calls of the crate functional.
ghost use Rattle.std.specs.Prelude.{◌≡◌};
ghost use Rattle.geopotential.specs.Functionals.{factor_number, factor_after};

use functional::Functional;

// The factor of degree n, through `value`. A functional above 5 is refused by 255, before every check.
pub fn geopotential_factor(
    functional: u32,
    love: &[f64],
    n: usize,
    gm: f64,
    radius: f64,
    r: f64,
    value: &mut f64,
) -> u32
    ensures value { result ≡ factor_number functional love.now n gm radius r }
    ensures value_after { value.new ≡ factor_after functional love.now n gm radius r value.old }
{
    let Ok(f) = Functional::try_from(functional) else {
        return 255;
    };
    refusal::hand_on(f.factor(love, n, gm, radius, r), value)
}
