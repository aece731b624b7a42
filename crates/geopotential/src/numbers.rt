// The calls of the crate number.
ghost use Rattle.std.specs.Prelude.{◌≡◌, cond};
ghost use Rattle.std.specs.Float.{binary64};
ghost use Rattle.std.specs.Float.Ieee.{of_bits, to_bits};
ghost use Rattle.number.specs.Root.{root_of};
ghost use Rattle.number.specs.Hypot.{hypot_of};
ghost use Rattle.number.specs.Sign.{signum_of, magnitude_of};
ghost use Rattle.number.specs.Power.{power_of};
ghost use Rattle.number.specs.Order.{ranks_before};

pub fn geopotential_root(x: f64) -> f64
    ensures { result ≡ root_of x }
{
    number::root(x)
}

// The root by way of a guess at it, which may be any number.
pub fn geopotential_root_near(x: f64, guess: f64) -> f64
    ensures { result ≡ root_of x }
{
    number::root_near(x, guess)
}

pub fn geopotential_hypot(x: f64, y: f64) -> f64
    ensures { result ≡ hypot_of x y }
{
    number::hypot(x, y)
}

pub fn geopotential_signum(x: f64) -> f64
    ensures { result ≡ signum_of x }
{
    number::signum(x)
}

pub fn geopotential_magnitude(x: f64) -> f64
    ensures { result ≡ magnitude_of x }
{
    number::magnitude(x)
}

pub fn geopotential_powi(base: f64, exponent: usize) -> f64
    ensures { result ≡ power_of base exponent }
{
    number::powi(base, exponent)
}

pub fn geopotential_number_of_bits(bits: u64) -> f64
    ensures { result ≡ of_bits binary64 bits }
{
    number::number_of_bits(bits)
}

pub fn geopotential_bits_of_number(x: f64) -> u64
    ensures { result ≡ to_bits binary64 x }
{
    number::bits_of_number(x)
}

// 1 where x comes before y in a falling ranking, else 0.
pub fn geopotential_ranks_before(x: f64, y: f64) -> u32
    ensures { result ≡ cond (ranks_before x y) 1 0 }
{
    if number::ranks_before(x, y) { 1 } else { 0 }
}
