// The calls of the crate number.
ghost use Rattle.std.specs.Prelude.{◌≡◌, cond};
ghost use Rattle.std.specs.Float.{binary64};
ghost use Rattle.std.specs.Float.Ieee.{of_bits, to_bits};
ghost use Rattle.number.specs.Root.{root_of};
ghost use Rattle.number.specs.Hypot.{hypot_of};
ghost use Rattle.number.specs.Sign.{signum_of, magnitude_of};
ghost use Rattle.number.specs.Power.{power_of};
ghost use Rattle.number.specs.Order.{ranks_before};

#[unsafe(no_mangle)]
pub extern "C" fn geopotential_root(x: f64) -> f64
    ensures { result ≡ root_of x }
{
    geopotential::numbers::geopotential_root(x)
}

// The root by way of a guess at it, which may be any number.
#[unsafe(no_mangle)]
pub extern "C" fn geopotential_root_near(x: f64, guess: f64) -> f64
    ensures { result ≡ root_of x }
{
    geopotential::numbers::geopotential_root_near(x, guess)
}

#[unsafe(no_mangle)]
pub extern "C" fn geopotential_hypot(x: f64, y: f64) -> f64
    ensures { result ≡ hypot_of x y }
{
    geopotential::numbers::geopotential_hypot(x, y)
}

#[unsafe(no_mangle)]
pub extern "C" fn geopotential_signum(x: f64) -> f64
    ensures { result ≡ signum_of x }
{
    geopotential::numbers::geopotential_signum(x)
}

#[unsafe(no_mangle)]
pub extern "C" fn geopotential_magnitude(x: f64) -> f64
    ensures { result ≡ magnitude_of x }
{
    geopotential::numbers::geopotential_magnitude(x)
}

#[unsafe(no_mangle)]
pub extern "C" fn geopotential_powi(base: f64, exponent: usize) -> f64
    ensures { result ≡ power_of base exponent }
{
    geopotential::numbers::geopotential_powi(base, exponent)
}

#[unsafe(no_mangle)]
pub extern "C" fn geopotential_number_of_bits(bits: u64) -> f64
    ensures { result ≡ of_bits binary64 bits }
{
    geopotential::numbers::geopotential_number_of_bits(bits)
}

#[unsafe(no_mangle)]
pub extern "C" fn geopotential_bits_of_number(x: f64) -> u64
    ensures { result ≡ to_bits binary64 x }
{
    geopotential::numbers::geopotential_bits_of_number(x)
}

// 1 where x comes before y in a falling ranking, else 0.
#[unsafe(no_mangle)]
pub extern "C" fn geopotential_ranks_before(x: f64, y: f64) -> u32
    ensures { result ≡ cond (ranks_before x y) 1 0 }
{
    geopotential::numbers::geopotential_ranks_before(x, y)
}
