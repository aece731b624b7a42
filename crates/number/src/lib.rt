// What the library needs of numbers beyond the four operations: square root, hypot, sign, powers, the ranking order and bit patterns.
// Every call is total and equal to a definition in specs/.
#![tactic(auto)]

mod root_digits;
mod root_estimate;

ghost use Rattle.std.specs.Prelude.{◌≡◌, ℕ, ◌+◌, ◌*◌, ◌^◌, ◌<◌, ◌≤◌, false, get_or};
ghost use Rattle.std.specs.Float.{binary64, nan};
ghost use Rattle.std.specs.Float.Ieee.{of_bits, to_bits, lt};
ghost use Rattle.number.specs.Root.{root_of_units, root_of};
ghost use Rattle.number.specs.Sign.{negative, magnitude_of, signum_of};
ghost use Rattle.number.specs.Hypot.{long_of, hypot_of};
ghost use Rattle.number.specs.Power.{power_of, times_if_odd, square_unless_zero};
ghost use Rattle.number.specs.Order.{ranks_before};

// The root of b * 2^-1074.
fn subnormal(b: u64) -> f64
    requires fact_1 { 0 < b }
    requires fact_2 { b < 2 ^ 52 }
    ensures { result ≡ root_of_units binary64 b }
{
    let mut m = b;
    let mut z = 1022u64;
    // by what m has become, not by a count
    while m < 4503599627370496 {
        m = m * 2;
        z = z - 1;
    }
    root_digits::scaled(z * 4503599627370496 + (m - 4503599627370496))
}

// The root of what is no more than the largest subnormal value, or NaN.
fn root_below_normal(x: f64) -> f64
    requires { lt (of_bits binary64 0x000f_ffff_ffff_ffff) x ≡ false }
    ensures { result ≡ root_of x }
{
    if x > 0.0 {
        subnormal(f64::to_bits(x))
    } else if x == 0.0 {
        x
    } else {
        0.0 / 0.0
    }
}

// The square root of x, rounded once.
pub fn root(x: f64) -> f64
    ensures { result ≡ root_of x }
{
    // above the largest subnormal value
    if x > 2.225073858507201e-308 {
        let b = f64::to_bits(x);
        if b < 0x7ff0_0000_0000_0000 {
            root_digits::scaled(b + 4598175219545276416)
        } else {
            x
        }
    } else {
        root_below_normal(x)
    }
}

// The square root of x, rounded once, by way of a guess at it. Any guess gives the same answer; a guess within a unit or so of the last
// digit saves the estimate. Only the guess's digits are used, with the exponent that the root has.
pub fn root_near(x: f64, guess: f64) -> f64
    ensures { result ≡ root_of x }
{
    if x > 2.225073858507201e-308 {
        let b = f64::to_bits(x);
        if b < 0x7ff0_0000_0000_0000 {
            if guess > 0.0 {
                let v = b + 4598175219545276416;
                let q = f64::to_bits(guess) % 4503599627370496 + 4503599627370496;
                if let Some(digits) = root_digits::corrected(root_digits::radicand(v), q) {
                    return f64::from_bits(v / 9007199254740992 * 4503599627370496 + digits);
                }
            }
        }
    }
    root(x)
}

// The number that a bit pattern stands for. Every NaN's pattern gives the one NaN.
pub fn number_of_bits(bits: u64) -> f64
    ensures { result ≡ of_bits binary64 bits }
{
    if 0x7ff0_0000_0000_0000 < bits % 0x8000_0000_0000_0000 {
        0.0 / 0.0
    } else {
        f64::from_bits(bits)
    }
}

// The bit pattern of a number. A NaN's is 7ff8000000000000.
pub fn bits_of_number(x: f64) -> u64
    ensures { result ≡ to_bits binary64 x }
{
    if x != x {
        0x7ff8_0000_0000_0000
    } else {
        f64::to_bits(x)
    }
}

// Rust's abs: the number without its sign.
pub fn magnitude(x: f64) -> f64
    ensures { result ≡ magnitude_of x }
{
    if x != x {
        x
    } else {
        f64::from_bits(f64::to_bits(x) % 0x8000_0000_0000_0000)
    }
}

// Whether the sign bit is set; false for NaN.
fn is_negative(x: f64) -> bool
    ensures { result ≡ negative x }
{
    if x != x {
        false
    } else {
        0x8000_0000_0000_0000 <= f64::to_bits(x)
    }
}

// 1 or -1 by the sign bit, NaN for NaN.
pub fn signum(x: f64) -> f64
    ensures { result ≡ signum_of x }
{
    if x != x {
        x
    } else if is_negative(x) {
        -1.0
    } else {
        1.0
    }
}

// Of the larger of two sizes, g, and the smaller, h.
fn long(g: f64, h: f64) -> f64
    ensures { result ≡ long_of g h }
{
    if g == 0.0 {
        return 0.0;
    }
    let t = h / g;
    g * root(1.0 + t * t)
}

// The length of the vector (x, y).
pub fn hypot(x: f64, y: f64) -> f64
    ensures { result ≡ hypot_of x y }
{
    let a = magnitude(x);
    let b = magnitude(y);
    let infinity = 1.0 / 0.0;
    if a == infinity {
        return a;
    }
    if b == infinity {
        return b;
    }
    if x != x {
        return x;
    }
    if y != y {
        return y;
    }
    if a < b {
        return long(b, a);
    }
    long(a, b)
}

// r times b where e is odd, else r times 1, which is r: by an index, since a branch on the bits of an exponent is guessed wrong half the time.
fn times_if_odd(e: usize, r: f64, b: f64) -> f64
    ensures { result ≡ times_if_odd e r b }
{
    let factors = [1.0, b];
    r * factors[e % 2]
}

fn square_unless_zero(e: usize, b: f64) -> f64
    ensures { result ≡ square_unless_zero e b }
{
    if e == 0 { b } else { b * b }
}

// base to the exponent, by squaring.
pub fn powi(base: f64, exponent: usize) -> f64
    ensures { result ≡ power_of base exponent }
{
    let mut r = 1.0;
    let mut b = base;
    let mut e = exponent;
    // by what is left of the exponent, not by a count
    while e > 0 {
        r = times_if_odd(e, r, b);
        e = e / 2;
        b = square_unless_zero(e, b);
    }
    r
}

// Whether x comes before y in a falling ranking: NaN first, then plus infinity and so on down, +0 before -0.
pub fn ranks_before(x: f64, y: f64) -> bool
    ensures { result ≡ ranks_before x y }
{
    if y < x {
        return true;
    }
    if y == x {
        // they are the same number, or the two zeros
        if is_negative(x) {
            return false;
        }
        return is_negative(y);
    }
    if x != x {
        return y == y;
    }
    false
}

// The element of a list at an index, and NaN past the last.
pub fn element_or_nan(list: &[f64], k: usize) -> f64
    ensures { result ≡ get_or list.now k nan }
{
    if k < list.len() { list[k] } else { 0.0 / 0.0 }
}
