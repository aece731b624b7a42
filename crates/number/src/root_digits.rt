// The root of a number above zero by its digits: the whole number q nearest to the root of a * 2^52, for an a of 53 or 54 digits.
//
// An estimate, of which nothing is assumed; then an exact check of it by what a * 2^52 has over the square of q, which also corrects it
// by one unit; and where that fails, which no input is known to do, a bisection. That is called once and last, so that it costs the usual
// way nothing. The same check serves a guess that the caller lends.
ghost use Rattle.std.specs.Prelude.{◌≡◌, ℕ, ◌+◌, ◌*◌, ◌/◌, ◌%◌, ◌^◌, ◌<◌, ◌≤◌, IfSome, ltb};
ghost use Rattle.std.specs.Float.{binary64};
ghost use Rattle.number.specs.Root.{root_of_units};
ghost use Rattle.number.specs.NearestRoot.{NearestRoot, ScaledRoot};

use crate::root_estimate;

// Whether q - 1/2 is below the root of a * 2^52. The square of q is `high` * 2^52 + `low`.
fn below_root(a: u64, q: u64) -> bool
    requires fact_1 { a < 2 ^ 54 }
    requires fact_2 { q ≤ 2 ^ 54 }
    ensures { result ≡ ltb (q * q) (a * 2 ^ 52 + q) }
{
    let h = q / 67108864;
    let l = q % 67108864;
    let m = 2 * h * l;
    let high = h * h + m / 67108864;
    let low = (m % 67108864) * 67108864 + l * l;
    high + (low + 18014398509481984 - q) / 4503599627370496 < a + 4
}

// By halving an interval that holds the root.
fn bisect(a: u64) -> u64
    requires fact_1 { 2 ^ 52 ≤ a }
    requires fact_2 { a + 2 ≤ 2 ^ 54 }
    ensures { NearestRoot a result }
{
    let mut lo = 4503599627370496u64;
    let mut hi = 9007199254740992u64;
    // by what is left of the interval, not by a count
    while hi - lo > 1 {
        let mid = (lo + hi) / 2;
        if below_root(a, mid) {
            lo = mid;
        } else {
            hi = mid;
        }
    }
    lo
}

// The root by bisection.
fn bisected(a: u64, k: u64) -> f64
    requires fact_1 { 2 ^ 52 ≤ a }
    requires fact_2 { a + 2 ≤ 2 ^ 54 }
    requires fact_3 { k ≤ 2045 }
    ensures { ScaledRoot a k result }
{
    f64::from_bits(k * 4503599627370496 + bisect(a))
}

// The digits nearest to the root, from digits q that are right or one off. With q = h * 2^26 + l, what a * 2^52 has over the square of q is
// ((a - h^2) * 2^26 - 2 * h * l) * 2^26 - l^2, which is worked out from the left, so that it comes out with 2^56 added: `remainder`. It shows
// whether q is right, or one off, which is corrected without a branch, or further off, in which case there is no answer.
pub fn corrected(a: u64, q: u64) -> Option<u64>
    requires fact_1 { 2 ^ 52 ≤ a }
    requires fact_2 { a + 2 ≤ 2 ^ 54 }
    requires fact_3 { q < 2 ^ 53 }
    ensures { IfSome result (NearestRoot a) }
{
    let h = q / 67108864;
    let l = q % 67108864;
    let hh = h * h;
    if hh <= a + 8 {
        let d = a + 8 - hh;
        if d < 1073741824 {
            let e = d * 33554432 + 268435456;
            let hl = h * l;
            if hl <= e {
                let f = e - hl;
                if f < 1073741824 {
                    let g = f * 134217728;
                    let ll = l * l;
                    if ll <= g {
                        let remainder = g - ll;
                        let high = 72057594037927936 + q;
                        if remainder <= high + 2 * q {
                            if 72057594037927938 < remainder + 3 * q {
                                let up = u64::from(high < remainder);
                                let not_down = u64::from(72057594037927936 < remainder + q);
                                return Some(q + up + not_down - 1);
                            }
                        }
                    }
                }
            }
        }
    }
    None
}

// The root from an estimate y of it in [1, 2).
fn correct(a: u64, k: u64, y: f64) -> f64
    requires fact_1 { 2 ^ 52 ≤ a }
    requires fact_2 { a + 2 ≤ 2 ^ 54 }
    requires fact_3 { k ≤ 2045 }
    ensures { ScaledRoot a k result }
{
    if y > 0.5 {
        if let Some(digits) = corrected(a, f64::to_bits(y) % 9007199254740992) {
            return f64::from_bits(k * 4503599627370496 + digits);
        }
    }
    bisected(a, k)
}

// For a number m of 53 digits: what is to be added to w for m, where w is m without its first digit, and for 2 * m, where w is m.
fn addend(w: u64) -> u64
    requires { w < 2 ^ 53 }
    ensures result_value { w + result ≡ (2 ^ 52 + w % 2 ^ 52) * (1 + w / 2 ^ 52) }
    ensures lower_bound_1 { 2 ^ 52 ≤ result }
    ensures lower_bound_2 { result < 2 ^ 53 }
{
    if w < 4503599627370496 {
        4503599627370496
    } else {
        w
    }
}

// The a of `scaled`: m where z is even, and 2 * m where it is odd.
pub fn radicand(v: u64) -> u64
    ensures value { result ≡ (2 ^ 52 + v % 2 ^ 52) * (1 + v / 2 ^ 52 % 2) }
    ensures lower_bound_1 { 2 ^ 52 ≤ result }
    ensures lower_bound_2 { result + 2 ≤ 2 ^ 54 }
{
    let w = v % 9007199254740992;
    w + addend(w)
}

// The root of m * 2^52 * 2^z / 2^2148, where v is z * 2^52 and m without its first digit.
pub fn scaled(v: u64) -> f64
    requires { v < 3068 * 2 ^ 52 }
    ensures { (n : ℕ) → n * 2 ^ 1074 ≡ (2 ^ 52 + v % 2 ^ 52) * 2 ^ 52 * 2 ^ (v / 2 ^ 52) → result ≡ root_of_units binary64 n }
{
    correct(
        radicand(v),
        v / 9007199254740992,
        root_estimate::estimate(v % 9007199254740992),
    )
}
