// The products of two longitude factors, by a node's integrals of cos fλ, in s, and of sin fλ, in c: f = 0 to 2L, from index `at` on.
ghost use Rattle.std.specs.Prelude.{◌≡◌, ◌+◌, ◌*◌, ◌≤◌, ◌<◌, length};
ghost use Rattle.std.specs.Float.{nan};
ghost use Rattle.storage.specs.Elements.{from};
ghost use Rattle.storage.specs.Filled.{Filled};
ghost use Rattle.storage.specs.Rectangle.{by_rows};
ghost use Rattle.region_nodes.specs.Regions.{even_at, odd_at, longitude_product, integrals};
ghost use Rattle.region_nodes.specs.Nodes.{product_in};

use crate::basis::{order_in, sine_in};

// s at the difference of two orders, which is even in it.
fn even(at: usize, a: usize, b: usize, s: &[f64]) -> f64
    requires { at + (a + b) < length s.now }
    ensures { result ≡ even_at (from at s.now nan) a b }
{
    if a < b {
        return s[at + (b - a)];
    }
    s[at + (a - b)]
}

// c at the difference of two orders, which is odd in it.
fn odd(at: usize, a: usize, b: usize, c: &[f64]) -> f64
    requires { at + (a + b) < length c.now }
    ensures { result ≡ odd_at (from at c.now nan) a b }
{
    if a < b {
        return -c[at + (b - a)];
    }
    c[at + (a - b)]
}

// The integral of the product of two factors, of the orders a and b, each a cosine or a sine.
fn longitude_product(at: usize, a: usize, sa: bool, b: usize, sb: bool, s: &[f64], c: &[f64]) -> f64
    requires fact_1 { at + (a + b) < length s.now }
    requires fact_2 { at + (a + b) < length c.now }
    ensures { result ≡ longitude_product (from at s.now nan) (from at c.now nan) a sa b sb }
{
    let sum = at + (a + b);
    if sa {
        if sb {
            return 0.5 * (even(at, a, b, s) - s[sum]);
        }
        return 0.5 * (c[sum] + odd(at, a, b, c));
    }
    if sb {
        return 0.5 * (c[sum] - odd(at, a, b, c));
    }
    0.5 * (even(at, a, b, s) + s[sum])
}

// The products of the factor at place a of a degree with all factors, from index `to` on.
fn product_row(
    lmax: usize,
    at: usize,
    a: usize,
    to: usize,
    s: &[f64],
    c: &[f64],
    products: &mut [f64],
)
    requires fact_1 { lmax ≤ 21 }
    requires fact_2 { a ≤ lmax + lmax }
    requires fact_3 { at + (lmax + lmax) < length s.now }
    requires fact_4 { at + (lmax + lmax) < length c.now }
    requires fact_5 { to + (lmax + lmax) < length products.old }
    ensures { Filled to (product_in (from at s.now nan) (from at c.now nan) a) (lmax + lmax + 1)
        products.old products.new }
{
    let count = lmax + lmax + 1;
    let order = order_in(a);
    let sine = sine_in(a);
    for b in 0..count {
        products[to + b] = longitude_product(at, order, sine, order_in(b), sine_in(b), s, c);
    }
}

// The products of all factors with all factors.
pub fn products(lmax: usize, at: usize, s: &[f64], c: &[f64], products: &mut [f64])
    requires fact_1 { lmax ≤ 21 }
    requires fact_2 { at + (lmax + lmax) < length s.now }
    requires fact_3 { at + (lmax + lmax) < length c.now }
    requires fact_4 { integrals lmax * integrals lmax ≤ length products.old }
    ensures { Filled 0 (by_rows (product_in (from at s.now nan) (from at c.now nan)) (integrals lmax))
        (integrals lmax * integrals lmax) products.old products.new }
{
    let count = lmax + lmax + 1;
    for a in 0..count {
        product_row(lmax, at, a, matrix::row(count, a), s, c, products);
    }
}
