// The calls of the crates legendre and quadrature.
ghost use Rattle.std.specs.Prelude.{◌≡◌, length};
ghost use Rattle.std.specs.Float.{nan};
ghost use Rattle.refusal.specs.Numbers.{after, value_after, result_number};
ghost use Rattle.storage.specs.Checks.{room_check, outputs_check, entry_answer};
ghost use Rattle.storage.specs.Elements.{from};
ghost use Rattle.storage.specs.Fill.{fill};
ghost use Rattle.storage.specs.Triangle.{table_size, along};
ghost use Rattle.recursion.specs.Recursion.{a_cell, b_cell, p_cell};
ghost use Rattle.derivative.specs.Derivative.{dp_cell};
ghost use Rattle.legendre.specs.Checks.{compute_check, mirror_check};
ghost use Rattle.legendre.specs.Grown.{grown};
ghost use Rattle.legendre.specs.Mirrored.{mirrored};
ghost use Rattle.quadrature.specs.Gauss.{gauss_check, gauss_node, gauss_weight};

use legendre::Latitude;

pub fn geopotential_legendre_new(nmax: usize, a: &mut [f64], b: &mut [f64]) -> u32
    ensures value { result ≡ result_number (room_check nmax (length a.old) (length b.old)) }
    ensures a_after { a.new ≡ after (room_check nmax (length a.old) (length b.old))
        (fill 0 (along a_cell) (table_size nmax) a.old) a.old }
    ensures b_after { b.new ≡ after (room_check nmax (length a.old) (length b.old))
        (fill 0 (along b_cell) (table_size nmax) b.old) b.old }
{
    refusal::result_number(legendre::new(nmax, a, b))
}

pub fn geopotential_legendre_grow(from: usize, nmax: usize, a: &mut [f64], b: &mut [f64]) -> u32
    ensures value { result ≡ result_number (room_check nmax (length a.old) (length b.old)) }
    ensures a_after { a.new ≡ after (room_check nmax (length a.old) (length b.old))
        (grown a_cell from nmax a.old) a.old }
    ensures b_after { b.new ≡ after (room_check nmax (length a.old) (length b.old))
        (grown b_cell from nmax b.old) b.old }
{
    refusal::result_number(legendre::grow(from, nmax, a, b))
}

pub fn geopotential_legendre_compute(
    nmax: usize,
    t: f64,
    u: f64,
    a: &[f64],
    b: &[f64],
    p: &mut [f64],
) -> u32
    ensures value { result ≡ result_number (compute_check nmax (length a.now) (length b.now) (length p.old)) }
    ensures p_after { p.new ≡ after (compute_check nmax (length a.now) (length b.now) (length p.old))
        (fill 0 (along (p_cell (from 0 a.now nan) (from 0 b.now nan) t u)) (table_size nmax) p.old)
        p.old }
{
    let latitude = Latitude { t, u };
    refusal::result_number(legendre::compute(nmax, latitude, a, b, p))
}

pub fn geopotential_legendre_compute_with_derivative(
    nmax: usize,
    t: f64,
    u: f64,
    a: &[f64],
    b: &[f64],
    p: &mut [f64],
    dp: &mut [f64],
) -> u32
    ensures value { result ≡ result_number (outputs_check nmax (length a.now) (length b.now) nmax (length p.old) (length dp.old)) }
    ensures p_after { p.new ≡ after
        (outputs_check nmax (length a.now) (length b.now) nmax (length p.old) (length dp.old))
        (fill 0 (along (p_cell (from 0 a.now nan) (from 0 b.now nan) t u)) (table_size nmax) p.old)
        p.old }
    ensures dp_after { dp.new ≡ after
        (outputs_check nmax (length a.now) (length b.now) nmax (length p.old) (length dp.old))
        (fill 0 (along (dp_cell (from 0 a.now nan) (from 0 b.now nan) t u)) (table_size nmax) dp.old)
        dp.old }
{
    let latitude = Latitude { t, u };
    refusal::result_number(legendre::compute_with_derivative(nmax, latitude, a, b, p, dp))
}

pub fn geopotential_legendre_mirror(nmax: usize, table: &mut [f64]) -> u32
    ensures value { result ≡ result_number (mirror_check nmax (length table.old)) }
    ensures table_after { table.new ≡ after (mirror_check nmax (length table.old))
        (fill 0 (along (mirrored 0 table.old)) (table_size nmax) table.old) table.old }
{
    refusal::result_number(legendre::mirror(nmax, table))
}

pub fn geopotential_legendre_mirror_derivative(nmax: usize, table: &mut [f64]) -> u32
    ensures value { result ≡ result_number (mirror_check nmax (length table.old)) }
    ensures table_after { table.new ≡ after (mirror_check nmax (length table.old))
        (fill 0 (along (mirrored 1 table.old)) (table_size nmax) table.old) table.old }
{
    refusal::result_number(legendre::mirror_derivative(nmax, table))
}

// One entry of a table of P, or of a table of its derivatives.
pub fn geopotential_legendre_entry(
    nmax: usize,
    table: &[f64],
    n: usize,
    m: usize,
    value: &mut f64,
) -> u32
    ensures value { result ≡ result_number (entry_answer nmax table.now n m) }
    ensures value_after { value.new ≡ value_after (entry_answer nmax table.now n m) value.old }
{
    refusal::hand_on(legendre::p(nmax, table, n, m), value)
}

pub fn geopotential_gauss_legendre(n: usize, guesses: &[f64], x: &mut [f64], w: &mut [f64]) -> u32
    ensures value { result ≡ result_number (gauss_check n (length guesses.now) (length x.old) (length w.old)) }
    ensures x_after { x.new ≡ after (gauss_check n (length guesses.now) (length x.old) (length w.old))
        (fill 0 (gauss_node (from 0 guesses.now nan) n) n x.old) x.old }
    ensures w_after { w.new ≡ after (gauss_check n (length guesses.now) (length x.old) (length w.old))
        (fill 0 (gauss_weight (from 0 guesses.now nan) n) n w.old) w.old }
{
    refusal::result_number(quadrature::gauss_legendre(n, guesses, x, w))
}
