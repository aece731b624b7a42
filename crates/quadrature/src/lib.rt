// Gauss–Legendre quadrature.
#![tactic(auto)]

mod gauss;

ghost use Rattle.std.specs.Prelude.{◌≡◌, length};
ghost use Rattle.std.specs.Float.{nan};
ghost use Rattle.refusal.specs.Numbers.{after};
ghost use Rattle.storage.specs.Elements.{from};
ghost use Rattle.storage.specs.Fill.{fill};
ghost use Rattle.quadrature.specs.Gauss.{gauss_check, gauss_node, gauss_weight};

use refusal::Refusal;

// The most nodes of a Gauss–Legendre rule.
pub const MAX_NODES: usize = 2701;

// The n nodes and weights of Gauss–Legendre quadrature on [−1, 1]: Newton's method on P_n from lent guesses of its largest roots, n/2 rounded up
// and the largest first, with the weights 2/((1 − x²)P_n'²) and the symmetry about 0 imposed. From guesses that are close to the roots the nodes
// are meant to ascend and the rule to be exact for polynomials of degree up to 2n − 1 but for rounding; what is promised is the numbers of these
// steps, whatever the guesses are.
pub fn gauss_legendre(
    n: usize,
    guesses: &[f64],
    x: &mut [f64],
    w: &mut [f64],
) -> Result<(), Refusal>
    ensures value { result ≡ gauss_check n (length guesses.now) (length x.old) (length w.old) }
    ensures x_after { x.new ≡ after result (fill 0 (gauss_node (from 0 guesses.now nan) n) n x.old) x.old }
    ensures w_after { w.new ≡ after result (fill 0 (gauss_weight (from 0 guesses.now nan) n) n w.old) w.old }
{
    if n > MAX_NODES {
        return Err(Refusal::Size);
    }
    let half = (n + 1) / 2;
    if guesses.len() != half {
        return Err(Refusal::Length);
    }
    if x.len() < n {
        return Err(Refusal::Space);
    }
    if w.len() < n {
        return Err(Refusal::Space);
    }
    gauss::upper_half(n, half, guesses, x, w);
    gauss::mirror(n, half, x);
    gauss::mirror(n, half, w);
    gauss::lower_half(n, half, x);
    Ok(())
}
