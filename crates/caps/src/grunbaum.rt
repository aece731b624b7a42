// Grünbaum's tridiagonal matrix of one order, which commutes with the concentration matrix and has a simple spectrum.
ghost use Rattle.std.specs.Prelude.{◌≡◌, ℕ, ◌+◌, ◌*◌, ◌≤◌, ◌<◌, length};
ghost use Rattle.storage.specs.Filled.{Filled};
ghost use Rattle.storage.specs.Rectangle.{by_rows};
ghost use Rattle.caps.specs.Caps.{grunbaum_diagonal, grunbaum_beside, grunbaum_cell};

fn diagonal(m: usize, i: usize, x0: f64) -> f64
    requires { m + i ≤ 180 }
    ensures { result ≡ grunbaum_diagonal m x0 i }
{
    let l = (m + i) as f64;
    -l * (l + 1.0) * x0
}

fn beside(m: usize, i: usize, lmax: usize) -> f64
    requires fact_1 { m + i ≤ 180 }
    requires fact_2 { lmax ≤ 180 }
    ensures { result ≡ grunbaum_beside lmax m i }
{
    let l = (m + i) as f64;
    let top = lmax as f64;
    let mf = m as f64;
    let ratio = ((l + 1.0) * (l + 1.0) - mf * mf) / ((2.0 * l + 1.0) * (2.0 * l + 3.0));
    (l * (l + 2.0) - top * (top + 2.0)) * number::root(ratio)
}

// The number at row i and column j.
fn cell(m: usize, i: usize, j: usize, lmax: usize, x0: f64) -> f64
    requires fact_1 { m + i ≤ 180 }
    requires fact_2 { m + j ≤ 180 }
    requires fact_3 { lmax ≤ 180 }
    ensures { result ≡ grunbaum_cell lmax m x0 i j }
{
    if i == j {
        return diagonal(m, i, x0);
    }
    if i + 1 == j {
        return beside(m, i, lmax);
    }
    if j + 1 == i {
        return beside(m, j, lmax);
    }
    0.0
}

// Row i, from index `at` on.
fn row(m: usize, k: usize, i: usize, at: usize, lmax: usize, x0: f64, g: &mut [f64])
    requires fact_1 { m + k ≤ 181 }
    requires fact_2 { i < k }
    requires fact_3 { lmax ≤ 180 }
    requires fact_4 { at + k ≤ length g.old }
    ensures { Filled at (grunbaum_cell lmax m x0 i) k g.old g.new }
{
    for j in 0..k {
        g[at + j] = cell(m, i, j, lmax, x0);
    }
}

// The k by k matrix of order m.
pub fn grunbaum(m: usize, k: usize, lmax: usize, x0: f64, g: &mut [f64])
    requires fact_1 { m + k ≤ 181 }
    requires fact_2 { lmax ≤ 180 }
    requires fact_3 { k * k ≤ length g.old }
    ensures { Filled 0 (by_rows (grunbaum_cell lmax m x0) k) (k * k) g.old g.new }
{
    let mut at = 0;
    for i in 0..k {
        row(m, k, i, at, lmax, x0, g);
        at = at + k;
    }
}
