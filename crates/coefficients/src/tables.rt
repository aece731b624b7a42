// Tables of coefficients along their storage: copied, and rescaled degree by degree.
ghost use Rattle.std.specs.Prelude.{◌≡◌, ℕ, ◌+◌, ◌≤◌, ◌<◌, length};
ghost use Rattle.std.specs.Float.{nan};
ghost use Rattle.storage.specs.Elements.{from};
ghost use Rattle.storage.specs.Filled.{Filled};
ghost use Rattle.storage.specs.Triangle.{table_size, along};
ghost use Rattle.coefficients.specs.Values.{scaled_from, rescaled_entry};

// The first `size` numbers of a list.
pub fn copy(size: usize, list: &[f64], out: &mut [f64])
    requires fact_1 { size ≤ length list.now }
    requires fact_2 { size ≤ length out.old }
    ensures { Filled 0 (from 0 list.now nan) size out.old out.new }
{
    for k in 0..size {
        out[k] = list[k];
    }
}

// The row of degree n, which starts at index `at`, times f.
fn scale_row(at: usize, n: usize, f: f64, list: &[f64], out: &mut [f64])
    requires fact_1 { at + n < length list.now }
    requires fact_2 { at + n < length out.old }
    ensures { Filled at (scaled_from f at list.now) (n + 1) out.old out.new }
{
    let count = n + 1;
    for m in 0..count {
        out[at + m] = list[at + m] * f;
    }
}

// Each row n of the two tables times q t^n.
pub fn rescale(
    nmax: usize,
    q: f64,
    t: f64,
    c: &[f64],
    s: &[f64],
    outc: &mut [f64],
    outs: &mut [f64],
)
    requires fact_1 { nmax ≤ 2700 }
    requires fact_2 { table_size nmax ≤ length c.now }
    requires fact_3 { table_size nmax ≤ length s.now }
    requires fact_4 { table_size nmax ≤ length outc.old }
    requires fact_5 { table_size nmax ≤ length outs.old }
    ensures filled { Filled 0 (along (rescaled_entry q t c.now)) (table_size nmax) outc.old outc.new }
    ensures filled_2 { Filled 0 (along (rescaled_entry q t s.now)) (table_size nmax) outs.old outs.new }
{
    let mut at = 0;
    for n in 0..nmax + 1 {
        let f = q * number::powi(t, n);
        scale_row(at, n, f, c, outc);
        scale_row(at, n, f, s, outs);
        at = at + n + 1;
    }
}
