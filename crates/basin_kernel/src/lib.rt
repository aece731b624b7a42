// The kernel of a basin (Swenson & Wahr 2002), from nodes in colatitude that the caller lends: what a field is averaged with over the basin. It is the
// first row of the basin's concentration matrix.
#![tactic(auto)]

mod nodes;
mod rows;

ghost use Rattle.std.specs.Prelude.{◌≡◌, ◌*◌, length};
ghost use Rattle.refusal.specs.Numbers.{after, behind, outcome, value_if};
ghost use Rattle.number.specs.Float64.{one64};
ghost use Rattle.storage.specs.Fill.{fill};
ghost use Rattle.storage.specs.Triangle.{table_size, along};
ghost use Rattle.coefficients.specs.Values.{zero_head};
ghost use Rattle.basin_kernel.specs.Kernel.{kernel_c, kernel_s, kernel_check};

use coefficients::Head;
use refusal::Refusal;

// SIZE and LENGTH of the lists of the nodes, then SPACE of the working list and the kernel's tables.
fn kernel_check(
    lmax: usize,
    nodes: usize,
    weights: usize,
    latitudes: usize,
    marks: usize,
    s: usize,
    c: usize,
    work: usize,
    kc: usize,
    ks: usize,
) -> Result<(), Refusal>
    ensures { result ≡ kernel_check lmax nodes weights latitudes marks s c work kc ks }
{
    regions::nodes_check_to(
        storage::MAX_DEGREE,
        lmax,
        nodes,
        weights,
        latitudes,
        marks,
        s,
        c,
    )?;
    let total = storage::table_size(lmax);
    if work < 3 * total {
        return Err(Refusal::Space);
    }
    if kc < total {
        return Err(Refusal::Space);
    }
    if ks < total {
        return Err(Refusal::Space);
    }
    Ok(())
}

// The kernel of a basin to degree lmax, as the coefficients of a field with unit gm and radius; its first number is the basin's share of the sphere. For
// each node there are lent its weight, the sine and the cosine of its latitude, a mark (0: the node is skipped) and the integrals s and c of its
// longitudes, 2 lmax + 1 numbers each, of which the first lmax + 1 are read. An average with it is within demand 3's margin where the first number is at
// most 1 in size (`drawn_average`).
pub fn basin_kernel(
    lmax: usize,
    nodes: usize,
    weights: &[f64],
    latitudes: &[f64],
    marks: &[u8],
    s: &[f64],
    c: &[f64],
    work: &mut [f64],
    kc: &mut [f64],
    ks: &mut [f64],
) -> Result<Head, Refusal>
    ensures value { result ≡ value_if (kernel_check lmax nodes (length weights.now) (length latitudes.now)
        (length marks.now) (length s.now) (length c.now) (length work.old) (length kc.old)
        (length ks.old)) (zero_head one64 one64 lmax) }
    ensures kc_after { kc.new ≡ after (outcome result)
        (fill 0 (along (kernel_c lmax weights.now latitudes.now marks.now s.now c.now nodes))
        (table_size lmax) kc.old)
        kc.old }
    ensures ks_after { ks.new ≡ after (outcome result)
        (fill 0 (along (kernel_s lmax weights.now latitudes.now marks.now s.now c.now nodes))
        (table_size lmax) ks.old)
        ks.old }
    ensures work_unchanged_1 { behind (outcome result) (3 * table_size lmax) work.new ≡ behind (outcome result) (3 * table_size lmax) work.old }
    ensures work_unchanged_2 { length work.new ≡ length work.old }
{
    kernel_check(
        lmax,
        nodes,
        weights.len(),
        latitudes.len(),
        marks.len(),
        s.len(),
        c.len(),
        work.len(),
        kc.len(),
        ks.len(),
    )?;
    let total = storage::table_size(lmax);
    // kc lends the room for the tables' guesses before it is cleared: an array would take 43 KB of stack
    recursion::tables_by(lmax, total, &mut kc[..total], work);
    let made = Head::zeros(1.0, 1.0, lmax, kc, ks);
    nodes::add_all(
        lmax, total, nodes, weights, latitudes, marks, s, c, work, kc, ks,
    );
    made
}
