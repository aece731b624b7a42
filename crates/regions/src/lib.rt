// The concentration matrix of a region of any shape (Simons, Dahlen & Wieczorek 2006), from nodes in colatitude that the caller lends.
#![tactic(auto)]

mod nodes;
mod sums;
pub mod whole;

ghost use Rattle.std.specs.Prelude.{◌≡◌, ◌*◌, ◌≤◌, length};
ghost use Rattle.refusal.specs.Numbers.{after};
ghost use Rattle.storage.specs.Fill.{fill};
ghost use Rattle.storage.specs.Rectangle.{by_rows};
ghost use Rattle.region_nodes.specs.Basis.{basis_size};
ghost use Rattle.region_nodes.specs.Regions.{region_cell};
ghost use Rattle.regions.specs.Checks.{nodes_check_to, nodes_check, matrix_check, Symmetric};

use refusal::Refusal;

// The highest degree of a region's functions, and the most nodes.
pub const MAX_REGION: usize = 21;

pub const MAX_REGION_NODES: usize = 65535;

// SIZE and LENGTH of the lists of the nodes, for degrees up to `most`.
pub fn nodes_check_to(
    most: usize,
    lmax: usize,
    nodes: usize,
    weights: usize,
    latitudes: usize,
    marks: usize,
    s: usize,
    c: usize,
) -> Result<(), Refusal>
    requires { most ≤ 2700 }
    ensures { result ≡ nodes_check_to most lmax nodes weights latitudes marks s c }
{
    if lmax > most {
        return Err(Refusal::Size);
    }
    if nodes > MAX_REGION_NODES {
        return Err(Refusal::Size);
    }
    if weights != nodes {
        return Err(Refusal::Length);
    }
    if latitudes != nodes + nodes {
        return Err(Refusal::Length);
    }
    if marks != nodes {
        return Err(Refusal::Length);
    }
    let integrals = nodes * (lmax + lmax + 1);
    if s != integrals {
        return Err(Refusal::Length);
    }
    if c != integrals {
        return Err(Refusal::Length);
    }
    Ok(())
}

// The same for a region's functions.
pub fn nodes_check(
    lmax: usize,
    nodes: usize,
    weights: usize,
    latitudes: usize,
    marks: usize,
    s: usize,
    c: usize,
) -> Result<(), Refusal>
    ensures { result ≡ nodes_check lmax nodes weights latitudes marks s c }
{
    nodes_check_to(MAX_REGION, lmax, nodes, weights, latitudes, marks, s, c)
}

// The number of functions up to degree lmax.
pub fn basis_size(lmax: usize) -> usize
    requires { lmax ≤ 21 }
    ensures fact_1 { result ≡ basis_size lmax }
    ensures fact_2 { result ≤ 484 }
{
    (lmax + 1) * (lmax + 1)
}

// The same, and SPACE of the working list and the matrix.
fn matrix_check(
    lmax: usize,
    nodes: usize,
    weights: usize,
    latitudes: usize,
    marks: usize,
    s: usize,
    c: usize,
    work: usize,
    matrix: usize,
) -> Result<(), Refusal>
    ensures { result ≡ matrix_check lmax nodes weights latitudes marks s c work matrix }
{
    nodes_check(lmax, nodes, weights, latitudes, marks, s, c)?;
    let n = basis_size(lmax);
    if work < 3 * storage::table_size(lmax) {
        return Err(Refusal::Space);
    }
    if matrix < n * n {
        return Err(Refusal::Space);
    }
    Ok(())
}

// The concentration matrix of a region to degree lmax, row by row over the basis. For each node there are lent its weight, the sine and the cosine of
// its latitude, a mark (0: the node is skipped) and the integrals s and c of its longitudes, 2 lmax + 1 numbers each. The working list is left as it
// was.
pub fn concentration_matrix(
    lmax: usize,
    nodes: usize,
    weights: &[f64],
    latitudes: &[f64],
    marks: &[u8],
    s: &[f64],
    c: &[f64],
    work: &mut [f64],
    matrix: &mut [f64],
) -> Result<(), Refusal>
    ensures value { result ≡ matrix_check lmax nodes (length weights.now) (length latitudes.now) (length marks.now)
        (length s.now) (length c.now) (length work.old) (length matrix.old) }
    ensures matrix_after { matrix.new ≡ after result
        (fill 0 (by_rows (region_cell lmax weights.now latitudes.now marks.now s.now c.now nodes)
        (basis_size lmax)) (basis_size lmax * basis_size lmax) matrix.old)
        matrix.old }
    ensures symmetric { Symmetric result (basis_size lmax) matrix.new }
    ensures work_unchanged { work.new ≡ work.old }
{
    matrix_check(
        lmax,
        nodes,
        weights.len(),
        latitudes.len(),
        marks.len(),
        s.len(),
        c.len(),
        work.len(),
        matrix.len(),
    )?;
    whole::fill_matrix(lmax, nodes, weights, latitudes, marks, s, c, matrix);
    Ok(())
}
