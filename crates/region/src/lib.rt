// The Slepian functions of a region of any shape, best concentrated first (Simons, Dahlen & Wieczorek 2006).
#![tactic(auto)]

mod functions;
mod solve;

ghost use Rattle.std.specs.Prelude.{◌≡◌, true, false, ◌*◌, ◌≤◌, length};
ghost use Rattle.refusal.specs.Numbers.{after, behind, outcome, value_if};
ghost use Rattle.storage.specs.Fill.{fill};
ghost use Rattle.storage.specs.Rectangle.{by_rows};
ghost use Rattle.storage.specs.Triangle.{table_size};
ghost use Rattle.linalg.specs.Eigen.{eigen_limit};
ghost use Rattle.linalg.specs.Solution.{count_in};
ghost use Rattle.region_nodes.specs.Basis.{basis_size};
ghost use Rattle.region_nodes.specs.Regions.{concentration_matrix};
ghost use Rattle.region.specs.Region.{region_work, region_check, region_convergence, concentration_at, numbers_at};
ghost use Rattle.region.specs.Storage.{Sized};

use linalg::Convergence;
use refusal::Refusal;

// How many functions there are, how many numbers c each has and all have, and how much of the working list is used.
#[derive(Clone, Copy)]
pub struct Sizes {
    pub functions: usize,
    pub table: usize,
    pub numbers: usize,
    pub work: usize,
}

// The sizes for a degree that is not refused: a kernel of the check, and of the call that tells lengths.
pub fn region_sizes(lmax: usize) -> Sizes
    requires { lmax ≤ 21 }
    ensures { Sized lmax result.functions result.table result.numbers result.work }
{
    let functions = regions::basis_size(lmax);
    let table = storage::table_size(lmax);
    Sizes {
        functions,
        table,
        numbers: functions * table,
        work: 3 * table + 4 * (functions * functions) + 5 * functions,
    }
}

// SIZE, LENGTH and SPACE, over the lengths of the lists.
fn region_check(
    lmax: usize,
    nodes: usize,
    weights: usize,
    latitudes: usize,
    marks: usize,
    s: usize,
    c: usize,
    work: usize,
    concentrations: usize,
    cs: usize,
    ss: usize,
) -> Result<(), Refusal>
    ensures { result ≡ region_check lmax nodes weights latitudes marks s c work concentrations cs ss }
{
    regions::nodes_check(lmax, nodes, weights, latitudes, marks, s, c)?;
    let sizes = region_sizes(lmax);
    if work < sizes.work {
        return Err(Refusal::Space);
    }
    if concentrations < sizes.functions {
        return Err(Refusal::Space);
    }
    if cs < sizes.numbers {
        return Err(Refusal::Space);
    }
    if ss < sizes.numbers {
        return Err(Refusal::Space);
    }
    Ok(())
}

// The Slepian functions of a region to degree lmax, best concentrated first: their concentrations, and their coefficients of P(l, m) cos mλ, in cs, and
// of P(l, m) sin mλ, in ss, function after function, each as a table; and how the solver of its matrix ended. The nodes are lent as to
// `concentration_matrix`.
pub fn region(
    lmax: usize,
    nodes: usize,
    weights: &[f64],
    latitudes: &[f64],
    marks: &[u8],
    s: &[f64],
    c: &[f64],
    work: &mut [f64],
    concentrations: &mut [f64],
    cs: &mut [f64],
    ss: &mut [f64],
) -> Result<Convergence, Refusal>
    ensures value_1 { result ≡ value_if
        (region_check lmax nodes (length weights.now) (length latitudes.now) (length marks.now)
        (length s.now) (length c.now) (length work.old) (length concentrations.old)
        (length cs.old) (length ss.old))
        (region_convergence lmax
        (concentration_matrix lmax weights.now latitudes.now marks.now s.now c.now nodes)) }
    ensures value_2 { count_in result ≤ eigen_limit (basis_size lmax) }
    ensures concentrations_after { concentrations.new ≡ after (outcome result)
        (fill 0 (concentration_at lmax
        (concentration_matrix lmax weights.now latitudes.now marks.now s.now c.now nodes))
        (basis_size lmax) concentrations.old)
        concentrations.old }
    ensures cs_after { cs.new ≡ after (outcome result)
        (fill 0 (by_rows (numbers_at lmax
        (concentration_matrix lmax weights.now latitudes.now marks.now s.now c.now nodes)
        false) (table_size lmax)) (basis_size lmax * table_size lmax) cs.old)
        cs.old }
    ensures ss_after { ss.new ≡ after (outcome result)
        (fill 0 (by_rows (numbers_at lmax
        (concentration_matrix lmax weights.now latitudes.now marks.now s.now c.now nodes)
        true) (table_size lmax)) (basis_size lmax * table_size lmax) ss.old)
        ss.old }
    ensures work_unchanged_1 { behind (outcome result) (region_work lmax) work.new ≡ behind (outcome result) (region_work lmax) work.old }
    ensures work_unchanged_2 { length work.new ≡ length work.old }
{
    region_check(
        lmax,
        nodes,
        weights.len(),
        latitudes.len(),
        marks.len(),
        s.len(),
        c.len(),
        work.len(),
        concentrations.len(),
        cs.len(),
        ss.len(),
    )?;
    Ok(solve::compute(
        lmax,
        nodes,
        weights,
        latitudes,
        marks,
        s,
        c,
        work,
        concentrations,
        cs,
        ss,
    ))
}
