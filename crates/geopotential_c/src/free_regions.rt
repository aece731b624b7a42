// The concentration matrix of a region of any shape, and its Slepian functions.
ghost use Rattle.std.specs.Prelude.{◌≡◌, true, false, ◌*◌, ◌≤◌, length};
ghost use Rattle.refusal.specs.Numbers.{after, behind, result_number};
ghost use Rattle.storage.specs.Fill.{fill};
ghost use Rattle.storage.specs.Rectangle.{by_rows};
ghost use Rattle.storage.specs.Triangle.{table_size};
ghost use Rattle.linalg.specs.Eigen.{eigen_limit};
ghost use Rattle.linalg.specs.Solution.{settled_number};
ghost use Rattle.region_nodes.specs.Basis.{basis_size};
ghost use Rattle.region_nodes.specs.Regions.{region_cell, concentration_matrix};
ghost use Rattle.regions.specs.Checks.{matrix_check, Symmetric};
ghost use Rattle.region.specs.Region.{region_work, region_check, region_convergence, concentration_at, numbers_at};

#[unsafe(no_mangle)]
pub extern "C" fn geopotential_concentration_matrix(
    lmax: usize,
    nodes: usize,
    weights: &[f64],
    latitudes: &[f64],
    marks: &[u8],
    s: &[f64],
    c: &[f64],
    work: &mut [f64],
    matrix: &mut [f64],
) -> u32
    ensures value { result ≡ result_number (matrix_check lmax nodes (length weights.now) (length latitudes.now)
        (length marks.now) (length s.now) (length c.now) (length work.old) (length matrix.old)) }
    ensures matrix_after { matrix.new ≡ after
        (matrix_check lmax nodes (length weights.now) (length latitudes.now)
        (length marks.now) (length s.now) (length c.now) (length work.old) (length matrix.old))
        (fill 0 (by_rows (region_cell lmax weights.now latitudes.now marks.now s.now c.now nodes)
        (basis_size lmax)) (basis_size lmax * basis_size lmax) matrix.old)
        matrix.old }
    ensures symmetric { Symmetric
        (matrix_check lmax nodes (length weights.now) (length latitudes.now)
        (length marks.now) (length s.now) (length c.now) (length work.old) (length matrix.old))
        (basis_size lmax) matrix.new }
    ensures work_unchanged { work.new ≡ work.old }
{
    geopotential::free_regions::geopotential_concentration_matrix(
        lmax, nodes, weights, latitudes, marks, s, c, work, matrix,
    )
}

#[unsafe(no_mangle)]
pub extern "C" fn geopotential_region(
    lmax: usize,
    nodes: usize,
    weights: &[f64],
    latitudes: &[f64],
    marks: &[u8],
    s: &[f64],
    c: &[f64],
    work: &mut [f64],
    concentrations: &mut [f64],
    cs: &mut [f64],
    ss: &mut [f64],
    settled: &mut u32,
    count: &mut usize,
) -> u32
    ensures value { result ≡ result_number (region_check lmax nodes (length weights.now) (length latitudes.now)
        (length marks.now) (length s.now) (length c.now) (length work.old)
        (length concentrations.old) (length cs.old) (length ss.old)) }
    ensures concentrations_after { concentrations.new ≡ after
        (region_check lmax nodes (length weights.now) (length latitudes.now)
        (length marks.now) (length s.now) (length c.now) (length work.old)
        (length concentrations.old) (length cs.old) (length ss.old))
        (fill 0 (concentration_at lmax
        (concentration_matrix lmax weights.now latitudes.now marks.now s.now c.now nodes))
        (basis_size lmax) concentrations.old)
        concentrations.old }
    ensures cs_after { cs.new ≡ after
        (region_check lmax nodes (length weights.now) (length latitudes.now)
        (length marks.now) (length s.now) (length c.now) (length work.old)
        (length concentrations.old) (length cs.old) (length ss.old))
        (fill 0 (by_rows (numbers_at lmax
        (concentration_matrix lmax weights.now latitudes.now marks.now s.now c.now nodes)
        false) (table_size lmax)) (basis_size lmax * table_size lmax) cs.old)
        cs.old }
    ensures ss_after { ss.new ≡ after
        (region_check lmax nodes (length weights.now) (length latitudes.now)
        (length marks.now) (length s.now) (length c.now) (length work.old)
        (length concentrations.old) (length cs.old) (length ss.old))
        (fill 0 (by_rows (numbers_at lmax
        (concentration_matrix lmax weights.now latitudes.now marks.now s.now c.now nodes)
        true) (table_size lmax)) (basis_size lmax * table_size lmax) ss.old)
        ss.old }
    ensures work_unchanged { behind
        (region_check lmax nodes (length weights.now) (length latitudes.now)
        (length marks.now) (length s.now) (length c.now) (length work.old)
        (length concentrations.old) (length cs.old) (length ss.old))
        (region_work lmax) work.new
        ≡ behind
        (region_check lmax nodes (length weights.now) (length latitudes.now)
        (length marks.now) (length s.now) (length c.now) (length work.old)
        (length concentrations.old) (length cs.old) (length ss.old))
        (region_work lmax) work.old }
    ensures work_len_unchanged { length work.new ≡ length work.old }
    ensures settled_after { settled.new ≡ after
        (region_check lmax nodes (length weights.now) (length latitudes.now)
        (length marks.now) (length s.now) (length c.now) (length work.old)
        (length concentrations.old) (length cs.old) (length ss.old))
        (settled_number (region_convergence lmax
        (concentration_matrix lmax weights.now latitudes.now marks.now s.now c.now nodes)).settled)
        settled.old }
    ensures count_after { count.new ≡ after
        (region_check lmax nodes (length weights.now) (length latitudes.now)
        (length marks.now) (length s.now) (length c.now) (length work.old)
        (length concentrations.old) (length cs.old) (length ss.old))
        (region_convergence lmax
        (concentration_matrix lmax weights.now latitudes.now marks.now s.now c.now nodes)).count
        count.old }
    ensures count_bound { result ≡ 0 → count.new ≤ eigen_limit (basis_size lmax) }
{
    geopotential::free_regions::geopotential_region(
        lmax,
        nodes,
        weights,
        latitudes,
        marks,
        s,
        c,
        work,
        concentrations,
        cs,
        ss,
        settled,
        count,
    )
}
