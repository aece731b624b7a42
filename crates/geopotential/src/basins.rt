// Basins drawn as polygons: the intervals and the breaks of an outline, and the kernel of a basin.
ghost use Rattle.std.specs.Prelude.{◌≡◌, ◌*◌, ◌/◌, length};
ghost use Rattle.std.specs.Float.{nan};
ghost use Rattle.refusal.specs.Numbers.{after, behind, result_number};
ghost use Rattle.storage.specs.Elements.{from};
ghost use Rattle.storage.specs.Fill.{fill};
ghost use Rattle.storage.specs.Triangle.{table_size, along};
ghost use Rattle.polygon.specs.Outline.{crossings, intervals_of, breaks_of};
ghost use Rattle.polygon.specs.Checks.{outline_check};
ghost use Rattle.basin_kernel.specs.Kernel.{kernel_c, kernel_s, kernel_check};

pub fn geopotential_polygon_intervals(
    vertices: usize,
    outline: &[f64],
    theta: f64,
    work: &mut [f64],
    out: &mut [f64],
    count: &mut usize,
) -> u32
    ensures value { result ≡ result_number
        (outline_check vertices (length outline.now) (length work.old) (length out.old)
        (length (intervals_of vertices outline.now theta))) }
    ensures out_after { out.new ≡ after
        (outline_check vertices (length outline.now) (length work.old) (length out.old)
        (length (intervals_of vertices outline.now theta)))
        (fill 0 (from 0 (intervals_of vertices outline.now theta) nan) (length (intervals_of vertices outline.now theta)) out.old)
        out.old }
    ensures work_unchanged_1 { behind
        (outline_check vertices (length outline.now) (length work.old) (length out.old)
        (length (intervals_of vertices outline.now theta)))
        vertices work.new
        ≡ behind
        (outline_check vertices (length outline.now) (length work.old) (length out.old)
        (length (intervals_of vertices outline.now theta)))
        vertices work.old }
    ensures work_unchanged_2 { length work.new ≡ length work.old }
    ensures count_after { count.new ≡ after
        (outline_check vertices (length outline.now) (length work.old) (length out.old)
        (length (intervals_of vertices outline.now theta)))
        (length (crossings vertices outline.now theta) / 2) count.old }
{
    refusal::hand_on(
        polygon::intervals(vertices, outline, theta, work, out),
        count,
    )
}

pub fn geopotential_polygon_breaks(
    vertices: usize,
    outline: &[f64],
    work: &mut [f64],
    out: &mut [f64],
    count: &mut usize,
) -> u32
    ensures value { result ≡ result_number
        (outline_check vertices (length outline.now) (length work.old) (length out.old)
        (length (breaks_of vertices outline.now))) }
    ensures out_after_1 { out.new ≡ after
        (outline_check vertices (length outline.now) (length work.old) (length out.old)
        (length (breaks_of vertices outline.now)))
        (fill 0 (from 0 (breaks_of vertices outline.now) nan) (length (breaks_of vertices outline.now)) out.old)
        out.old }
    ensures out_after_2 { work.new ≡ work.old }
    ensures count_after { count.new ≡ after
        (outline_check vertices (length outline.now) (length work.old) (length out.old)
        (length (breaks_of vertices outline.now)))
        (length (breaks_of vertices outline.now)) count.old }
{
    refusal::hand_on(polygon::breaks(vertices, outline, work, out), count)
}

pub fn geopotential_basin_kernel(
    lmax: usize,
    nodes: usize,
    weights: &[f64],
    latitudes: &[f64],
    marks: &[u8],
    s: &[f64],
    c: &[f64],
    work: &mut [f64],
    kc: &mut [f64],
    ks: &mut [f64],
) -> u32
    ensures value { result ≡ result_number
        (kernel_check lmax nodes (length weights.now) (length latitudes.now) (length marks.now)
        (length s.now) (length c.now) (length work.old) (length kc.old) (length ks.old)) }
    ensures kc_after { kc.new ≡ after
        (kernel_check lmax nodes (length weights.now) (length latitudes.now) (length marks.now)
        (length s.now) (length c.now) (length work.old) (length kc.old) (length ks.old))
        (fill 0 (along (kernel_c lmax weights.now latitudes.now marks.now s.now c.now nodes)) (table_size lmax) kc.old)
        kc.old }
    ensures ks_after { ks.new ≡ after
        (kernel_check lmax nodes (length weights.now) (length latitudes.now) (length marks.now)
        (length s.now) (length c.now) (length work.old) (length kc.old) (length ks.old))
        (fill 0 (along (kernel_s lmax weights.now latitudes.now marks.now s.now c.now nodes)) (table_size lmax) ks.old)
        ks.old }
    ensures work_unchanged_1 { behind
        (kernel_check lmax nodes (length weights.now) (length latitudes.now) (length marks.now)
        (length s.now) (length c.now) (length work.old) (length kc.old) (length ks.old))
        (3 * table_size lmax) work.new
        ≡ behind
        (kernel_check lmax nodes (length weights.now) (length latitudes.now) (length marks.now)
        (length s.now) (length c.now) (length work.old) (length kc.old) (length ks.old))
        (3 * table_size lmax) work.old }
    ensures work_unchanged_2 { length work.new ≡ length work.old }
{
    refusal::result_number(basin_kernel::basin_kernel(
        lmax, nodes, weights, latitudes, marks, s, c, work, kc, ks,
    ))
}
