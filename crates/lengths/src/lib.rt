// How long the lists of each call must be: each function tells the lengths for the call of its name, at the front of `lengths`, in the order of the
// call's list parameters. Love numbers are told as many as water heights need; other functionals read none.
#![tactic(auto)]

mod leaves;

ghost use Rattle.std.specs.Prelude.{◌≡◌, length, Ok};
ghost use Rattle.model_file.specs.Format.{head_of};
ghost use Rattle.lengths.specs.Told.{size_check, lengths_check, lengths_after};
ghost use Rattle.lengths.specs.Lengths.{degree_size, two_degrees, grid_sizes, along_sizes, tables_lengths, factor_lengths, truncated_lengths};
ghost use Rattle.lengths.specs.Lengths.{variances_lengths, amplitudes_lengths, read_lengths, write_lengths, gauss_lengths, grid_lengths, average_lengths};
ghost use Rattle.lengths.specs.Lengths.{partials_lengths, along_lengths, three_lengths, second_lengths, second_along_lengths, nine_lengths};
ghost use Rattle.lengths.specs.Lengths.{analysis_lengths, eigen_lengths, cap_lengths, region_sizes, matrix_lengths, region_lengths};
ghost use Rattle.lengths.specs.Lengths.{intervals_lengths, breaks_lengths, kernel_sizes, kernel_lengths};
ghost use Rattle.refusal.specs.Numbers.{outcome};

use refusal::Refusal;

// `factor`: love.
pub fn factor(n: usize, lengths: &mut [usize]) -> Result<(), Refusal>
    ensures value { result ≡ lengths_check (degree_size n) (factor_lengths n) (length lengths.old) }
    ensures lengths_after { lengths.new ≡ lengths_after (degree_size n) (factor_lengths n) lengths.old }
{
    if n > storage::MAX_DEGREE {
        return Err(Refusal::Size);
    }
    let told = [n + 1];
    leaves::tell(&told, lengths)
}

// `zeros`: c, s.
pub fn zeros(nmax: usize, lengths: &mut [usize]) -> Result<(), Refusal>
    ensures value { result ≡ lengths_check (degree_size nmax) (tables_lengths 2 nmax) (length lengths.old) }
    ensures lengths_after { lengths.new ≡ lengths_after (degree_size nmax) (tables_lengths 2 nmax) lengths.old }
{
    leaves::tables(2, nmax, lengths)
}

// `coefficient_c`: c.
pub fn coefficient_c(nmax: usize, lengths: &mut [usize]) -> Result<(), Refusal>
    ensures value { result ≡ lengths_check (degree_size nmax) (tables_lengths 1 nmax) (length lengths.old) }
    ensures lengths_after { lengths.new ≡ lengths_after (degree_size nmax) (tables_lengths 1 nmax) lengths.old }
{
    leaves::tables(1, nmax, lengths)
}

// `coefficient_s`: s.
pub fn coefficient_s(nmax: usize, lengths: &mut [usize]) -> Result<(), Refusal>
    ensures value { result ≡ lengths_check (degree_size nmax) (tables_lengths 1 nmax) (length lengths.old) }
    ensures lengths_after { lengths.new ≡ lengths_after (degree_size nmax) (tables_lengths 1 nmax) lengths.old }
{
    leaves::tables(1, nmax, lengths)
}

// `set`: c, s.
pub fn set(nmax: usize, lengths: &mut [usize]) -> Result<(), Refusal>
    ensures value { result ≡ lengths_check (degree_size nmax) (tables_lengths 2 nmax) (length lengths.old) }
    ensures lengths_after { lengths.new ≡ lengths_after (degree_size nmax) (tables_lengths 2 nmax) lengths.old }
{
    leaves::tables(2, nmax, lengths)
}

// `truncated`: c, s, and the two tables up to the cut.
pub fn truncated(nmax: usize, cut: usize, lengths: &mut [usize]) -> Result<(), Refusal>
    ensures value { result ≡ lengths_check (degree_size nmax) (truncated_lengths nmax cut) (length lengths.old) }
    ensures lengths_after { lengths.new ≡ lengths_after (degree_size nmax) (truncated_lengths nmax cut) lengths.old }
{
    if nmax > storage::MAX_DEGREE {
        return Err(Refusal::Size);
    }
    let size = leaves::entries(nmax);
    let below = leaves::entries(storage::smaller(cut, nmax));
    let told = [size, size, below, below];
    leaves::tell(&told, lengths)
}

// `rescaled`: c, s, and the two new tables.
pub fn rescaled(nmax: usize, lengths: &mut [usize]) -> Result<(), Refusal>
    ensures value { result ≡ lengths_check (degree_size nmax) (tables_lengths 4 nmax) (length lengths.old) }
    ensures lengths_after { lengths.new ≡ lengths_after (degree_size nmax) (tables_lengths 4 nmax) lengths.old }
{
    leaves::tables(4, nmax, lengths)
}

// `degree_variances`: c, s, out.
pub fn degree_variances(nmax: usize, lengths: &mut [usize]) -> Result<(), Refusal>
    ensures value { result ≡ lengths_check (degree_size nmax) (variances_lengths nmax) (length lengths.old) }
    ensures lengths_after { lengths.new ≡ lengths_after (degree_size nmax) (variances_lengths nmax) lengths.old }
{
    if nmax > storage::MAX_DEGREE {
        return Err(Refusal::Size);
    }
    let size = leaves::entries(nmax);
    let told = [size, size, nmax + 1];
    leaves::tell(&told, lengths)
}

// `degree_amplitudes`: c, s, love, out.
pub fn degree_amplitudes(nmax: usize, lengths: &mut [usize]) -> Result<(), Refusal>
    ensures value { result ≡ lengths_check (degree_size nmax) (amplitudes_lengths nmax) (length lengths.old) }
    ensures lengths_after { lengths.new ≡ lengths_after (degree_size nmax) (amplitudes_lengths nmax) lengths.old }
{
    if nmax > storage::MAX_DEGREE {
        return Err(Refusal::Size);
    }
    let size = leaves::entries(nmax);
    let told = [size, size, nmax + 1, nmax + 1];
    leaves::tell(&told, lengths)
}

// `model_read`: the bytes of a file, c, s, and the six words of its head. Only the head is looked at, the first 20 bytes, 24 with a date.
pub fn model_read(bytes: &[u8], lengths: &mut [usize]) -> Result<(), Refusal>
    ensures value { result ≡ lengths_check (outcome (head_of bytes.now)) (read_lengths (head_of bytes.now))
        (length lengths.old) }
    ensures lengths_after { lengths.new ≡ lengths_after (outcome (head_of bytes.now)) (read_lengths (head_of bytes.now))
        lengths.old }
{
    let h = model_file::head(bytes)?;
    let nmax = h.nmax;
    let date = h.date;
    let size = leaves::entries(nmax);
    let start = model_file::head_size(date);
    let told = [start + 17 * size + 1, size, size, 6];
    leaves::tell(&told, lengths)
}

// `model_write`: c, s, and the bytes. Whether there is a date counts, by `dated`, and not which.
pub fn model_write(nmax: usize, dated: u32, lengths: &mut [usize]) -> Result<(), Refusal>
    ensures value { result ≡ lengths_check (degree_size nmax) (write_lengths nmax dated) (length lengths.old) }
    ensures lengths_after { lengths.new ≡ lengths_after (degree_size nmax) (write_lengths nmax dated) lengths.old }
{
    if nmax > storage::MAX_DEGREE {
        return Err(Refusal::Size);
    }
    let size = leaves::entries(nmax);
    let start = model_file::head_size((dated != 0).then_some(0));
    let told = [size, size, start + 17 * size + 1];
    leaves::tell(&told, lengths)
}

// `legendre_new`: a, b.
pub fn legendre_new(nmax: usize, lengths: &mut [usize]) -> Result<(), Refusal>
    ensures value { result ≡ lengths_check (degree_size nmax) (tables_lengths 2 nmax) (length lengths.old) }
    ensures lengths_after { lengths.new ≡ lengths_after (degree_size nmax) (tables_lengths 2 nmax) lengths.old }
{
    leaves::tables(2, nmax, lengths)
}

// `legendre_grow`: a, b.
pub fn legendre_grow(nmax: usize, lengths: &mut [usize]) -> Result<(), Refusal>
    ensures value { result ≡ lengths_check (degree_size nmax) (tables_lengths 2 nmax) (length lengths.old) }
    ensures lengths_after { lengths.new ≡ lengths_after (degree_size nmax) (tables_lengths 2 nmax) lengths.old }
{
    leaves::tables(2, nmax, lengths)
}

// `legendre_compute`: a, b, p.
pub fn legendre_compute(nmax: usize, lengths: &mut [usize]) -> Result<(), Refusal>
    ensures value { result ≡ lengths_check (degree_size nmax) (tables_lengths 3 nmax) (length lengths.old) }
    ensures lengths_after { lengths.new ≡ lengths_after (degree_size nmax) (tables_lengths 3 nmax) lengths.old }
{
    leaves::tables(3, nmax, lengths)
}

// `legendre_compute_with_derivative`: a, b, p, dp.
pub fn legendre_compute_with_derivative(nmax: usize, lengths: &mut [usize]) -> Result<(), Refusal>
    ensures value { result ≡ lengths_check (degree_size nmax) (tables_lengths 4 nmax) (length lengths.old) }
    ensures lengths_after { lengths.new ≡ lengths_after (degree_size nmax) (tables_lengths 4 nmax) lengths.old }
{
    leaves::tables(4, nmax, lengths)
}

// `legendre_mirror`: table.
pub fn legendre_mirror(nmax: usize, lengths: &mut [usize]) -> Result<(), Refusal>
    ensures value { result ≡ lengths_check (degree_size nmax) (tables_lengths 1 nmax) (length lengths.old) }
    ensures lengths_after { lengths.new ≡ lengths_after (degree_size nmax) (tables_lengths 1 nmax) lengths.old }
{
    leaves::tables(1, nmax, lengths)
}

// `legendre_mirror_derivative`: table.
pub fn legendre_mirror_derivative(nmax: usize, lengths: &mut [usize]) -> Result<(), Refusal>
    ensures value { result ≡ lengths_check (degree_size nmax) (tables_lengths 1 nmax) (length lengths.old) }
    ensures lengths_after { lengths.new ≡ lengths_after (degree_size nmax) (tables_lengths 1 nmax) lengths.old }
{
    leaves::tables(1, nmax, lengths)
}

// `legendre_entry`: the table.
pub fn legendre_entry(nmax: usize, lengths: &mut [usize]) -> Result<(), Refusal>
    ensures value { result ≡ lengths_check (degree_size nmax) (tables_lengths 1 nmax) (length lengths.old) }
    ensures lengths_after { lengths.new ≡ lengths_after (degree_size nmax) (tables_lengths 1 nmax) lengths.old }
{
    leaves::tables(1, nmax, lengths)
}

// `gauss_legendre`: guesses, x, w.
pub fn gauss_legendre(n: usize, lengths: &mut [usize]) -> Result<(), Refusal>
    ensures value { result ≡ lengths_check (size_check 2701 n) (gauss_lengths n) (length lengths.old) }
    ensures lengths_after { lengths.new ≡ lengths_after (size_check 2701 n) (gauss_lengths n) lengths.old }
{
    if n > quadrature::MAX_NODES {
        return Err(Refusal::Size);
    }
    let told = [(n + 1) / 2, n, n];
    leaves::tell(&told, lengths)
}

// `grid`: c, s, love, latitudes, trig, work, out.
pub fn grid(
    nmax: usize,
    rows: usize,
    longitudes: usize,
    lengths: &mut [usize],
) -> Result<(), Refusal>
    ensures value { result ≡ lengths_check (grid_sizes nmax rows longitudes) (grid_lengths nmax rows longitudes) (length lengths.old) }
    ensures lengths_after { lengths.new ≡ lengths_after (grid_sizes nmax rows longitudes) (grid_lengths nmax rows longitudes) lengths.old }
{
    if rows > synthesis::MAX_LINES {
        return Err(Refusal::Size);
    }
    if longitudes > synthesis::MAX_LINES {
        return Err(Refusal::Size);
    }
    if nmax > storage::MAX_DEGREE {
        return Err(Refusal::Size);
    }
    let size = leaves::entries(nmax);
    let trig = leaves::product(longitudes, nmax + nmax + 2);
    let work = 3 * size + 3 * (nmax + 1);
    let out = leaves::product(rows, longitudes);
    let told = [size, size, nmax + 1, rows + rows, trig, work, out];
    leaves::tell(&told, lengths)
}

// `basin_average`: c, s, the kernel's two tables, love.
pub fn basin_average(nmax: usize, kmax: usize, lengths: &mut [usize]) -> Result<(), Refusal>
    ensures value { result ≡ lengths_check (two_degrees nmax kmax) (average_lengths nmax kmax) (length lengths.old) }
    ensures lengths_after { lengths.new ≡ lengths_after (two_degrees nmax kmax) (average_lengths nmax kmax) lengths.old }
{
    if kmax > storage::MAX_DEGREE {
        return Err(Refusal::Size);
    }
    if nmax > storage::MAX_DEGREE {
        return Err(Refusal::Size);
    }
    let size = leaves::entries(nmax);
    let kernel = leaves::entries(kmax);
    let told = [size, size, kernel, kernel, storage::smaller(nmax, kmax) + 1];
    leaves::tell(&told, lengths)
}

// `partials`: c, s, trig, work, out.
pub fn partials(nmax: usize, lengths: &mut [usize]) -> Result<(), Refusal>
    ensures value { result ≡ lengths_check (degree_size nmax) (partials_lengths nmax) (length lengths.old) }
    ensures lengths_after { lengths.new ≡ lengths_after (degree_size nmax) (partials_lengths nmax) lengths.old }
{
    leaves::point(4, 4, nmax, lengths)
}

// `partials_along`: c, s, radii, latitudes, trig, work, out.
pub fn partials_along(nmax: usize, points: usize, lengths: &mut [usize]) -> Result<(), Refusal>
    ensures value { result ≡ lengths_check (along_sizes nmax points) (along_lengths nmax points) (length lengths.old) }
    ensures lengths_after { lengths.new ≡ lengths_after (along_sizes nmax points) (along_lengths nmax points) lengths.old }
{
    leaves::points(4, 4, nmax, points, lengths)
}

// `acceleration_neu`: out.
pub fn acceleration_neu(lengths: &mut [usize]) -> Result<(), Refusal>
    ensures value { result ≡ lengths_check (Ok tt) three_lengths (length lengths.old) }
    ensures lengths_after { lengths.new ≡ lengths_after (Ok tt) three_lengths lengths.old }
{
    leaves::one(3, lengths)
}

// `gravity_neu`: out.
pub fn gravity_neu(lengths: &mut [usize]) -> Result<(), Refusal>
    ensures value { result ≡ lengths_check (Ok tt) three_lengths (length lengths.old) }
    ensures lengths_after { lengths.new ≡ lengths_after (Ok tt) three_lengths lengths.old }
{
    leaves::one(3, lengths)
}

// `second_partials`: c, s, trig, work, out.
pub fn second_partials(nmax: usize, lengths: &mut [usize]) -> Result<(), Refusal>
    ensures value { result ≡ lengths_check (degree_size nmax) (second_lengths nmax) (length lengths.old) }
    ensures lengths_after { lengths.new ≡ lengths_after (degree_size nmax) (second_lengths nmax) lengths.old }
{
    leaves::point(5, 10, nmax, lengths)
}

// `second_partials_along`: c, s, radii, latitudes, trig, work, out.
pub fn second_partials_along(
    nmax: usize,
    points: usize,
    lengths: &mut [usize],
) -> Result<(), Refusal>
    ensures value { result ≡ lengths_check (along_sizes nmax points) (second_along_lengths nmax points) (length lengths.old) }
    ensures lengths_after { lengths.new ≡ lengths_after (along_sizes nmax points) (second_along_lengths nmax points) lengths.old }
{
    leaves::points(5, 10, nmax, points, lengths)
}

// `tensor_neu`: out.
pub fn tensor_neu(lengths: &mut [usize]) -> Result<(), Refusal>
    ensures value { result ≡ lengths_check (Ok tt) nine_lengths (length lengths.old) }
    ensures lengths_after { lengths.new ≡ lengths_after (Ok tt) nine_lengths lengths.old }
{
    leaves::one(9, lengths)
}

// `analysis`: love, values, weights, latitudes, trig, work, c, s.
pub fn analysis(nmax: usize, lengths: &mut [usize]) -> Result<(), Refusal>
    ensures value { result ≡ lengths_check (degree_size nmax) (analysis_lengths nmax) (length lengths.old) }
    ensures lengths_after { lengths.new ≡ lengths_after (degree_size nmax) (analysis_lengths nmax) lengths.old }
{
    if nmax > storage::MAX_DEGREE {
        return Err(Refusal::Size);
    }
    let size = leaves::entries(nmax);
    let rows = nmax + 1;
    let points = leaves::product(rows, nmax + nmax + 2);
    let told = [
        rows,
        points,
        rows,
        rows + rows,
        points + points,
        3 * size,
        size,
        size,
    ];
    leaves::tell(&told, lengths)
}

// `symmetric_eigen`: a, work, values, vectors.
pub fn symmetric_eigen(n: usize, lengths: &mut [usize]) -> Result<(), Refusal>
    ensures value { result ≡ lengths_check (size_check 512 n) (eigen_lengths n) (length lengths.old) }
    ensures lengths_after { lengths.new ≡ lengths_after (size_check 512 n) (eigen_lengths n) lengths.old }
{
    leaves::matrices(n, lengths)
}

// `householder_ql`: a, work, values, vectors.
pub fn householder_ql(n: usize, lengths: &mut [usize]) -> Result<(), Refusal>
    ensures value { result ≡ lengths_check (size_check 512 n) (eigen_lengths n) (length lengths.old) }
    ensures lengths_after { lengths.new ≡ lengths_after (size_check 512 n) (eigen_lengths n) lengths.old }
{
    leaves::matrices(n, lengths)
}

// `polar_cap`: weights, latitudes, work, orders, concentrations, vectors, settled.
pub fn polar_cap(lmax: usize, lengths: &mut [usize]) -> Result<(), Refusal>
    ensures value { result ≡ lengths_check (size_check 180 lmax) (cap_lengths lmax) (length lengths.old) }
    ensures lengths_after { lengths.new ≡ lengths_after (size_check 180 lmax) (cap_lengths lmax) lengths.old }
{
    if lmax > polar_cap::MAX_CAP {
        return Err(Refusal::Size);
    }
    let count = lmax + 1;
    let sizes = polar_cap::cap_sizes(lmax);
    let told = [
        count,
        count + count,
        sizes.work,
        sizes.functions,
        sizes.functions,
        sizes.numbers,
        count * 2,
    ];
    leaves::tell(&told, lengths)
}

// `concentration_matrix`: weights, latitudes, marks, s, c, work, matrix.
pub fn concentration_matrix(lmax: usize, nodes: usize, lengths: &mut [usize]) -> Result<(), Refusal>
    ensures value { result ≡ lengths_check (region_sizes lmax nodes) (matrix_lengths lmax nodes) (length lengths.old) }
    ensures lengths_after { lengths.new ≡ lengths_after (region_sizes lmax nodes) (matrix_lengths lmax nodes) lengths.old }
{
    if lmax > regions::MAX_REGION {
        return Err(Refusal::Size);
    }
    if nodes > regions::MAX_REGION_NODES {
        return Err(Refusal::Size);
    }
    let sizes = region::region_sizes(lmax);
    let integrals = leaves::product(nodes, lmax + lmax + 1);
    let cells = leaves::product(sizes.functions, sizes.functions);
    let told = [
        nodes,
        nodes + nodes,
        nodes,
        integrals,
        integrals,
        3 * sizes.table,
        cells,
    ];
    leaves::tell(&told, lengths)
}

// `region`: weights, latitudes, marks, s, c, work, concentrations, cs, ss.
pub fn region(lmax: usize, nodes: usize, lengths: &mut [usize]) -> Result<(), Refusal>
    ensures value { result ≡ lengths_check (region_sizes lmax nodes) (region_lengths lmax nodes) (length lengths.old) }
    ensures lengths_after { lengths.new ≡ lengths_after (region_sizes lmax nodes) (region_lengths lmax nodes) lengths.old }
{
    if lmax > regions::MAX_REGION {
        return Err(Refusal::Size);
    }
    if nodes > regions::MAX_REGION_NODES {
        return Err(Refusal::Size);
    }
    let sizes = region::region_sizes(lmax);
    let integrals = leaves::product(nodes, lmax + lmax + 1);
    let told = [
        nodes,
        nodes + nodes,
        nodes,
        integrals,
        integrals,
        sizes.work,
        sizes.functions,
        sizes.numbers,
        sizes.numbers,
    ];
    leaves::tell(&told, lengths)
}

// `intervals` of an outline: the outline, work, out. There is room for the intervals of every colatitude.
pub fn polygon_intervals(vertices: usize, lengths: &mut [usize]) -> Result<(), Refusal>
    ensures value { result ≡ lengths_check (size_check 4096 vertices) (intervals_lengths vertices) (length lengths.old) }
    ensures lengths_after { lengths.new ≡ lengths_after (size_check 4096 vertices) (intervals_lengths vertices) lengths.old }
{
    if vertices > polygon::MAX_VERTICES {
        return Err(Refusal::Size);
    }
    let told = [vertices + vertices, vertices, vertices / 2 * 2];
    leaves::tell(&told, lengths)
}

// `breaks` of an outline: the outline, work, out.
pub fn polygon_breaks(vertices: usize, lengths: &mut [usize]) -> Result<(), Refusal>
    ensures value { result ≡ lengths_check (size_check 4096 vertices) (breaks_lengths vertices) (length lengths.old) }
    ensures lengths_after { lengths.new ≡ lengths_after (size_check 4096 vertices) (breaks_lengths vertices) lengths.old }
{
    if vertices > polygon::MAX_VERTICES {
        return Err(Refusal::Size);
    }
    let told = [vertices + vertices, vertices, vertices];
    leaves::tell(&told, lengths)
}

// `basin_kernel`: weights, latitudes, marks, s, c, work, kc, ks.
pub fn basin_kernel(lmax: usize, nodes: usize, lengths: &mut [usize]) -> Result<(), Refusal>
    ensures value { result ≡ lengths_check (kernel_sizes lmax nodes) (kernel_lengths lmax nodes) (length lengths.old) }
    ensures lengths_after { lengths.new ≡ lengths_after (kernel_sizes lmax nodes) (kernel_lengths lmax nodes) lengths.old }
{
    if lmax > storage::MAX_DEGREE {
        return Err(Refusal::Size);
    }
    if nodes > regions::MAX_REGION_NODES {
        return Err(Refusal::Size);
    }
    let size = leaves::entries(lmax);
    let integrals = leaves::product(nodes, lmax + lmax + 1);
    let told = [
        nodes,
        nodes + nodes,
        nodes,
        integrals,
        integrals,
        3 * size,
        size,
        size,
    ];
    leaves::tell(&told, lengths)
}
