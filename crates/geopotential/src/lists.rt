// How long the lists of each entry must be: the lengths go to the front of `lengths`, in the order of the entry's list parameters. An entry that is lent
// lists of just these lengths is not refused for them.
ghost use Rattle.std.specs.Prelude.{◌≡◌, length, Ok};
ghost use Rattle.model_file.specs.Format.{head_of};
ghost use Rattle.lengths.specs.Told.{size_check, lengths_check, lengths_after};
ghost use Rattle.lengths.specs.Lengths.{degree_size, two_degrees, grid_sizes, along_sizes, tables_lengths, factor_lengths, truncated_lengths};
ghost use Rattle.lengths.specs.Lengths.{variances_lengths, amplitudes_lengths, read_lengths, write_lengths, gauss_lengths, grid_lengths, average_lengths};
ghost use Rattle.lengths.specs.Lengths.{partials_lengths, along_lengths, three_lengths, second_lengths, second_along_lengths, nine_lengths, analysis_lengths, eigen_lengths};
ghost use Rattle.lengths.specs.Lengths.{cap_lengths, region_sizes, matrix_lengths, region_lengths, intervals_lengths, breaks_lengths, kernel_sizes, kernel_lengths};
ghost use Rattle.refusal.specs.Numbers.{outcome, result_number};

pub fn geopotential_factor_lengths(n: usize, lengths: &mut [usize]) -> u32
    ensures value { result ≡ result_number (lengths_check (degree_size n) (factor_lengths n) (length lengths.old)) }
    ensures lengths_after { lengths.new ≡ lengths_after (degree_size n) (factor_lengths n) lengths.old }
{
    refusal::result_number(lengths::factor(n, lengths))
}

pub fn geopotential_zeros_lengths(nmax: usize, lengths: &mut [usize]) -> u32
    ensures value { result ≡ result_number (lengths_check (degree_size nmax) (tables_lengths 2 nmax) (length lengths.old)) }
    ensures lengths_after { lengths.new ≡ lengths_after (degree_size nmax) (tables_lengths 2 nmax) lengths.old }
{
    refusal::result_number(lengths::zeros(nmax, lengths))
}

pub fn geopotential_coefficient_c_lengths(nmax: usize, lengths: &mut [usize]) -> u32
    ensures value { result ≡ result_number (lengths_check (degree_size nmax) (tables_lengths 1 nmax) (length lengths.old)) }
    ensures lengths_after { lengths.new ≡ lengths_after (degree_size nmax) (tables_lengths 1 nmax) lengths.old }
{
    refusal::result_number(lengths::coefficient_c(nmax, lengths))
}

pub fn geopotential_coefficient_s_lengths(nmax: usize, lengths: &mut [usize]) -> u32
    ensures value { result ≡ result_number (lengths_check (degree_size nmax) (tables_lengths 1 nmax) (length lengths.old)) }
    ensures lengths_after { lengths.new ≡ lengths_after (degree_size nmax) (tables_lengths 1 nmax) lengths.old }
{
    refusal::result_number(lengths::coefficient_s(nmax, lengths))
}

pub fn geopotential_set_lengths(nmax: usize, lengths: &mut [usize]) -> u32
    ensures value { result ≡ result_number (lengths_check (degree_size nmax) (tables_lengths 2 nmax) (length lengths.old)) }
    ensures lengths_after { lengths.new ≡ lengths_after (degree_size nmax) (tables_lengths 2 nmax) lengths.old }
{
    refusal::result_number(lengths::set(nmax, lengths))
}

pub fn geopotential_truncated_lengths(nmax: usize, cut: usize, lengths: &mut [usize]) -> u32
    ensures value { result ≡ result_number (lengths_check (degree_size nmax) (truncated_lengths nmax cut) (length lengths.old)) }
    ensures lengths_after { lengths.new ≡ lengths_after (degree_size nmax) (truncated_lengths nmax cut) lengths.old }
{
    refusal::result_number(lengths::truncated(nmax, cut, lengths))
}

pub fn geopotential_rescaled_lengths(nmax: usize, lengths: &mut [usize]) -> u32
    ensures value { result ≡ result_number (lengths_check (degree_size nmax) (tables_lengths 4 nmax) (length lengths.old)) }
    ensures lengths_after { lengths.new ≡ lengths_after (degree_size nmax) (tables_lengths 4 nmax) lengths.old }
{
    refusal::result_number(lengths::rescaled(nmax, lengths))
}

pub fn geopotential_degree_variances_lengths(nmax: usize, lengths: &mut [usize]) -> u32
    ensures value { result ≡ result_number (lengths_check (degree_size nmax) (variances_lengths nmax) (length lengths.old)) }
    ensures lengths_after { lengths.new ≡ lengths_after (degree_size nmax) (variances_lengths nmax) lengths.old }
{
    refusal::result_number(lengths::degree_variances(nmax, lengths))
}

pub fn geopotential_degree_amplitudes_lengths(nmax: usize, lengths: &mut [usize]) -> u32
    ensures value { result ≡ result_number (lengths_check (degree_size nmax) (amplitudes_lengths nmax) (length lengths.old)) }
    ensures lengths_after { lengths.new ≡ lengths_after (degree_size nmax) (amplitudes_lengths nmax) lengths.old }
{
    refusal::result_number(lengths::degree_amplitudes(nmax, lengths))
}

// By the head of a file: its first 20 bytes are enough, 24 with a date.
pub fn geopotential_model_read_lengths(bytes: &[u8], lengths: &mut [usize]) -> u32
    ensures value { result ≡ result_number (lengths_check (outcome (head_of bytes.now)) (read_lengths (head_of bytes.now))
        (length lengths.old)) }
    ensures lengths_after { lengths.new ≡ lengths_after (outcome (head_of bytes.now)) (read_lengths (head_of bytes.now))
        lengths.old }
{
    refusal::result_number(lengths::model_read(bytes, lengths))
}

pub fn geopotential_model_write_lengths(nmax: usize, dated: u32, lengths: &mut [usize]) -> u32
    ensures value { result ≡ result_number (lengths_check (degree_size nmax) (write_lengths nmax dated) (length lengths.old)) }
    ensures lengths_after { lengths.new ≡ lengths_after (degree_size nmax) (write_lengths nmax dated) lengths.old }
{
    refusal::result_number(lengths::model_write(nmax, dated, lengths))
}

pub fn geopotential_legendre_new_lengths(nmax: usize, lengths: &mut [usize]) -> u32
    ensures value { result ≡ result_number (lengths_check (degree_size nmax) (tables_lengths 2 nmax) (length lengths.old)) }
    ensures lengths_after { lengths.new ≡ lengths_after (degree_size nmax) (tables_lengths 2 nmax) lengths.old }
{
    refusal::result_number(lengths::legendre_new(nmax, lengths))
}

pub fn geopotential_legendre_grow_lengths(nmax: usize, lengths: &mut [usize]) -> u32
    ensures value { result ≡ result_number (lengths_check (degree_size nmax) (tables_lengths 2 nmax) (length lengths.old)) }
    ensures lengths_after { lengths.new ≡ lengths_after (degree_size nmax) (tables_lengths 2 nmax) lengths.old }
{
    refusal::result_number(lengths::legendre_grow(nmax, lengths))
}

pub fn geopotential_legendre_compute_lengths(nmax: usize, lengths: &mut [usize]) -> u32
    ensures value { result ≡ result_number (lengths_check (degree_size nmax) (tables_lengths 3 nmax) (length lengths.old)) }
    ensures lengths_after { lengths.new ≡ lengths_after (degree_size nmax) (tables_lengths 3 nmax) lengths.old }
{
    refusal::result_number(lengths::legendre_compute(nmax, lengths))
}

pub fn geopotential_legendre_compute_with_derivative_lengths(
    nmax: usize,
    lengths: &mut [usize],
) -> u32
    ensures value { result ≡ result_number (lengths_check (degree_size nmax) (tables_lengths 4 nmax) (length lengths.old)) }
    ensures lengths_after { lengths.new ≡ lengths_after (degree_size nmax) (tables_lengths 4 nmax) lengths.old }
{
    refusal::result_number(lengths::legendre_compute_with_derivative(nmax, lengths))
}

pub fn geopotential_legendre_mirror_lengths(nmax: usize, lengths: &mut [usize]) -> u32
    ensures value { result ≡ result_number (lengths_check (degree_size nmax) (tables_lengths 1 nmax) (length lengths.old)) }
    ensures lengths_after { lengths.new ≡ lengths_after (degree_size nmax) (tables_lengths 1 nmax) lengths.old }
{
    refusal::result_number(lengths::legendre_mirror(nmax, lengths))
}

pub fn geopotential_legendre_mirror_derivative_lengths(nmax: usize, lengths: &mut [usize]) -> u32
    ensures value { result ≡ result_number (lengths_check (degree_size nmax) (tables_lengths 1 nmax) (length lengths.old)) }
    ensures lengths_after { lengths.new ≡ lengths_after (degree_size nmax) (tables_lengths 1 nmax) lengths.old }
{
    refusal::result_number(lengths::legendre_mirror_derivative(nmax, lengths))
}

pub fn geopotential_legendre_entry_lengths(nmax: usize, lengths: &mut [usize]) -> u32
    ensures value { result ≡ result_number (lengths_check (degree_size nmax) (tables_lengths 1 nmax) (length lengths.old)) }
    ensures lengths_after { lengths.new ≡ lengths_after (degree_size nmax) (tables_lengths 1 nmax) lengths.old }
{
    refusal::result_number(lengths::legendre_entry(nmax, lengths))
}

pub fn geopotential_gauss_legendre_lengths(n: usize, lengths: &mut [usize]) -> u32
    ensures value { result ≡ result_number (lengths_check (size_check 2701 n) (gauss_lengths n) (length lengths.old)) }
    ensures lengths_after { lengths.new ≡ lengths_after (size_check 2701 n) (gauss_lengths n) lengths.old }
{
    refusal::result_number(lengths::gauss_legendre(n, lengths))
}

pub fn geopotential_grid_lengths(
    nmax: usize,
    rows: usize,
    longitudes: usize,
    lengths: &mut [usize],
) -> u32
    ensures value { result ≡ result_number (lengths_check (grid_sizes nmax rows longitudes) (grid_lengths nmax rows longitudes) (length lengths.old)) }
    ensures lengths_after { lengths.new ≡ lengths_after (grid_sizes nmax rows longitudes) (grid_lengths nmax rows longitudes) lengths.old }
{
    refusal::result_number(lengths::grid(nmax, rows, longitudes, lengths))
}

pub fn geopotential_basin_average_lengths(nmax: usize, kmax: usize, lengths: &mut [usize]) -> u32
    ensures value { result ≡ result_number (lengths_check (two_degrees nmax kmax) (average_lengths nmax kmax) (length lengths.old)) }
    ensures lengths_after { lengths.new ≡ lengths_after (two_degrees nmax kmax) (average_lengths nmax kmax) lengths.old }
{
    refusal::result_number(lengths::basin_average(nmax, kmax, lengths))
}

pub fn geopotential_partials_lengths(nmax: usize, lengths: &mut [usize]) -> u32
    ensures value { result ≡ result_number (lengths_check (degree_size nmax) (partials_lengths nmax) (length lengths.old)) }
    ensures lengths_after { lengths.new ≡ lengths_after (degree_size nmax) (partials_lengths nmax) lengths.old }
{
    refusal::result_number(lengths::partials(nmax, lengths))
}

pub fn geopotential_partials_along_lengths(nmax: usize, points: usize, lengths: &mut [usize]) -> u32
    ensures value { result ≡ result_number (lengths_check (along_sizes nmax points) (along_lengths nmax points) (length lengths.old)) }
    ensures lengths_after { lengths.new ≡ lengths_after (along_sizes nmax points) (along_lengths nmax points) lengths.old }
{
    refusal::result_number(lengths::partials_along(nmax, points, lengths))
}

pub fn geopotential_acceleration_neu_lengths(lengths: &mut [usize]) -> u32
    ensures value { result ≡ result_number (lengths_check (Ok tt) three_lengths (length lengths.old)) }
    ensures lengths_after { lengths.new ≡ lengths_after (Ok tt) three_lengths lengths.old }
{
    refusal::result_number(lengths::acceleration_neu(lengths))
}

pub fn geopotential_gravity_neu_lengths(lengths: &mut [usize]) -> u32
    ensures value { result ≡ result_number (lengths_check (Ok tt) three_lengths (length lengths.old)) }
    ensures lengths_after { lengths.new ≡ lengths_after (Ok tt) three_lengths lengths.old }
{
    refusal::result_number(lengths::gravity_neu(lengths))
}

pub fn geopotential_second_partials_lengths(nmax: usize, lengths: &mut [usize]) -> u32
    ensures value { result ≡ result_number (lengths_check (degree_size nmax) (second_lengths nmax) (length lengths.old)) }
    ensures lengths_after { lengths.new ≡ lengths_after (degree_size nmax) (second_lengths nmax) lengths.old }
{
    refusal::result_number(lengths::second_partials(nmax, lengths))
}

pub fn geopotential_second_partials_along_lengths(
    nmax: usize,
    points: usize,
    lengths: &mut [usize],
) -> u32
    ensures value { result ≡ result_number (lengths_check (along_sizes nmax points) (second_along_lengths nmax points) (length lengths.old)) }
    ensures lengths_after { lengths.new ≡ lengths_after (along_sizes nmax points) (second_along_lengths nmax points) lengths.old }
{
    refusal::result_number(lengths::second_partials_along(nmax, points, lengths))
}

pub fn geopotential_tensor_neu_lengths(lengths: &mut [usize]) -> u32
    ensures value { result ≡ result_number (lengths_check (Ok tt) nine_lengths (length lengths.old)) }
    ensures lengths_after { lengths.new ≡ lengths_after (Ok tt) nine_lengths lengths.old }
{
    refusal::result_number(lengths::tensor_neu(lengths))
}

pub fn geopotential_analysis_lengths(nmax: usize, lengths: &mut [usize]) -> u32
    ensures value { result ≡ result_number (lengths_check (degree_size nmax) (analysis_lengths nmax) (length lengths.old)) }
    ensures lengths_after { lengths.new ≡ lengths_after (degree_size nmax) (analysis_lengths nmax) lengths.old }
{
    refusal::result_number(lengths::analysis(nmax, lengths))
}

pub fn geopotential_symmetric_eigen_lengths(n: usize, lengths: &mut [usize]) -> u32
    ensures value { result ≡ result_number (lengths_check (size_check 512 n) (eigen_lengths n) (length lengths.old)) }
    ensures lengths_after { lengths.new ≡ lengths_after (size_check 512 n) (eigen_lengths n) lengths.old }
{
    refusal::result_number(lengths::symmetric_eigen(n, lengths))
}

pub fn geopotential_householder_ql_lengths(n: usize, lengths: &mut [usize]) -> u32
    ensures value { result ≡ result_number (lengths_check (size_check 512 n) (eigen_lengths n) (length lengths.old)) }
    ensures lengths_after { lengths.new ≡ lengths_after (size_check 512 n) (eigen_lengths n) lengths.old }
{
    refusal::result_number(lengths::householder_ql(n, lengths))
}

pub fn geopotential_polar_cap_lengths(lmax: usize, lengths: &mut [usize]) -> u32
    ensures value { result ≡ result_number (lengths_check (size_check 180 lmax) (cap_lengths lmax) (length lengths.old)) }
    ensures lengths_after { lengths.new ≡ lengths_after (size_check 180 lmax) (cap_lengths lmax) lengths.old }
{
    refusal::result_number(lengths::polar_cap(lmax, lengths))
}

pub fn geopotential_concentration_matrix_lengths(
    lmax: usize,
    nodes: usize,
    lengths: &mut [usize],
) -> u32
    ensures value { result ≡ result_number (lengths_check (region_sizes lmax nodes) (matrix_lengths lmax nodes) (length lengths.old)) }
    ensures lengths_after { lengths.new ≡ lengths_after (region_sizes lmax nodes) (matrix_lengths lmax nodes) lengths.old }
{
    refusal::result_number(lengths::concentration_matrix(lmax, nodes, lengths))
}

pub fn geopotential_region_lengths(lmax: usize, nodes: usize, lengths: &mut [usize]) -> u32
    ensures value { result ≡ result_number (lengths_check (region_sizes lmax nodes) (region_lengths lmax nodes) (length lengths.old)) }
    ensures lengths_after { lengths.new ≡ lengths_after (region_sizes lmax nodes) (region_lengths lmax nodes) lengths.old }
{
    refusal::result_number(lengths::region(lmax, nodes, lengths))
}

pub fn geopotential_polygon_intervals_lengths(vertices: usize, lengths: &mut [usize]) -> u32
    ensures value { result ≡ result_number (lengths_check (size_check 4096 vertices) (intervals_lengths vertices) (length lengths.old)) }
    ensures lengths_after { lengths.new ≡ lengths_after (size_check 4096 vertices) (intervals_lengths vertices) lengths.old }
{
    refusal::result_number(lengths::polygon_intervals(vertices, lengths))
}

pub fn geopotential_polygon_breaks_lengths(vertices: usize, lengths: &mut [usize]) -> u32
    ensures value { result ≡ result_number (lengths_check (size_check 4096 vertices) (breaks_lengths vertices) (length lengths.old)) }
    ensures lengths_after { lengths.new ≡ lengths_after (size_check 4096 vertices) (breaks_lengths vertices) lengths.old }
{
    refusal::result_number(lengths::polygon_breaks(vertices, lengths))
}

pub fn geopotential_basin_kernel_lengths(lmax: usize, nodes: usize, lengths: &mut [usize]) -> u32
    ensures value { result ≡ result_number (lengths_check (kernel_sizes lmax nodes) (kernel_lengths lmax nodes) (length lengths.old)) }
    ensures lengths_after { lengths.new ≡ lengths_after (kernel_sizes lmax nodes) (kernel_lengths lmax nodes) lengths.old }
{
    refusal::result_number(lengths::basin_kernel(lmax, nodes, lengths))
}
