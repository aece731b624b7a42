// What the calls are made of.
ghost use Rattle.std.specs.Prelude.{◌≡◌, ◌*◌, ◌≤◌, Ok};
ghost use Rattle.lengths.specs.Told.{size_check, Told, Entries};
ghost use Rattle.lengths.specs.Lengths.{degree_size, along_sizes, tables_lengths, point_lengths, points_lengths, one_length, eigen_lengths};

use refusal::Refusal;

// The entries of a table up to degree nmax.
pub fn entries(nmax: usize) -> usize
    requires { nmax ≤ 2700 }
    ensures { Entries nmax result }
{
    storage::table_size(nmax)
}

// The product of two sizes.
pub fn product(a: usize, b: usize) -> usize
    requires fact_1 { a ≤ 65535 }
    requires fact_2 { b ≤ 65535 }
    ensures fact_1 { result ≡ a * b }
    ensures fact_2 { result ≤ 4294836225 }
{
    a * b
}

// Stores the lengths at the front of a list; SPACE where it has not room for them.
pub fn tell(told: &[usize], lengths: &mut [usize]) -> Result<(), Refusal>
    ensures { Told (Ok tt) told.now result lengths.old lengths.new }
{
    if lengths.len() < told.len() {
        return Err(Refusal::Space);
    }
    for i in 0..told.len() {
        lengths[i] = told[i];
    }
    Ok(())
}

// Tells the lengths of `count` tables, four at most.
pub fn tables(count: usize, nmax: usize, lengths: &mut [usize]) -> Result<(), Refusal>
    requires { count ≤ 4 }
    ensures { Told (degree_size nmax) (tables_lengths count nmax) result lengths.old lengths.new }
{
    if nmax > storage::MAX_DEGREE {
        return Err(Refusal::Size);
    }
    let size = entries(nmax);
    let told = [size, size, size, size];
    tell(&told[..count], lengths)
}

// Tells the lengths of the lists of a call for one point: so many tables of the working list, and so many numbers of the output.
pub fn point(
    tables: usize,
    numbers: usize,
    nmax: usize,
    lengths: &mut [usize],
) -> Result<(), Refusal>
    requires { tables ≤ 5 }
    ensures { Told (degree_size nmax) (point_lengths tables numbers nmax) result lengths.old lengths.new }
{
    if nmax > storage::MAX_DEGREE {
        return Err(Refusal::Size);
    }
    let size = entries(nmax);
    let told = [size, size, nmax + nmax + 2, tables * size, numbers];
    tell(&told, lengths)
}

// The same for many points, with so many numbers of the output each.
pub fn points(
    tables: usize,
    numbers: usize,
    nmax: usize,
    points: usize,
    lengths: &mut [usize],
) -> Result<(), Refusal>
    requires fact_1 { tables ≤ 5 }
    requires fact_2 { numbers ≤ 10 }
    ensures { Told (along_sizes nmax points) (points_lengths tables numbers nmax points) result lengths.old lengths.new }
{
    if points > point_lists::MAX_POINTS {
        return Err(Refusal::Size);
    }
    if nmax > storage::MAX_DEGREE {
        return Err(Refusal::Size);
    }
    let size = entries(nmax);
    let trig = product(points, nmax + nmax + 2);
    let told = [
        size,
        size,
        points,
        points + points,
        trig,
        tables * size,
        numbers * points,
    ];
    tell(&told, lengths)
}

// Tells the length of the one list of a call that takes no size.
pub fn one(numbers: usize, lengths: &mut [usize]) -> Result<(), Refusal>
    ensures { Told (Ok tt) (one_length numbers) result lengths.old lengths.new }
{
    let told = [numbers];
    tell(&told, lengths)
}

// Tells the lengths of the lists of the two eigenvalue calls.
pub fn matrices(n: usize, lengths: &mut [usize]) -> Result<(), Refusal>
    ensures { Told (size_check 512 n) (eigen_lengths n) result lengths.old lengths.new }
{
    if n > linalg::MAX_ROWS {
        return Err(Refusal::Size);
    }
    let size = product(n, n);
    let told = [size, size + 4 * n, n, size];
    tell(&told, lengths)
}
