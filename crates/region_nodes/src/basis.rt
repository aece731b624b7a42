// The functions of the basis. Within a degree they stand in the order 1, cos λ, sin λ, cos 2λ, sin 2λ, ..
ghost use Rattle.std.specs.Prelude.{◌≡◌, ◌+◌, ◌≤◌, ◌<◌, length};
ghost use Rattle.storage.specs.Filled.{Filled};
ghost use Rattle.storage.specs.Triangle.{table_size};
ghost use Rattle.region_nodes.specs.Basis.{basis_size};
ghost use Rattle.region_nodes.specs.Places.{order_in, sine_in};
ghost use Rattle.region_nodes.specs.Nodes.{in_row, by_place};

// The order of the function at place r of its degree.
pub fn order_in(r: usize) -> usize
    requires { r ≤ 42 }
    ensures { result ≡ order_in r }
{
    (r + 1) / 2
}

// Whether it is a sine.
pub fn sine_in(r: usize) -> bool
    ensures { result ≡ sine_in r }
{
    if r == 0 {
        return false;
    }
    r % 2 == 0
}

// P of the functions of one degree l, from index `at` on. The row of l in the table p starts at index `start`.
fn functions_of(l: usize, start: usize, at: usize, p: &[f64], functions: &mut [f64])
    requires fact_1 { l ≤ 21 }
    requires fact_2 { start + l < length p.now }
    requires fact_3 { at + (l + l + 1) ≤ length functions.old }
    ensures { Filled at (in_row start p.now) (l + l + 1) functions.old functions.new }
{
    let count = l + l + 1;
    for r in 0..count {
        functions[at + r] = p[start + order_in(r)];
    }
}

// P of all functions, from the table p.
pub fn functions(lmax: usize, p: &[f64], functions: &mut [f64])
    requires fact_1 { lmax ≤ 21 }
    requires fact_2 { table_size lmax ≤ length p.now }
    requires fact_3 { basis_size lmax ≤ length functions.old }
    ensures { Filled 0 (by_place lmax p.now) (basis_size lmax) functions.old functions.new }
{
    let mut start = 0;
    let mut at = 0;
    for l in 0..lmax + 1 {
        functions_of(l, start, at, p, functions);
        start = start + l + 1;
        at = at + l + l + 1;
    }
}
