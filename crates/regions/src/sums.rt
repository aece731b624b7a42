// What one node adds to the lower half of the matrix, row by row, its diagonal included. Within a degree the places of the basis are the places of the
// longitude factors, so that each row is added to in runs.
ghost use Rattle.std.specs.Prelude.{◌≡◌, ◌+◌, ◌*◌, ◌≤◌, ◌<◌, length};
ghost use Rattle.storage.specs.Filled.{Filled};
ghost use Rattle.storage.specs.Rectangle.{by_rows};
ghost use Rattle.region_nodes.specs.Basis.{basis_size};
ghost use Rattle.region_nodes.specs.Regions.{integrals};
ghost use Rattle.regions.specs.Sums.{added_run, added_row, added_cell, NextPlace};

// x times a run of the functions, from index `first` on, times a run of the products, from index `row` on, added to the numbers of d from index `at` on.
fn add_run(
    count: usize,
    x: f64,
    first: usize,
    row: usize,
    at: usize,
    functions: &[f64],
    products: &[f64],
    d: &mut [f64],
)
    requires fact_1 { first + count ≤ length functions.now }
    requires fact_2 { row + count ≤ length products.now }
    requires fact_3 { at + count ≤ length d.old }
    ensures { Filled at (added_run x first row at functions.now products.now d.old) count
        d.old d.new }
{
    for r in 0..count {
        d[at + r] = d[at + r] + x * functions[first + r] * products[row + r];
    }
}

// The row of place a of degree l, from index `at` on: its numbers up to the diagonal. Its products start at index `row`.
fn add_row(
    lmax: usize,
    l: usize,
    a: usize,
    x: f64,
    row: usize,
    at: usize,
    functions: &[f64],
    products: &[f64],
    d: &mut [f64],
)
    requires lmax_bound_1 { lmax ≤ 21 }
    requires lmax_bound_2 { l ≤ lmax }
    requires lmax_bound_3 { a ≤ l + l }
    requires lmax_bound_4 { l * l + a < length functions.now }
    requires lmax_bound_5 { row + (l + l) < length products.now }
    requires a_in_bounds { at + (l * l + a) < length d.old }
    ensures { Filled at (added_row lmax x row at functions.now products.now d.old) (l * l + a + 1)
        d.old d.new }
{
    let mut first = 0;
    for k in 0..l {
        add_run(k + k + 1, x, first, row, at + first, functions, products, d);
        first = first + k + k + 1;
    }
    add_run(a + 1, x, first, row, at + first, functions, products, d);
}

// A place of the basis: place a of degree l.
#[derive(Clone, Copy)]
pub struct Place {
    pub l: usize,
    pub a: usize,
}

// The place after another.
fn next_place(l: usize, a: usize) -> Place
    requires { (l ≤ 21) × (a ≤ l + l) }
    ensures { NextPlace l a result.l result.a }
{
    if a < l + l {
        return Place { l, a: a + 1 };
    }
    Place { l: l + 1, a: 0 }
}

// All rows of the n by n matrix d, for a node with this weight. There are `width` products in a row of the products.
pub fn add_node(
    lmax: usize,
    n: usize,
    width: usize,
    weight: f64,
    functions: &[f64],
    products: &[f64],
    d: &mut [f64],
)
    requires lmax_bound_1 { lmax ≤ 21 }
    requires lmax_bound_2 { n ≡ basis_size lmax }
    requires lmax_bound_3 { width ≡ integrals lmax }
    requires lmax_bound_4 { n ≤ length functions.now }
    requires lmax_bound_5 { width * width ≤ length products.now }
    requires n_in_bounds { n * n ≤ length d.old }
    ensures { Filled 0 (by_rows (added_cell lmax n weight functions.now products.now d.old) n) (n * n)
        d.old d.new }
{
    let mut l = 0;
    let mut a = 0;
    for i in 0..n {
        let x = weight * functions[i];
        add_row(
            lmax,
            l,
            a,
            x,
            matrix::row(width, a),
            matrix::row(n, i),
            functions,
            products,
            d,
        );
        let next = next_place(l, a);
        l = next.l;
        a = next.a;
    }
}
