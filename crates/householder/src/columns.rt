// The product of a vector and a matrix that is held column by column.
ghost use Rattle.std.specs.Prelude.{◌+◌, ◌≤◌, length};
ghost use Rattle.storage.specs.Filled.{Filled};
ghost use Rattle.matrix.specs.Layout.{Room};
ghost use Rattle.householder.specs.Columns.{plus_multiple, plus_four, columns_product};

// p plus x times the run of w from index `at` on.
fn add_multiple(n: usize, at: usize, x: f64, w: &[f64], p: &mut [f64])
    requires fact_1 { at + n ≤ length w.now }
    requires fact_2 { n ≤ length p.old }
    ensures { Filled 0 (plus_multiple at x w.now p.old) n p.old p.new }
{
    for i in 0..n {
        p[i] = p[i] + w[at + i] * x;
    }
}

// p plus four neighbouring runs, the first from index `at` on, each times its number: one pass over p for four columns.
fn add_four(n: usize, at: usize, x0: f64, x1: f64, x2: f64, x3: f64, w: &[f64], p: &mut [f64])
    requires fact_1 { at + n + n + n + n ≤ length w.now }
    requires fact_2 { n ≤ length p.old }
    ensures { Filled 0 (plus_four n at x0 x1 x2 x3 w.now p.old) n p.old p.new }
{
    let b = at + n;
    let c = b + n;
    let d = c + n;
    for i in 0..n {
        p[i] = p[i] + w[at + i] * x0 + w[b + i] * x1 + w[c + i] * x2 + w[d + i] * x3;
    }
}

// The product of the columns from lo on and v, by fours as far as four columns are left; answers which column is the next.
fn by_fours(n: usize, lo: usize, w: &[f64], v: &[f64], p: &mut [f64]) -> usize
    requires fact_1 { lo ≤ n }
    requires fact_2 { Room n w.now }
    requires fact_3 { n ≤ length v.now }
    requires fact_4 { n ≤ length p.old }
    ensures fact_1 { lo ≤ result }
    ensures fact_2 { result ≤ n }
    ensures fact_3 { Filled 0 (columns_product n lo result w.now v.now) n p.old p.new }
{
    storage::clear(n, p);
    let blocks = (n - lo) / 4;
    for block in 0..blocks {
        let j = lo + 4 * block;
        add_four(
            n,
            matrix::row(n, j),
            v[j],
            v[j + 1],
            v[j + 2],
            v[j + 3],
            w,
            p,
        );
    }
    lo + 4 * blocks
}

// The same product, with the columns from `next` on added one by one to those before them.
fn one_by_one(n: usize, lo: usize, next: usize, w: &[f64], v: &[f64], p: &mut [f64])
    requires lo_le_next_1 { lo ≤ next }
    requires lo_le_next_2 { next ≤ n }
    requires lo_le_next_3 { Room n w.now }
    requires lo_le_next_4 { n ≤ length v.now }
    requires lo_le_next_5 { n ≤ length p.old }
    requires filled { Filled 0 (columns_product n lo next w.now v.now) n p.old p.old }
    ensures { Filled 0 (columns_product n lo n w.now v.now) n p.old p.new }
{
    for j in next..n {
        add_multiple(n, matrix::row(n, j), v[j], w, p);
    }
}

// The product of the columns from lo on and v, in p: each number of it is its own sum, in the order of the columns.
pub fn product(n: usize, lo: usize, w: &[f64], v: &[f64], p: &mut [f64])
    requires fact_1 { lo ≤ n }
    requires fact_2 { Room n w.now }
    requires fact_3 { n ≤ length v.now }
    requires fact_4 { n ≤ length p.old }
    ensures { Filled 0 (columns_product n lo n w.now v.now) n p.old p.new }
{
    let next = by_fours(n, lo, w, v, p);
    one_by_one(n, lo, next, w, v, p);
}
