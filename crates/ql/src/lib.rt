// The implicit QL iteration with Wilkinson shifts on a symmetric tridiagonal matrix: d is its diagonal, e has the numbers beside it, and q is
// multiplied by the rotations. It is held column by column, so that the columns that are rotated are runs of the storage.
#![tactic(auto)]

ghost use Rattle.std.specs.Prelude.{◌≡◌, ◌&&◌, ℕ, ◌+◌, ◌≤◌, ◌<◌, length};
ghost use Rattle.matrix.specs.Layout.{Kept, Room};
ghost use Rattle.ql.specs.Ql.{chase, state, coupled, signed, ratio, shifted, start, next, rotate_by, rotate_at, rotations, closed, round, rounds, iteration};
ghost use Rattle.ql.specs.QlLaws.{BlockEnd, Lists, held, Became, Closed, Rounded, Counted};

use matrix::Convergence;

// The last rotation of a round, as the cosine c and the sine s, with what the next one needs.
#[derive(Clone, Copy, Debug, PartialEq)]
pub struct Rotation {
    pub s: f64,
    pub c: f64,
    pub p: f64,
    pub g: f64,
}

// Whether the number beside the diagonal at m counts.
fn coupled(m: usize, d: &[f64], e: &[f64]) -> bool
    requires fact_1 { m + 1 < length d.now }
    requires fact_2 { m < length e.now }
    ensures { result ≡ coupled d.now e.now m }
{
    2.220446049250313e-16 * (number::magnitude(d[m]) + number::magnitude(d[m + 1]))
        < number::magnitude(e[m])
}

// The end of the block that begins at l.
fn block_end(n: usize, l: usize, d: &[f64], e: &[f64]) -> usize
    requires fact_1 { l < n }
    requires fact_2 { length d.now ≡ n }
    requires fact_3 { length e.now ≡ n }
    ensures { BlockEnd n l d.now e.now result }
{
    for m in l..n - 1 {
        if !coupled(m, d, e) {
            return m;
        }
    }
    n - 1
}

// r with the sign of g.
fn signed(g: f64, r: f64) -> f64
    ensures { result ≡ signed g r }
{
    if 0.0 <= g { r } else { -r }
}

fn ratio(l: usize, d: &[f64], e: &[f64]) -> f64
    requires fact_1 { l + 1 < length d.now }
    requires fact_2 { l < length e.now }
    ensures { result ≡ ratio l d.now e.now }
{
    (d[l + 1] - d[l]) / (2.0 * e[l])
}

// The last number of the block, less Wilkinson's shift.
fn shifted(l: usize, m: usize, g: f64, d: &[f64], e: &[f64]) -> f64
    requires fact_1 { l < length d.now }
    requires fact_2 { m < length d.now }
    requires fact_3 { l < length e.now }
    ensures { result ≡ shifted l m g d.now e.now }
{
    d[m] - d[l] + e[l] / (g + signed(g, number::hypot(g, 1.0)))
}

// Before the first rotation.
fn start(g: f64) -> Rotation
    ensures { result ≡ start g }
{
    Rotation {
        s: 1.0,
        c: 1.0,
        p: 0.0,
        g,
    }
}

// The rotation that follows x.
fn next(x: Rotation, lower: f64, upper: f64, f: f64, b: f64, r: f64) -> Rotation
    ensures { result ≡ next x lower upper f b r }
{
    let s = f / r;
    let c = x.g / r;
    let h = (lower - (upper - x.p)) * s + 2.0 * c * b;
    Rotation {
        s,
        c,
        p: s * h,
        g: c * h - b,
    }
}

// The rotation of i and i + 1 where the size r is not zero; else the round breaks off.
fn rotate_by(
    n: usize,
    m: usize,
    i: usize,
    r: f64,
    f: f64,
    b: f64,
    x: Rotation,
    d: &mut [f64],
    e: &mut [f64],
    q: &mut [f64],
) -> Option<Rotation>
    requires fact_1 { Lists n d.old e.old q.old }
    requires fact_2 { i < m }
    requires fact_3 { m < n }
    ensures { Became n (rotate_by n m i r f b (held n d.old e.old q.old) x) q.old
        d.new e.new q.new result }
{
    let upper = d[i + 1];
    if r == 0.0 {
        d[i + 1] = upper - x.p;
        e[m] = 0.0;
        return None;
    }
    let lower = d[i];
    let y = next(x, lower, upper, f, b, r);
    d[i + 1] = upper - x.p + y.p;
    matrix::rotate_rows(q, n, i, i + 1, y.c, y.s);
    Some(y)
}

// The next rotation of a round, of i and i + 1.
fn rotate_at(
    n: usize,
    m: usize,
    i: usize,
    x: Rotation,
    d: &mut [f64],
    e: &mut [f64],
    q: &mut [f64],
) -> Option<Rotation>
    requires fact_1 { Lists n d.old e.old q.old }
    requires fact_2 { i < m }
    requires fact_3 { m < n }
    ensures { Became n (rotate_at n m i (chase (held n d.old e.old q.old) (Some x))) q.old
        d.new e.new q.new result }
{
    let beside = e[i];
    let f = x.s * beside;
    let b = x.c * beside;
    let r = number::hypot(f, x.g);
    e[i + 1] = r;
    rotate_by(n, m, i, r, f, b, x, d, e, q)
}

// The rotations from m - 1 down to l; None where the round breaks off.
fn rotations(
    n: usize,
    l: usize,
    m: usize,
    first: Rotation,
    d: &mut [f64],
    e: &mut [f64],
    q: &mut [f64],
) -> Option<Rotation>
    requires fact_1 { Lists n d.old e.old q.old }
    requires fact_2 { m < n }
    ensures { Became n (rotations n l m (chase (held n d.old e.old q.old) (Some first))) q.old
        d.new e.new q.new result }
{
    let mut x = first;
    for i in (l..m).rev() {
        x = rotate_at(n, m, i, x, d, e, q)?;
    }
    Some(x)
}

// The numbers at l after a round that did not break off, and zero beside the diagonal at m.
fn close(n: usize, l: usize, m: usize, x: Rotation, d: &mut [f64], e: &mut [f64])
    requires fact_1 { length d.old ≡ n }
    requires fact_2 { length e.old ≡ n }
    requires fact_3 { l < n }
    requires fact_4 { m < n }
    ensures { Closed l m (Some x) d.old e.old d.new e.new }
{
    d[l] = d[l] - x.p;
    e[l] = x.g;
    e[m] = 0.0;
}

// One round on the block l .. m.
fn round(n: usize, l: usize, m: usize, d: &mut [f64], e: &mut [f64], q: &mut [f64])
    requires fact_1 { Lists n d.old e.old q.old }
    requires fact_2 { l < m }
    requires fact_3 { m < n }
    ensures { Rounded n (round n l m (held n d.old e.old q.old)) q.old
        d.new e.new q.new }
{
    let g = shifted(l, m, ratio(l, d, e), d, e);
    if let Some(x) = rotations(n, l, m, start(g), d, e, q) {
        close(n, l, m, x, d, e);
    }
}

// At most 100 rounds for l, counted on from `done`.
fn rounds(
    n: usize,
    l: usize,
    done: usize,
    d: &mut [f64],
    e: &mut [f64],
    q: &mut [f64],
) -> Convergence
    requires fact_1 { Lists n d.old e.old q.old }
    requires fact_2 { l < n }
    requires fact_3 { done ≤ 1000000 }
    ensures fact_1 { Counted n (rounds n l (held n d.old e.old q.old) done) q.old
        d.new e.new q.new result.count result.settled }
    ensures fact_2 { result.count ≤ done + 100 }
{
    for k in 0..100 {
        let m = block_end(n, l, d, e);
        if m == l {
            return Convergence {
                settled: true,
                count: done + k,
            };
        }
        round(n, l, m, d, e, q);
    }
    Convergence {
        settled: false,
        count: done + 100,
    }
}

fn both(a: bool, b: bool) -> bool
    ensures { result ≡ a && b }
{
    if a { b } else { false }
}

// The iteration: d becomes the eigenvalues.
pub fn iterate(n: usize, d: &mut [f64], e: &mut [f64], q: &mut [f64]) -> Convergence
    requires { Lists n d.old e.old q.old }
    ensures { Counted n (iteration n (held n d.old e.old q.old)) q.old
        d.new e.new q.new result.count result.settled }
{
    let mut done: usize = 0;
    let mut settled = true;
    for l in 0..n {
        let r = rounds(n, l, done, d, e, q);
        done = r.count;
        settled = both(settled, r.settled);
    }
    Convergence {
        settled,
        count: done,
    }
}
