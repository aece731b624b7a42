// Gauss–Legendre quadrature: the roots of P_n by Newton's method, their weights, and the symmetry about 0.
ghost use Rattle.std.specs.Prelude.{◌≡◌, ◌+◌, ◌-◌, ◌≤◌, ◌<◌, length};
ghost use Rattle.std.specs.Float.{nan};
ghost use Rattle.storage.specs.Elements.{from};
ghost use Rattle.storage.specs.Filled.{Filled};
ghost use Rattle.quadrature.specs.Gauss.{legendre, corrected, unless_settled, start, legendre_root, weight_of, upper_node, upper_weight, lower_node};
ghost use Rattle.quadrature.specs.Gauss.{mirror_from, lower_from};
ghost use Rattle.quadrature.specs.GaussLaws.{FourStored};

// P_(n−1) and P_n at one place.
#[derive(Clone, Copy)]
struct Polynomials {
    p0: f64,
    p1: f64,
}

// The same at four places.
#[derive(Clone, Copy)]
struct FourPolynomials {
    a: Polynomials,
    b: Polynomials,
    c: Polynomials,
    d: Polynomials,
}

// A root of P_n while Newton's method corrects it: the root so far, P_n' where the last correction began, whether that correction was small
// enough to be the last, and how many there were. All stand in either case, so this is no Option.
#[derive(Clone, Copy)]
struct Newton {
    z: f64,
    dp: f64,
    settled: bool,
    count: usize,
}

// Four roots.
#[derive(Clone, Copy)]
struct FourRoots {
    a: Newton,
    b: Newton,
    c: Newton,
    d: Newton,
}

// Four numbers.
#[derive(Clone, Copy)]
struct Four {
    a: f64,
    b: f64,
    c: f64,
    d: f64,
}

// P_(n−1) and P_n at z. For n = 1 they are 1 and z, with which the recursion begins.
fn legendre_pair(n: usize, z: f64) -> Polynomials
    requires { n ≤ 2701 }
    ensures { result ≡ legendre n z }
{
    let mut p0 = 1.0;
    let mut p1 = z;
    for k in 2..n + 1 {
        let next = ((2 * k - 1) as f64 * z * p1 - (k - 1) as f64 * p0) / k as f64;
        p0 = p1;
        p1 = next;
    }
    Polynomials { p0, p1 }
}

// The same at four places. Each recursion is a chain of operations that wait for each other; four chains side by side take the time of one.
fn four_pairs(n: usize, za: f64, zb: f64, zc: f64, zd: f64) -> FourPolynomials
    requires { n ≤ 2701 }
    ensures fact_1 { result.a ≡ legendre n za }
    ensures fact_2 { result.b ≡ legendre n zb }
    ensures fact_3 { result.c ≡ legendre n zc }
    ensures fact_4 { result.d ≡ legendre n zd }
{
    let mut a0 = 1.0;
    let mut b0 = 1.0;
    let mut c0 = 1.0;
    let mut d0 = 1.0;
    let mut a1 = za;
    let mut b1 = zb;
    let mut c1 = zc;
    let mut d1 = zd;
    for k in 2..n + 1 {
        let odd = (2 * k - 1) as f64;
        let less = (k - 1) as f64;
        let kf = k as f64;
        let a = (odd * za * a1 - less * a0) / kf;
        let b = (odd * zb * b1 - less * b0) / kf;
        let c = (odd * zc * c1 - less * c0) / kf;
        let d = (odd * zd * d1 - less * d0) / kf;
        a0 = a1;
        b0 = b1;
        c0 = c1;
        d0 = d1;
        a1 = a;
        b1 = b;
        c1 = c;
        d1 = d;
    }
    FourPolynomials {
        a: Polynomials { p0: a0, p1: a1 },
        b: Polynomials { p0: b0, p1: b1 },
        c: Polynomials { p0: c0, p1: c1 },
        d: Polynomials { p0: d0, p1: d1 },
    }
}

// One correction of a root, from P_(n−1) and P_n at it.
fn correct(n: usize, s: Newton, p0: f64, p1: f64) -> Newton
    requires fact_1 { n ≤ 2701 }
    requires fact_2 { s.count < 100 }
    ensures { result ≡ corrected n s p0 p1 }
{
    let z = s.z;
    let dp = n as f64 * (z * p1 - p0) / (z * z - 1.0);
    let step = p1 / dp;
    Newton {
        z: z - step,
        dp,
        settled: number::magnitude(step) <= 1e-16,
        count: s.count + 1,
    }
}

// The same, where the root has not settled yet.
fn correct_unless_settled(n: usize, s: Newton, p: Polynomials) -> Newton
    requires fact_1 { n ≤ 2701 }
    requires fact_2 { s.count < 100 }
    ensures { result ≡ unless_settled n s p.p0 p.p1 }
{
    if s.settled {
        return s;
    }
    correct(n, s, p.p0, p.p1)
}

// Newton's method before its first correction.
fn start(guess: f64) -> Newton
    ensures { result ≡ start guess }
{
    Newton {
        z: guess,
        dp: 0.0,
        settled: false,
        count: 0,
    }
}

// The root that at most 100 corrections reach from a guess.
fn legendre_root(n: usize, guess: f64) -> Newton
    requires { n ≤ 2701 }
    ensures { result ≡ legendre_root n guess }
{
    let mut s = start(guess);
    for _k in 0..100usize {
        if s.settled {
            return s;
        }
        let p = legendre_pair(n, s.z);
        s = correct(n, s, p.p0, p.p1);
    }
    s
}

// The roots from four guesses, side by side: one that has settled waits for the others.
fn four_roots(n: usize, za: f64, zb: f64, zc: f64, zd: f64) -> FourRoots
    requires { n ≤ 2701 }
    ensures fact_1 { result.a ≡ legendre_root n za }
    ensures fact_2 { result.b ≡ legendre_root n zb }
    ensures fact_3 { result.c ≡ legendre_root n zc }
    ensures fact_4 { result.d ≡ legendre_root n zd }
{
    let mut a = start(za);
    let mut b = start(zb);
    let mut c = start(zc);
    let mut d = start(zd);
    for _k in 0..100usize {
        if a.settled && b.settled && c.settled && d.settled {
            return FourRoots { a, b, c, d };
        }
        let p = four_pairs(n, a.z, b.z, c.z, d.z);
        let pa = p.a;
        let pb = p.b;
        let pc = p.c;
        let pd = p.d;
        a = correct_unless_settled(n, a, pa);
        b = correct_unless_settled(n, b, pb);
        c = correct_unless_settled(n, c, pc);
        d = correct_unless_settled(n, d, pd);
    }
    FourRoots { a, b, c, d }
}

// The weight of a root z, with the derivative P_n' that its last correction had.
fn weight(z: f64, dp: f64) -> f64
    ensures { result ≡ weight_of z dp }
{
    2.0 / ((1.0 - z * z) * dp * dp)
}

// The weights of four roots.
fn four_weights(r: FourRoots) -> Four
    ensures { (result.a ≡ weight_of r.a.z r.a.dp) × ((result.b ≡ weight_of r.b.z r.b.dp) × ((result.c ≡ weight_of r.c.z r.c.dp) × (result.d ≡ weight_of r.d.z r.d.dp))) }
{
    Four {
        a: weight(r.a.z, r.a.dp),
        b: weight(r.b.z, r.b.dp),
        c: weight(r.c.z, r.c.dp),
        d: weight(r.d.z, r.d.dp),
    }
}

// Stores four numbers from index `at` on.
fn store_four(at: usize, v: Four, list: &mut [f64])
    requires { at + 3 < length list.old }
    ensures { FourStored at v.a v.b v.c v.d list.old list.new }
{
    list[at] = v.a;
    list[at + 1] = v.b;
    list[at + 2] = v.c;
    list[at + 3] = v.d;
}

// The four roots from index `at` on and their weights.
fn four_at(n: usize, at: usize, guesses: &[f64], x: &mut [f64], w: &mut [f64])
    requires fact_1 { n ≤ 2701 }
    requires fact_2 { at + 3 < length guesses.now }
    requires fact_3 { at + 3 < length x.old }
    requires fact_4 { at + 3 < length w.old }
    ensures filled { Filled at (upper_node (from at guesses.now nan) n) 4 x.old x.new }
    ensures filled_2 { Filled at (upper_weight (from at guesses.now nan) n) 4 w.old w.new }
{
    let r = four_roots(
        n,
        guesses[at],
        guesses[at + 1],
        guesses[at + 2],
        guesses[at + 3],
    );
    let z = Four {
        a: r.a.z,
        b: r.b.z,
        c: r.c.z,
        d: r.d.z,
    };
    store_four(at, z, x);
    store_four(at, four_weights(r), w);
}

// The roots and their weights, by fours as far as four guesses are left; answers how many there are.
fn by_fours(n: usize, half: usize, guesses: &[f64], x: &mut [f64], w: &mut [f64]) -> usize
    requires fact_1 { n ≤ 2701 }
    requires fact_2 { half ≤ length guesses.now }
    requires fact_3 { half ≤ length x.old }
    requires fact_4 { half ≤ length w.old }
    ensures upper_bound { result ≤ half }
    ensures filled { Filled 0 (upper_node (from 0 guesses.now nan) n) result x.old x.new }
    ensures filled_2 { Filled 0 (upper_weight (from 0 guesses.now nan) n) result w.old w.new }
{
    let blocks = half / 4;
    for block in 0..blocks {
        four_at(n, 4 * block, guesses, x, w);
    }
    4 * blocks
}

// The roots and their weights from index `at` on, one by one.
fn one_by_one(n: usize, at: usize, half: usize, guesses: &[f64], x: &mut [f64], w: &mut [f64])
    requires fact_1 { n ≤ 2701 }
    requires fact_2 { at ≤ half }
    requires fact_3 { half ≤ length guesses.now }
    requires fact_4 { half ≤ length x.old }
    requires fact_5 { half ≤ length w.old }
    ensures filled { Filled at (upper_node (from at guesses.now nan) n) (half - at) x.old x.new }
    ensures filled_2 { Filled at (upper_weight (from at guesses.now nan) n) (half - at) w.old w.new }
{
    for i in 0..half - at {
        let r = legendre_root(n, guesses[at + i]);
        x[at + i] = r.z;
        w[at + i] = weight(r.z, r.dp);
    }
}

// The roots of the upper half, the largest first, and their weights.
pub fn upper_half(n: usize, half: usize, guesses: &[f64], x: &mut [f64], w: &mut [f64])
    requires fact_1 { n ≤ 2701 }
    requires fact_2 { half ≤ length guesses.now }
    requires fact_3 { half ≤ length x.old }
    requires fact_4 { half ≤ length w.old }
    ensures filled { Filled 0 (upper_node (from 0 guesses.now nan) n) half x.old x.new }
    ensures filled_2 { Filled 0 (upper_weight (from 0 guesses.now nan) n) half w.old w.new }
{
    let at = by_fours(n, half, guesses, x, w);
    one_by_one(n, at, half, guesses, x, w);
}

// The front of a list, mirrored into the indices from `half` to n − 1.
pub fn mirror(n: usize, half: usize, list: &mut [f64])
    requires fact_1 { n ≤ half + half }
    requires fact_2 { n ≤ length list.old }
    requires fact_3 { half ≤ n }
    ensures { Filled half (mirror_from n half list.old) (n - half) list.old list.new }
{
    for i in 0..n - half {
        list[half + i] = list[n - 1 - (half + i)];
    }
}

// Node j of the lower half from its mirror image: its negative, and +0 in the middle of an odd rule.
fn lower_node(n: usize, j: usize, z: f64) -> f64
    requires { j ≤ 2701 }
    ensures { result ≡ lower_node n j z }
{
    if j + j + 1 == n { 0.0 } else { -z }
}

// The nodes of the lower half, where their mirror images stand.
pub fn lower_half(n: usize, half: usize, x: &mut [f64])
    requires fact_1 { half ≤ 2701 }
    requires fact_2 { half ≤ length x.old }
    ensures { Filled 0 (lower_from n x.old) half x.old x.new }
{
    for j in 0..half {
        x[j] = lower_node(n, j, x[j]);
    }
}
