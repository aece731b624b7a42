// The edges of an outline, and where a circle of colatitude crosses them.
ghost use Rattle.std.specs.Prelude.{◌≡◌, ◌+◌, ◌≤◌, ◌<◌, length};
ghost use Rattle.std.specs.Float.{nan};
ghost use Rattle.storage.specs.Elements.{from};
ghost use Rattle.storage.specs.Filled.{Filled};
ghost use Rattle.polygon.specs.Outline.{longitude_at, colatitude_at, following, straddles, crossing_of, crosses, crossing, crossings};
ghost use Rattle.polygon.specs.PickedLaws.{Counted, Written};

// The vertex after i.
fn following(v: usize, i: usize) -> usize
    requires { i < v }
    ensures fact_1 { result ≡ following v i }
    ensures fact_2 { result < v }
{
    if i + 1 == v { 0 } else { i + 1 }
}

fn longitude(i: usize, outline: &[f64]) -> f64
    requires { i + i + 1 < length outline.now }
    ensures { result ≡ longitude_at outline.now i }
{
    outline[i + i]
}

pub(crate) fn colatitude(i: usize, outline: &[f64]) -> f64
    requires { i + i + 1 < length outline.now }
    ensures { result ≡ colatitude_at outline.now i }
{
    1.5707963267948966 - outline[i + i + 1]
}

// Whether the edge between two colatitudes crosses theta. The product is rounded before it is compared.
fn straddles(theta: f64, first: f64, second: f64) -> bool
    ensures { result ≡ straddles theta first second }
{
    (first - theta) * (second - theta) < 0.0
}

fn crosses(v: usize, i: usize, theta: f64, outline: &[f64]) -> bool
    requires fact_1 { i < v }
    requires fact_2 { length outline.now ≡ v + v }
    ensures { result ≡ crosses v outline.now theta i }
{
    let j = following(v, i);
    straddles(theta, colatitude(i, outline), colatitude(j, outline))
}

// The longitude where the edge from (l0, c0) to (l1, c1) does.
fn crossing_of(theta: f64, l0: f64, c0: f64, l1: f64, c1: f64) -> f64
    ensures { result ≡ crossing_of theta l0 c0 l1 c1 }
{
    l0 + (l1 - l0) * (theta - c0) / (c1 - c0)
}

fn crossing(v: usize, i: usize, theta: f64, outline: &[f64]) -> f64
    requires fact_1 { i < v }
    requires fact_2 { length outline.now ≡ v + v }
    ensures { result ≡ crossing v outline.now theta i }
{
    let j = following(v, i);
    crossing_of(
        theta,
        longitude(i, outline),
        colatitude(i, outline),
        longitude(j, outline),
        colatitude(j, outline),
    )
}

// One crossing more where edge i crosses theta.
fn count_edge(v: usize, i: usize, k: usize, theta: f64, outline: &[f64]) -> usize
    requires fact_1 { i < v }
    requires fact_2 { length outline.now ≡ v + v }
    requires fact_3 { k ≤ i }
    requires fact_4 { v ≤ 4096 }
    ensures { Counted (crosses v outline.now theta) (crossing v outline.now theta) i k result }
{
    if crosses(v, i, theta, outline) {
        return k + 1;
    }
    k
}

// How many edges cross theta.
pub(crate) fn count_crossings(v: usize, theta: f64, outline: &[f64]) -> usize
    requires fact_1 { length outline.now ≡ v + v }
    requires fact_2 { v ≤ 4096 }
    ensures fact_1 { result ≡ length (crossings v outline.now theta) }
    ensures fact_2 { result ≤ v }
{
    let mut k = 0;
    for i in 0..v {
        k = count_edge(v, i, k, theta, outline);
    }
    k
}

// The crossing of edge i put behind the k crossings before it, where it has one.
fn write_edge(v: usize, i: usize, k: usize, theta: f64, outline: &[f64], list: &mut [f64]) -> usize
    requires fact_1 { i < v }
    requires fact_2 { length outline.now ≡ v + v }
    requires fact_3 { k ≤ i }
    requires fact_4 { v ≤ 4096 }
    requires fact_5 { v ≤ length list.old }
    ensures { Written (crosses v outline.now theta) (crossing v outline.now theta) i k result
        list.old list.new }
{
    if crosses(v, i, theta, outline) {
        list[k] = crossing(v, i, theta, outline);
        return k + 1;
    }
    k
}

// The crossings in the order of the edges, at the front of a list.
pub(crate) fn write_crossings(v: usize, theta: f64, outline: &[f64], list: &mut [f64])
    requires fact_1 { length outline.now ≡ v + v }
    requires fact_2 { v ≤ 4096 }
    requires fact_3 { v ≤ length list.old }
    ensures { Filled 0 (from 0 (crossings v outline.now theta) nan) (length (crossings v outline.now theta))
        list.old list.new }
{
    let mut k = 0;
    for i in 0..v {
        k = write_edge(v, i, k, theta, outline, list);
    }
}
