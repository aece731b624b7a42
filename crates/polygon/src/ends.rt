// The ends of the intervals: the crossings, ranked rising.
ghost use Rattle.std.specs.Prelude.{◌+◌, ◌*◌, ◌/◌, ◌≤◌, ◌<◌, length};
ghost use Rattle.std.specs.Float.{nan};
ghost use Rattle.storage.specs.Elements.{from};
ghost use Rattle.storage.specs.Filled.{Filled};
ghost use Rattle.ranking.specs.Places.{ranked_places, rising};
ghost use Rattle.polygon.specs.Outline.{crossings};
ghost use Rattle.polygon.specs.EndsLaws.{EndsIn, EndsMade};

// The n lowest of the keys, rising, at the front of a list, by the ranked places.
fn write_rising(n: usize, keys: &[f64], places: &[u16], out: &mut [f64])
    requires fact_1 { n ≤ length keys.now }
    requires fact_2 { length keys.now ≤ 4096 }
    requires fact_3 { length keys.now ≤ length places.now }
    requires fact_4 { n ≤ length out.old }
    requires fact_5 { Filled 0 (from 0 (ranked_places keys.now) 0) (length keys.now) places.now places.now }
    ensures { Filled 0 (from 0 (rising keys.now) nan) n out.old out.new }
{
    for i in 0..n {
        out[i] = ranking::rising_at(i, keys, places);
    }
}

// The same, from the keys alone; the places are overwritten.
fn rank_rising(n: usize, keys: &[f64], places: &mut [u16], spare: &mut [u16], out: &mut [f64])
    requires fact_1 { n ≤ length keys.now }
    requires fact_2 { length keys.now ≤ 4096 }
    requires fact_3 { length keys.now ≤ length places.old }
    requires fact_4 { length keys.now ≤ length spare.old }
    requires fact_5 { n ≤ length out.old }
    ensures { Filled 0 (from 0 (rising keys.now) nan) n out.old out.new }
{
    ranking::rank(keys, places, spare);
    write_rising(n, keys, places, out);
}

// The ends of the intervals; k edges cross theta.
fn write_ends(
    v: usize,
    k: usize,
    theta: f64,
    outline: &[f64],
    places: &mut [u16],
    spare: &mut [u16],
    work: &mut [f64],
    out: &mut [f64],
)
    requires fact_1 { EndsIn v k theta outline.now (length work.old) (length out.old) }
    requires fact_2 { k ≤ length places.old }
    requires fact_3 { k ≤ length spare.old }
    ensures { EndsMade v theta outline.now work.old work.new out.old out.new }
{
    crate::edges::write_crossings(v, theta, outline, work);
    rank_rising(k / 2 * 2, &work[..k], places, spare, out);
}

// Few crossings, in short arrays: an array is cleared before it is used.
fn compute_short(v: usize, k: usize, theta: f64, outline: &[f64], work: &mut [f64], out: &mut [f64])
    requires { (EndsIn v k theta outline.now (length work.old) (length out.old)) × (k ≤ 32) }
    ensures { EndsMade v theta outline.now work.old work.new out.old out.new }
{
    let mut places = [0u16; 32];
    let mut spare = [0u16; 32];
    write_ends(v, k, theta, outline, &mut places, &mut spare, work, out);
}

// Any number of crossings.
fn compute_long(v: usize, k: usize, theta: f64, outline: &[f64], work: &mut [f64], out: &mut [f64])
    requires { EndsIn v k theta outline.now (length work.old) (length out.old) }
    ensures { EndsMade v theta outline.now work.old work.new out.old out.new }
{
    let mut places = [0u16; 4096];
    let mut spare = [0u16; 4096];
    write_ends(v, k, theta, outline, &mut places, &mut spare, work, out);
}

// The ends of the intervals, where k edges cross theta.
pub(crate) fn compute(
    v: usize,
    k: usize,
    theta: f64,
    outline: &[f64],
    work: &mut [f64],
    out: &mut [f64],
)
    requires { EndsIn v k theta outline.now (length work.old) (length out.old) }
    ensures { EndsMade v theta outline.now work.old work.new out.old out.new }
{
    if k <= 32 {
        compute_short(v, k, theta, outline, work, out);
        return;
    }
    compute_long(v, k, theta, outline, work, out);
}
