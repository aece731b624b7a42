// The breaks: the colatitudes where an outline has a vertex, each once. How many there are is known only when they are ranked, and a refusal writes to
// no lent list: they are ranked in arrays.
ghost use Rattle.std.specs.Prelude.{◌≡◌, ◌+◌, ◌≤◌, ◌<◌, length};
ghost use Rattle.std.specs.Float.{nan};
ghost use Rattle.refusal.specs.Numbers.{after, outcome, value_if};
ghost use Rattle.storage.specs.Elements.{from};
ghost use Rattle.storage.specs.Fill.{fill};
ghost use Rattle.storage.specs.Filled.{Filled};
ghost use Rattle.ranking.specs.Places.{ranked_places, rising};
ghost use Rattle.polygon.specs.Picked.{picked_before};
ghost use Rattle.polygon.specs.PickedLaws.{Counted, Written};
ghost use Rattle.polygon.specs.Outline.{colatitude_at, is_first, number_at, distinct, breaks_of};
ghost use Rattle.polygon.specs.Checks.{room_for};

use refusal::Refusal;

// The vertices' colatitudes, at the front of a list.
fn write_colatitudes(v: usize, outline: &[f64], keys: &mut [f64])
    requires fact_1 { length outline.now ≡ v + v }
    requires fact_2 { v ≤ length keys.old }
    ensures { Filled 0 (colatitude_at outline.now) v keys.old keys.new }
{
    for i in 0..v {
        keys[i] = crate::edges::colatitude(i, outline);
    }
}

// Whether number i of the rising keys does not equal the one before it.
fn is_first(i: usize, keys: &[f64], places: &[u16]) -> bool
    requires fact_1 { i < length keys.now }
    requires fact_2 { length keys.now ≤ 4096 }
    requires fact_3 { length keys.now ≤ length places.now }
    requires fact_4 { Filled 0 (from 0 (ranked_places keys.now) 0) (length keys.now) places.now places.now }
    ensures { result ≡ is_first (rising keys.now) i }
{
    if i == 0 {
        return true;
    }
    if ranking::rising_at(i - 1, keys, places) == ranking::rising_at(i, keys, places) {
        return false;
    }
    true
}

// One more where number i is the first of its equals.
fn count_first(i: usize, k: usize, keys: &[f64], places: &[u16]) -> usize
    requires fact_1 { i < length keys.now }
    requires fact_2 { length keys.now ≤ 4096 }
    requires fact_3 { length keys.now ≤ length places.now }
    requires fact_4 { k ≤ i }
    requires fact_5 { Filled 0 (from 0 (ranked_places keys.now) 0) (length keys.now) places.now places.now }
    ensures { Counted (is_first (rising keys.now)) (number_at (rising keys.now)) i k result }
{
    if is_first(i, keys, places) {
        return k + 1;
    }
    k
}

// How many numbers the keys are, of those that are equal one.
fn count_distinct(keys: &[f64], places: &[u16]) -> usize
    requires fact_1 { length keys.now ≤ 4096 }
    requires fact_2 { length keys.now ≤ length places.now }
    requires fact_3 { Filled 0 (from 0 (ranked_places keys.now) 0) (length keys.now) places.now places.now }
    ensures { result ≡ length (distinct (rising keys.now)) }
{
    let n = keys.len();
    let mut k = 0;
    for i in 0..n {
        k = count_first(i, k, keys, places);
    }
    k
}

// Number i put behind the k before it, where it is the first of its equals.
fn write_first(i: usize, k: usize, keys: &[f64], places: &[u16], out: &mut [f64]) -> usize
    requires i_in_bounds_1 { i < length keys.now }
    requires i_in_bounds_2 { length keys.now ≤ 4096 }
    requires i_in_bounds_3 { length keys.now ≤ length places.now }
    requires i_in_bounds_4 { Filled 0 (from 0 (ranked_places keys.now) 0) (length keys.now) places.now places.now }
    requires k_le_i_1 { k ≤ i }
    requires k_le_i_2 { k ≡ length (picked_before (is_first (rising keys.now)) (number_at (rising keys.now)) i) }
    requires k_le_i_3 { length (picked_before (is_first (rising keys.now)) (number_at (rising keys.now)) (i + 1)) ≤ length out.old }
    ensures { Written (is_first (rising keys.now)) (number_at (rising keys.now)) i k result
        out.old out.new }
{
    if is_first(i, keys, places) {
        out[k] = ranking::rising_at(i, keys, places);
        return k + 1;
    }
    k
}

// The numbers, of equals the first, at the front of a list.
fn write_distinct(keys: &[f64], places: &[u16], out: &mut [f64])
    requires fact_1 { length keys.now ≤ 4096 }
    requires fact_2 { length keys.now ≤ length places.now }
    requires fact_3 { Filled 0 (from 0 (ranked_places keys.now) 0) (length keys.now) places.now places.now }
    requires fact_4 { length (distinct (rising keys.now)) ≤ length out.old }
    ensures { Filled 0 (from 0 (distinct (rising keys.now)) nan) (length (distinct (rising keys.now)))
        out.old out.new }
{
    let n = keys.len();
    let mut k = 0;
    for i in 0..n {
        k = write_first(i, k, keys, places, out);
    }
}

// The same, refused where the list is too short; answers how many there are. The places are overwritten.
fn rank_distinct(
    keys: &[f64],
    places: &mut [u16],
    spare: &mut [u16],
    out: &mut [f64],
) -> Result<usize, Refusal>
    requires fact_1 { length keys.now ≤ 4096 }
    requires fact_2 { length keys.now ≤ length places.old }
    requires fact_3 { length keys.now ≤ length spare.old }
    ensures value { result ≡ value_if (room_for (length out.old) (length (distinct (rising keys.now))))
        (length (distinct (rising keys.now))) }
    ensures out_after { out.new ≡ after (outcome result)
        (fill 0 (from 0 (distinct (rising keys.now)) nan) (length (distinct (rising keys.now))) out.old)
        out.old }
{
    ranking::rank(keys, places, spare);
    let k = count_distinct(keys, places);
    if out.len() < k {
        return Err(Refusal::Space);
    }
    write_distinct(keys, places, out);
    Ok(k)
}

// All steps, in lists that are overwritten.
fn breaks_in(
    v: usize,
    outline: &[f64],
    keys: &mut [f64],
    places: &mut [u16],
    spare: &mut [u16],
    out: &mut [f64],
) -> Result<usize, Refusal>
    requires fact_1 { length outline.now ≡ v + v }
    requires fact_2 { v ≤ 4096 }
    requires fact_3 { v ≤ length keys.old }
    requires fact_4 { v ≤ length places.old }
    requires fact_5 { v ≤ length spare.old }
    ensures value { result ≡ value_if (room_for (length out.old) (length (breaks_of v outline.now)))
        (length (breaks_of v outline.now)) }
    ensures out_after { out.new ≡ after (outcome result)
        (fill 0 (from 0 (breaks_of v outline.now) nan) (length (breaks_of v outline.now)) out.old)
        out.old }
{
    write_colatitudes(v, outline, keys);
    rank_distinct(&keys[..v], places, spare, out)
}

// Few vertices, in short arrays.
fn compute_short(v: usize, outline: &[f64], out: &mut [f64]) -> Result<usize, Refusal>
    requires { (length outline.now ≡ v + v) × (v ≤ 64) }
    ensures value { result ≡ value_if (room_for (length out.old) (length (breaks_of v outline.now)))
        (length (breaks_of v outline.now)) }
    ensures out_after { out.new ≡ after (outcome result)
        (fill 0 (from 0 (breaks_of v outline.now) nan) (length (breaks_of v outline.now)) out.old)
        out.old }
{
    let mut keys = [0.0; 64];
    let mut places = [0u16; 64];
    let mut spare = [0u16; 64];
    breaks_in(v, outline, &mut keys, &mut places, &mut spare, out)
}

// Any number of vertices.
fn compute_long(v: usize, outline: &[f64], out: &mut [f64]) -> Result<usize, Refusal>
    requires fact_1 { length outline.now ≡ v + v }
    requires fact_2 { v ≤ 4096 }
    ensures value { result ≡ value_if (room_for (length out.old) (length (breaks_of v outline.now)))
        (length (breaks_of v outline.now)) }
    ensures out_after { out.new ≡ after (outcome result)
        (fill 0 (from 0 (breaks_of v outline.now) nan) (length (breaks_of v outline.now)) out.old)
        out.old }
{
    let mut keys = [0.0; 4096];
    let mut places = [0u16; 4096];
    let mut spare = [0u16; 4096];
    breaks_in(v, outline, &mut keys, &mut places, &mut spare, out)
}

// The breaks of an outline that is accepted.
pub(crate) fn compute(v: usize, outline: &[f64], out: &mut [f64]) -> Result<usize, Refusal>
    requires { (length outline.now ≡ v + v) × (v ≤ 4096) }
    ensures value { result ≡ value_if (room_for (length out.old) (length (breaks_of v outline.now)))
        (length (breaks_of v outline.now)) }
    ensures out_after { out.new ≡ after (outcome result)
        (fill 0 (from 0 (breaks_of v outline.now) nan) (length (breaks_of v outline.now)) out.old)
        out.old }
{
    if v <= 64 {
        return compute_short(v, outline, out);
    }
    compute_long(v, outline, out)
}
