// The stable falling ranking of a list of keys, by merging: runs of one key, of two, of four, and so on, so that k keys take about k log k
// comparisons.
#![tactic(auto)]

ghost use Rattle.std.specs.Prelude.{◌≡◌, ◌+◌, ◌-◌, ◌≤◌, ◌<◌, length, get_or};
ghost use Rattle.std.proofs.Math.Seq.{slice};
ghost use Rattle.std.specs.Float.{nan};
ghost use Rattle.number.specs.Ranking.{merge};
ghost use Rattle.storage.specs.Elements.{from};
ghost use Rattle.storage.specs.Filled.{Filled};
ghost use Rattle.storage.specs.Rectangle.{by_rows};
ghost use Rattle.ranking.specs.Places.{key_before, ranked_places, rising};
ghost use Rattle.ranking.specs.Merging.{Next};
ghost use Rattle.ranking.specs.Runs.{place_in, ranked_run};

// Where the next place stands, and what is left of the two runs after it.
#[derive(Clone, Copy)]
pub struct Taken {
    pub at: usize,
    pub i: usize,
    pub j: usize,
}

// The next of two runs that are merged: of equals the one of the first run.
fn next(i: usize, mid: usize, j: usize, hi: usize, keys: &[f64], src: &[u16]) -> Taken
    requires fact_1 { i ≤ mid }
    requires fact_2 { mid ≤ j }
    requires fact_3 { j ≤ hi }
    requires fact_4 { hi ≤ length src.now }
    requires fact_5 { i + j < mid + hi }
    ensures { Next (key_before keys.now) src.now i mid j hi result.at result.i result.j }
{
    if i == mid {
        return Taken { at: j, i, j: j + 1 };
    }
    if j == hi {
        return Taken { at: i, i: i + 1, j };
    }
    let first = usize::from(src[i]);
    let second = usize::from(src[j]);
    if number::ranks_before(
        number::element_or_nan(keys, second),
        number::element_or_nan(keys, first),
    ) {
        return Taken { at: j, i, j: j + 1 };
    }
    Taken { at: i, i: i + 1, j }
}

// The runs lo .. mid and mid .. hi of places, merged.
fn merge_runs(lo: usize, mid: usize, hi: usize, keys: &[f64], src: &[u16], dst: &mut [u16])
    requires fact_1 { lo ≤ mid }
    requires fact_2 { mid ≤ hi }
    requires fact_3 { hi ≤ length src.now }
    requires fact_4 { hi ≤ length dst.old }
    ensures { Filled lo
        (from 0 (merge (key_before keys.now) (slice lo mid src.now) (slice mid hi src.now)) 0)
        (hi - lo) dst.old dst.new }
{
    let mut i = lo;
    let mut j = mid;
    for k in lo..hi {
        let taken = next(i, mid, j, hi, keys, src);
        let at = taken.at;
        dst[k] = src[at];
        i = taken.i;
        j = taken.j;
    }
}

// Runs of `width` places, each ranked, merged two by two.
fn pass(width: usize, keys: &[f64], src: &[u16], dst: &mut [u16])
    requires le_width_1 { 1 ≤ width }
    requires le_width_2 { width ≤ 4294967296 }
    requires le_width_3 { length keys.now ≤ 65536 }
    requires le_width_4 { length keys.now ≤ length src.now }
    requires le_width_5 { length keys.now ≤ length dst.old }
    requires filled { Filled 0 (by_rows (ranked_run keys.now width) width) (length keys.now) src.now src.now }
    ensures { Filled 0 (by_rows (ranked_run keys.now (width + width)) (width + width)) (length keys.now)
        dst.old dst.new }
{
    let n = keys.len();
    let both = width + width;
    for lo in (0..n).step_by(both) {
        let mid = storage::smaller(n, lo + width);
        let hi = storage::smaller(n, lo + both);
        merge_runs(lo, mid, hi, keys, src, dst);
    }
}

// The places as they stand.
fn count_up(n: usize, places: &mut [u16])
    requires fact_1 { n ≤ 65536 }
    requires fact_2 { n ≤ length places.old }
    ensures { Filled 0 place_in n places.old places.new }
{
    for i in 0..n {
        places[i] = i as u16;
    }
}

// The places of the keys in the order of their rank; `spare` is overwritten. A place takes 16 bits, so that lists of places fit a small stack.
pub fn rank(keys: &[f64], places: &mut [u16], spare: &mut [u16])
    requires fact_1 { length keys.now ≤ 65536 }
    requires fact_2 { length keys.now ≤ length places.old }
    requires fact_3 { length keys.now ≤ length spare.old }
    ensures filled { Filled 0 (from 0 (ranked_places keys.now) 0) (length keys.now) places.old places.new }
    ensures spare_len_unchanged { length spare.new ≡ length spare.old }
{
    let n = keys.len();
    count_up(n, places);
    let mut width = 1;
    // the width grows by a factor: no range has such steps
    while width < n {
        // two passes a turn, so that the places end where they began
        pass(width, keys, places, spare);
        pass(width + width, keys, spare, places);
        width = 4 * width;
    }
}

// The key that has i keys below it, by the ranked places: keys that rank equal are equal, so that the falling ranking rises when it is read from its
// end.
pub fn rising_at(i: usize, keys: &[f64], places: &[u16]) -> f64
    requires fact_1 { i < length keys.now }
    requires fact_2 { length keys.now ≤ 65536 }
    requires fact_3 { length keys.now ≤ length places.now }
    requires fact_4 { Filled 0 (from 0 (ranked_places keys.now) 0) (length keys.now) places.now places.now }
    ensures { result ≡ get_or (rising keys.now) i nan }
{
    let last = keys.len() - (i + 1);
    let place = usize::from(places[last]);
    keys[place]
}
