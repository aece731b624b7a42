// Basins drawn as polygons: where a circle of colatitude runs inside an outline, and the colatitudes of its vertices, between which it is integrated.
#![tactic(auto)]

mod colatitudes;
mod edges;
mod ends;

ghost use Rattle.std.specs.Prelude.{◌≡◌, ◌*◌, ◌/◌, length};
ghost use Rattle.std.specs.Float.{nan};
ghost use Rattle.refusal.specs.Numbers.{after, behind, outcome, result_number, value_if};
ghost use Rattle.storage.specs.Elements.{from};
ghost use Rattle.storage.specs.Fill.{fill};
ghost use Rattle.polygon.specs.Outline.{crossings, intervals_of, breaks_of};
ghost use Rattle.polygon.specs.Checks.{vertices_check, outline_check};

use refusal::Refusal;

// The most vertices of an outline.
pub const MAX_VERTICES: usize = 4096;

// SIZE of the count of vertices, LENGTH of their list, SPACE of the working list.
fn vertices_check(v: usize, outline: usize, work: usize) -> Result<(), Refusal>
    ensures { result ≡ vertices_check v outline work }
{
    if v > MAX_VERTICES {
        return Err(Refusal::Size);
    }
    if outline != v + v {
        return Err(Refusal::Length);
    }
    if work < v {
        return Err(Refusal::Space);
    }
    Ok(())
}

// The longitude intervals inside the outline of v vertices at colatitude theta, each its western end and its eastern; answers how many there are. Only
// the first v numbers of the working list are overwritten, and none where the call is refused.
pub fn intervals(
    v: usize,
    outline: &[f64],
    theta: f64,
    work: &mut [f64],
    out: &mut [f64],
) -> Result<usize, Refusal>
    ensures value { result ≡ value_if
        (outline_check v (length outline.now) (length work.old) (length out.old)
        (length (intervals_of v outline.now theta)))
        (length (crossings v outline.now theta) / 2) }
    ensures out_after { out.new ≡ after (outcome result)
        (fill 0 (from 0 (intervals_of v outline.now theta) nan) (length (intervals_of v outline.now theta)) out.old)
        out.old }
    ensures work_unchanged_1 { behind (outcome result) v work.new ≡ behind (outcome result) v work.old }
    ensures work_unchanged_2 { length work.new ≡ length work.old }
{
    vertices_check(v, outline.len(), work.len())?;
    let k = edges::count_crossings(v, theta, outline);
    if out.len() < k / 2 * 2 {
        return Err(Refusal::Space);
    }
    ends::compute(v, k, theta, outline, work, out);
    Ok(k / 2)
}

// The breaks of the outline of v vertices: its vertices' colatitudes, rising, each once but NaN as often as it stands; answers how many there are. The working list is left as it was.
pub fn breaks(
    v: usize,
    outline: &[f64],
    work: &mut [f64],
    out: &mut [f64],
) -> Result<usize, Refusal>
    ensures value { result ≡ value_if
        (outline_check v (length outline.now) (length work.old) (length out.old)
        (length (breaks_of v outline.now)))
        (length (breaks_of v outline.now)) }
    ensures out_after { out.new ≡ after (outcome result)
        (fill 0 (from 0 (breaks_of v outline.now) nan) (length (breaks_of v outline.now)) out.old)
        out.old }
    ensures work_unchanged { work.new ≡ work.old }
{
    vertices_check(v, outline.len(), work.len())?;
    colatitudes::compute(v, outline, out)
}
