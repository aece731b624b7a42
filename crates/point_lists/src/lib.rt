// The lists of the calls for points: the checks of their sizes, and the tables at the front of the working list.
#![tactic(auto)]

ghost use Rattle.std.specs.Prelude.{◌≡◌, ℕ, ◌+◌, ◌≤◌, ◌<◌, length};
ghost use Rattle.storage.specs.Triangle.{table_size};
ghost use Rattle.local.specs.Point.{point_check_of, along_check_of};
ghost use Rattle.point_lists.specs.Tables.{with_weights};

use refusal::Refusal;

// The most points of a call.
pub const MAX_POINTS: usize = 65535;

// SIZE, LENGTH and SPACE of a call for one point that may use so many tables of its working list, over the lengths of the lists.
pub fn point_check(
    tables: usize,
    nmax: usize,
    clen: usize,
    slen: usize,
    trig: usize,
    work: usize,
) -> Result<(), Refusal>
    requires { tables ≤ 5 }
    ensures { result ≡ point_check_of tables nmax clen slen trig work }
{
    storage::tables_check(nmax, clen, slen)?;
    if trig != nmax + nmax + 2 {
        return Err(Refusal::Length);
    }
    if work < tables * clen {
        return Err(Refusal::Space);
    }
    Ok(())
}

// The same for many points, with so many numbers of the output each.
pub fn along_check(
    tables: usize,
    numbers: usize,
    nmax: usize,
    clen: usize,
    slen: usize,
    points: usize,
    radii: usize,
    lats: usize,
    trig: usize,
    work: usize,
    out: usize,
) -> Result<(), Refusal>
    requires fact_1 { tables ≤ 5 }
    requires fact_2 { numbers ≤ 10 }
    ensures { result ≡ along_check_of tables numbers nmax clen slen points radii lats trig work out }
{
    if points > MAX_POINTS {
        return Err(Refusal::Size);
    }
    storage::tables_check(nmax, clen, slen)?;
    if radii != points {
        return Err(Refusal::Length);
    }
    if lats != points + points {
        return Err(Refusal::Length);
    }
    if trig != points * (nmax + nmax + 2) {
        return Err(Refusal::Length);
    }
    if work < tables * clen {
        return Err(Refusal::Space);
    }
    if out < numbers * points {
        return Err(Refusal::Space);
    }
    Ok(())
}

// The tables of the recursion, then the weights of the derivative; `guesses` is overwritten.
pub fn tables(nmax: usize, total: usize, guesses: &mut [f64], work: &mut [f64])
    requires fact_1 { nmax ≤ 2700 }
    requires fact_2 { total ≡ table_size nmax }
    requires fact_3 { nmax + nmax + 1 < length guesses.old }
    requires fact_4 { total + total + total ≤ length work.old }
    ensures { work.new ≡ with_weights nmax work.old }
{
    recursion::tables_by(nmax, total, guesses, work);
    let at = total + total;
    derivative::weights_rows(nmax, guesses, &mut work[at..]);
}
