// Triangular storage of a table over degree n and order m: row n holds the orders 0 to n, and the rows follow each other.
#![tactic(auto)]

ghost use Rattle.std.specs.Prelude.{◌≡◌, ℕ, ◌+◌, ◌≤◌, min, length};
ghost use Rattle.storage.specs.Answers.{size_of, place_of};
ghost use Rattle.storage.specs.Elements.{zero_at};
ghost use Rattle.storage.specs.Filled.{Filled};
ghost use Rattle.storage.specs.Lanes.{lane};
ghost use Rattle.storage.specs.Checks.{space_check, room_check, tables_check, outputs_check, entry_answer};
ghost use Rattle.refusal.specs.Numbers.{result_number};

use refusal::Refusal;

// The highest degree of a table.
pub const MAX_DEGREE: usize = 2700;

// The number of entries of a table up to degree nmax: (nmax + 1)(nmax + 2) / 2, and 0 above the highest degree.
pub fn table_size(nmax: usize) -> usize
    ensures { result ≡ size_of nmax }
{
    if nmax > MAX_DEGREE {
        return 0;
    }
    (nmax + 1) * (nmax + 2) / 2
}

// The index of degree n and order m in a table up to degree nmax: n(n + 1) / 2 + m, where m <= n <= nmax.
pub fn place(nmax: usize, n: usize, m: usize) -> Result<usize, Refusal>
    ensures { result ≡ place_of nmax n m }
{
    if nmax > MAX_DEGREE {
        return Err(Refusal::Size);
    }
    if n > nmax {
        return Err(Refusal::Place);
    }
    if m > n {
        return Err(Refusal::Place);
    }
    Ok(n * (n + 1) / 2 + m)
}

// The entry of degree n and order m of a table up to degree nmax.
pub fn entry(nmax: usize, table: &[f64], n: usize, m: usize) -> Result<f64, Refusal>
    ensures { result ≡ entry_answer nmax table.now n m }
{
    if nmax > MAX_DEGREE {
        return Err(Refusal::Size);
    }
    if table.len() != table_size(nmax) {
        return Err(Refusal::Length);
    }
    let k = place(nmax, n, m)?;
    Ok(table[k])
}

// Eight numbers that are worked out side by side.
#[derive(Clone, Copy)]
pub struct Eight {
    pub a: f64,
    pub b: f64,
    pub c: f64,
    pub d: f64,
    pub e: f64,
    pub f: f64,
    pub g: f64,
    pub h: f64,
}

// Eight numbers, stored from index `at` on.
pub fn store_eight(at: usize, v: Eight, out: &mut [f64])
    requires { at + 8 ≤ length out.old }
    ensures { Filled at (lane v.a v.b v.c v.d v.e v.f v.g v.h) 8 out.old out.new }
{
    out[at] = v.a;
    out[at + 1] = v.b;
    out[at + 2] = v.c;
    out[at + 3] = v.d;
    out[at + 4] = v.e;
    out[at + 5] = v.f;
    out[at + 6] = v.g;
    out[at + 7] = v.h;
}

// +0 at the first `size` indices.
pub fn clear(size: usize, list: &mut [f64])
    requires { size ≤ length list.old }
    ensures { Filled 0 zero_at size list.old list.new }
{
    for i in 0..size {
        list[i] = 0.0;
    }
}

// ---- the checks, over the lengths of the lists
// SPACE: two lists, one of them shorter than size.
fn space_check(size: usize, a: usize, b: usize) -> Result<(), Refusal>
    ensures { result ≡ space_check size a b }
{
    if a < size {
        return Err(Refusal::Space);
    }
    if b < size {
        return Err(Refusal::Space);
    }
    Ok(())
}

// SIZE, and SPACE for two tables.
pub fn room_check(nmax: usize, a: usize, b: usize) -> Result<(), Refusal>
    ensures { result ≡ room_check nmax a b }
{
    if nmax > MAX_DEGREE {
        return Err(Refusal::Size);
    }
    space_check(table_size(nmax), a, b)
}

// SIZE, and LENGTH of the two tables.
pub fn tables_check(nmax: usize, clen: usize, slen: usize) -> Result<(), Refusal>
    ensures { result ≡ tables_check nmax clen slen }
{
    if nmax > MAX_DEGREE {
        return Err(Refusal::Size);
    }
    let size = table_size(nmax);
    if clen != size {
        return Err(Refusal::Length);
    }
    if slen != size {
        return Err(Refusal::Length);
    }
    Ok(())
}

// The same, and SPACE for two tables up to degree top.
#[tactic(auto, unfolding(crate::specs::Checks::outputs_check))]
pub fn outputs_check(
    nmax: usize,
    clen: usize,
    slen: usize,
    top: usize,
    a: usize,
    b: usize,
) -> Result<(), Refusal>
    ensures { result ≡ outputs_check nmax clen slen top a b }
{
    tables_check(nmax, clen, slen)?;
    space_check(table_size(top), a, b)
}

// The smaller of two degrees.
pub fn smaller(a: usize, b: usize) -> usize
    ensures { result ≡ min a b }
{
    if a < b { a } else { b }
}
