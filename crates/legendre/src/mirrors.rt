// A table for the negated sine of the latitude, from the table for the sine, in its own list: signs change and nothing else.
ghost use Rattle.std.specs.Prelude.{◌≡◌, ◌+◌, ◌≤◌, ◌<◌, length};
ghost use Rattle.std.specs.Float.{nan};
ghost use Rattle.refusal.specs.Numbers.{after};
ghost use Rattle.storage.specs.Elements.{from};
ghost use Rattle.storage.specs.Fill.{fill};
ghost use Rattle.storage.specs.Filled.{Filled};
ghost use Rattle.storage.specs.Triangle.{table_size, along};
ghost use Rattle.legendre.specs.Checks.{mirror_check};
ghost use Rattle.legendre.specs.Mirrored.{mirrored_row, mirrored};

use refusal::Refusal;

// Row n, from index `at` on: every other sign turns, those of the orders m for which n - m + shift is odd.
fn mirror_row(n: usize, shift: usize, at: usize, table: &mut [f64])
    requires fact_1 { n ≤ 2700 }
    requires fact_2 { shift ≤ 1 }
    requires fact_3 { at + n < length table.old }
    ensures { Filled at (mirrored_row shift n (from at table.old nan)) (n + 1) table.old table.new }
{
    let first = (n + shift + 1) % 2;
    for pair in 0..(n + 2 - first) / 2 {
        let m = first + 2 * pair;
        table[at + m] = -table[at + m];
    }
}

// All rows up to degree nmax.
fn mirror_rows(nmax: usize, shift: usize, table: &mut [f64])
    requires fact_1 { nmax ≤ 2700 }
    requires fact_2 { shift ≤ 1 }
    requires fact_3 { table_size nmax ≤ length table.old }
    ensures { Filled 0 (along (mirrored shift table.old)) (table_size nmax) table.old table.new }
{
    let mut at = 0;
    for n in 0..nmax + 1 {
        mirror_row(n, shift, at, table);
        at = at + n + 1;
    }
}

// The table, where its checks are passed: SIZE, and LENGTH of the one list, which is read too.
pub(crate) fn mirror_by(nmax: usize, shift: usize, table: &mut [f64]) -> Result<(), Refusal>
    requires { shift ≤ 1 }
    ensures value { result ≡ mirror_check nmax (length table.old) }
    ensures table_after { table.new ≡ after result (fill 0 (along (mirrored shift table.old)) (table_size nmax) table.old) table.old }
{
    if nmax > storage::MAX_DEGREE {
        return Err(Refusal::Size);
    }
    if table.len() != storage::table_size(nmax) {
        return Err(Refusal::Length);
    }
    mirror_rows(nmax, shift, table);
    Ok(())
}
