// The C entries for model files, each on the sizes and lengths of a case.
ghost use Rattle.std.specs.Prelude.{◌≤◌, length};

use crate::cases;
use crate::entries::enum_number;
use geopotential::files::{geopotential_model_read, geopotential_model_write};
use replay_cases::{
    MARK_BYTE, MARK_WORD, Seen, byte, column, joined, room, size, touched_bytes, touched_words,
    within,
};

// The length kept of the file, and the lengths of c, s and of the head.
fn read(case: &[u64], bytes: &[u8], x: &mut [u64], y: &mut [u64], z: &mut [u64]) -> u64
    requires { (76 ≤ length bytes.now) × (64 ≤ length x.old) × (64 ≤ length y.old) × (64 ≤ length z.old) }
{
    let k = within(case, 0, 76);
    let a = room(case, 2);
    let b = room(case, 3);
    let h = room(case, 4);
    geopotential_model_read(&bytes[..k], &mut x[..a], &mut y[..b], &mut z[..h]) as u64
}

// The file without a date, or where column 5 has a 1 the one with a date.
fn file(case: &[u64]) -> [u8; 76] {
    if column(case, 5) == 1 {
        cases::DATED_FILE
    } else {
        cases::FILE
    }
}

// The same with a tide.
fn damaged(case: &[u64]) -> [u8; 76] {
    let mut bytes = file(case);
    bytes[17] = byte(case, 1);
    bytes
}

pub fn see_read(case: &[u64]) -> Seen {
    let bytes = damaged(case);
    let mut x = [MARK_WORD; 64];
    let mut y = [MARK_WORD; 64];
    let mut z = [MARK_WORD; 64];
    let number = read(case, &bytes, &mut x, &mut y, &mut z);
    Seen {
        number,
        touched: joined(touched_words(&x), touched_words(&y), touched_words(&z), 0),
    }
}

// N, the tide, the lengths of c, s and of the bytes, and `dated`; there is always a day count, which none but a dated file has.
fn write(case: &[u64], list: &[u64], out: &mut [u8]) -> u64
    requires { (64 ≤ length list.now) × (64 ≤ length out.old) }
{
    let nmax = size(case, 0);
    let tide = enum_number(case, 1);
    let a = room(case, 2);
    let b = room(case, 3);
    let k = room(case, 4);
    let dated = enum_number(case, 5);
    geopotential_model_write(
        1,
        2,
        tide,
        dated,
        -5,
        nmax,
        &list[..a],
        &list[..b],
        &mut out[..k],
    ) as u64
}

pub fn see_write(case: &[u64]) -> Seen {
    let list = [3u64; 64];
    let mut out = [MARK_BYTE; 64];
    let number = write(case, &list, &mut out);
    Seen {
        number,
        touched: touched_bytes(&out),
    }
}
