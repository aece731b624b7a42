// Replays what document 01's table of refusals says of model files (cases.rt): for each call a line, how many of its refusals, and of the places that it
// changes in the lists lent to it, are those due. The reader's cases are damaged copies of a file without a date and of one with a date.
#![tactic(auto)]

mod cases;

ghost use Rattle.std.specs.Prelude.{◌≤◌, length};

use coefficients::TideSystem;
use model_file::FileHead;
use replay_cases::{
    MARK_BYTE, MARK_WORD, Seen, byte, joined, of_result, room, size, touched_bytes, touched_words,
    within,
};
use std::io;
use std::io::Stdout;

// How many bytes are kept of the file and of what stands behind it.
fn kept(case: &[u64]) -> usize
    ensures { result ≤ 77 }
{
    within(case, 0, 77)
}

// The file with two bytes changed.
fn damaged(file: &[u8; 77], case: &[u64]) -> [u8; 77] {
    let mut bytes = *file;
    bytes[within(case, 1, 76)] = byte(case, 2);
    bytes[within(case, 3, 76)] = byte(case, 4);
    bytes
}

// A copy's length, two places and bytes, and the lengths of c and s.
fn read(case: &[u64], bytes: &[u8], x: &mut [u64], y: &mut [u64]) -> u64
    requires { (77 ≤ length bytes.now) × (64 ≤ length x.old) × (64 ≤ length y.old) }
{
    let k = kept(case);
    let a = room(case, 5);
    let b = room(case, 6);
    of_result(model_file::read(&bytes[..k], &mut x[..a], &mut y[..b]))
}

fn see_read(file: &[u8; 77], case: &[u64]) -> Seen {
    let bytes = damaged(file, case);
    let mut x = [MARK_WORD; 64];
    let mut y = [MARK_WORD; 64];
    let number = read(case, &bytes, &mut x, &mut y);
    Seen {
        number,
        touched: joined(touched_words(&x), touched_words(&y), 0, 0),
    }
}

// By the head alone, and by the whole file without lists.
fn head(case: &[u64], bytes: &[u8]) -> u64
    requires { 77 ≤ length bytes.now }
{
    let k = kept(case);
    of_result(model_file::head(&bytes[..k]))
}

fn verdict(case: &[u64], bytes: &[u8]) -> u64
    requires { 77 ≤ length bytes.now }
{
    let k = kept(case);
    of_result(model_file::verdict(&bytes[..k]))
}

fn see_verdict(file: &[u8; 77], case: &[u64]) -> Seen {
    let bytes = damaged(file, case);
    Seen {
        number: head(case, &bytes),
        touched: verdict(case, &bytes),
    }
}

// N, and the lengths of c, s and of the output.
fn write(date: Option<i32>, case: &[u64], list: &[u64], out: &mut [u8]) -> u64
    requires { (64 ≤ length list.now) × (64 ≤ length out.old) }
{
    let a = room(case, 1);
    let b = room(case, 2);
    let k = room(case, 3);
    let file = FileHead {
        gm: 1,
        radius: 2,
        tide: TideSystem::MeanTide,
        date,
        nmax: size(case, 0),
    };
    of_result(model_file::write(file, &list[..a], &list[..b], &mut out[..k]))
}

fn see_write(date: Option<i32>, case: &[u64]) -> Seen {
    let list = [3u64; 64];
    let mut out = [MARK_BYTE; 64];
    let number = write(date, case, &list, &mut out);
    Seen {
        number,
        touched: touched_bytes(&out),
    }
}

// All cases of a call, eight columns each.
fn print<F: Fn(&[u64]) -> Seen>(
    stdout: Stdout,
    name: &[u8],
    see: F,
    cases: &[u64],
    due: &[u64],
) -> io::Result<()>
    requires see { F.IsAlwaysCallable see }
    requires lengths { (length name.now ≤ 80) × ((length cases.now ≤ 800) × (length due.now ≤ 200)) }
{
    replay_cases::print_cases(stdout, name, 8, see, cases, due)
}

fn main(rt: HostRuntime) -> io::Result<()> {
    let stdout = rt.stdout();
    replay_cases::control(stdout)?;
    print(
        stdout,
        b"read ",
        |case| see_read(&cases::READ_FILE, case),
        &cases::READ,
        &cases::READ_DUE,
    )?;
    print(
        stdout,
        b"head and verdict ",
        |case| see_verdict(&cases::READ_FILE, case),
        &cases::READ,
        &cases::READ_VERDICT_DUE,
    )?;
    print(
        stdout,
        b"read, other copies with short lists ",
        |case| see_read(&cases::READ_FILE, case),
        &cases::READ_TOO_SHORT,
        &cases::READ_TOO_SHORT_DUE,
    )?;
    print(
        stdout,
        b"read of a dated file ",
        |case| see_read(&cases::READ_DATED_FILE, case),
        &cases::READ_DATED,
        &cases::READ_DATED_DUE,
    )?;
    print(
        stdout,
        b"head and verdict of a dated file ",
        |case| see_verdict(&cases::READ_DATED_FILE, case),
        &cases::READ_DATED,
        &cases::READ_DATED_VERDICT_DUE,
    )?;
    print(
        stdout,
        b"read of a dated file, other copies with short lists ",
        |case| see_read(&cases::READ_DATED_FILE, case),
        &cases::READ_DATED_TOO_SHORT,
        &cases::READ_DATED_TOO_SHORT_DUE,
    )?;
    print(
        stdout,
        b"write ",
        |case| see_write(None, case),
        &cases::WRITE,
        &cases::WRITE_DUE,
    )?;
    print(
        stdout,
        b"write of a dated model ",
        |case| see_write(Some(-5), case),
        &cases::WRITE_DATED,
        &cases::WRITE_DATED_DUE,
    )
}
