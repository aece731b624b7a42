// Reads and writes model files that a writer of its own has made (files.rt), and compares every word and every byte: for each file its head, c and s as
// they are read, the bytes that are written of them, and the bytes that are written of what was read. Each list has two places behind the answer, which
// keep what they hold.
#![tactic(auto)]

mod files;

ghost use Rattle.std.specs.Prelude.{◌≡◌, ◌+◌, ◌≤◌, length};

use model_file::FileHead;
use std::io;
use std::io::Stdout;

// What stands in lists before a call.
const WORD: u64 = 0x5a5a_1234_5a5a_9876;

const BYTE: u8 = 0xa5;

// A head as five words, and from them.
fn words_of(h: FileHead) -> [u64; 5] {
    let tide = h.tide;
    let date = h.date;
    [
        h.gm,
        h.radius,
        replay_cases::tide_number(tide),
        h.nmax as u64,
        replay_cases::date_number(date),
    ]
}

fn head_of(words: &[u64; 5]) -> FileHead {
    FileHead {
        gm: words[0],
        radius: words[1],
        tide: replay_cases::tide_system(words[2]),
        date: replay_cases::date_of(words[4]),
        nmax: words[3] as usize,
    }
}

// The line of the first bytes of a list, as many as `file` has.
fn print_bytes(stdout: Stdout, name: &[u8], bytes: &[u8], file: &[u8]) -> io::Result<()>
    requires fact_1 { length name.now ≤ 80 }
    requires fact_2 { length file.now ≤ length bytes.now }
{
    let k = file.len();
    replay_print::show_bytes(stdout, name, &bytes[..k], file, 0)
}

// The bytes that are written of a head and the first pairs of two lists.
fn print_written(
    stdout: Stdout,
    name: &[u8],
    head: FileHead,
    pairs: usize,
    c: &[u64],
    s: &[u64],
    file: &[u8],
) -> io::Result<()>
    requires fact_1 { length name.now ≤ 80 }
    requires fact_2 { pairs ≤ length c.now }
    requires fact_3 { pairs ≤ length s.now }
    requires fact_4 { length file.now ≤ 200 }
{
    let mut out = [BYTE; 200];
    match model_file::write(head, &c[..pairs], &s[..pairs], &mut out) {
        Err(_) => {
            replay_print::print(stdout, b"write refused\n")?;
        }
        Ok(()) => print_bytes(stdout, name, &out, file)?,
    }
    Ok(())
}

// What was read of a file, and what is due.
fn print_read(
    stdout: Stdout,
    h: FileHead,
    cread: &[u64; 12],
    sread: &[u64; 12],
    head: &[u64; 5],
    c: &[u64],
    s: &[u64],
) -> io::Result<()>
    requires { (length c.now ≤ 12) × (length s.now ≤ 12) }
{
    replay_print::show_words(stdout, b"head ", &words_of(h), head, 0)?;
    replay_cases::print_line(stdout, b"c ", cread, c)?;
    replay_cases::print_line(stdout, b"s ", sread, s)
}

// What is written of what the file holds, and of what was read.
fn print_model(
    stdout: Stdout,
    pairs: usize,
    h: FileHead,
    cread: &[u64; 12],
    sread: &[u64; 12],
    file: &[u8],
    head: &[u64; 5],
    c: &[u64],
    s: &[u64],
) -> io::Result<()>
    requires { (pairs ≤ 10) × ((length file.now ≤ 200) × ((pairs ≤ length c.now) × (pairs ≤ length s.now))) }
{
    print_written(stdout, b"written ", head_of(head), pairs, c, s, file)?;
    print_written(stdout, b"read and written ", h, pairs, cread, sread, file)
}

// A file of T pairs, with two bytes behind it in `file`, and two words behind the T in `c` and in `s`.
fn print_file(
    stdout: Stdout,
    pairs: usize,
    file: &[u8],
    head: &[u64; 5],
    c: &[u64],
    s: &[u64],
) -> io::Result<()>
    requires fact_1 { pairs ≤ 10 }
    requires fact_2 { 2 ≤ length file.now }
    requires fact_3 { length file.now ≤ 200 }
    requires fact_4 { length c.now ≡ pairs + 2 }
    requires fact_5 { length s.now ≡ pairs + 2 }
{
    let bytes = file.len() - 2;
    let mut cread = [WORD; 12];
    let mut sread = [WORD; 12];
    match model_file::read(&file[..bytes], &mut cread, &mut sread) {
        Err(_) => {
            replay_print::print(stdout, b"read refused\n")?;
        }
        Ok(h) => {
            print_read(stdout, h, &cread, &sread, head, c, s)?;
            print_model(stdout, pairs, h, &cread, &sread, file, head, c, s)?;
        }
    }
    Ok(())
}

fn print_undated(stdout: Stdout) -> io::Result<()> {
    print_file(
        stdout,
        1,
        &files::FILE_0,
        &files::HEAD_0,
        &files::C_0,
        &files::S_0,
    )?;
    print_file(
        stdout,
        3,
        &files::FILE_1,
        &files::HEAD_1,
        &files::C_1,
        &files::S_1,
    )?;
    print_file(
        stdout,
        6,
        &files::FILE_2,
        &files::HEAD_2,
        &files::C_2,
        &files::S_2,
    )?;
    print_file(
        stdout,
        10,
        &files::FILE_3,
        &files::HEAD_3,
        &files::C_3,
        &files::S_3,
    )?;
    print_file(
        stdout,
        1,
        &files::FILE_4,
        &files::HEAD_4,
        &files::C_4,
        &files::S_4,
    )?;
    print_file(
        stdout,
        3,
        &files::FILE_5,
        &files::HEAD_5,
        &files::C_5,
        &files::S_5,
    )?;
    print_file(
        stdout,
        1,
        &files::FILE_6,
        &files::HEAD_6,
        &files::C_6,
        &files::S_6,
    )?;
    print_file(
        stdout,
        6,
        &files::FILE_7,
        &files::HEAD_7,
        &files::C_7,
        &files::S_7,
    )
}

fn print_small_dated(stdout: Stdout) -> io::Result<()> {
    print_file(
        stdout,
        1,
        &files::FILE_8,
        &files::HEAD_8,
        &files::C_8,
        &files::S_8,
    )?;
    print_file(
        stdout,
        1,
        &files::FILE_9,
        &files::HEAD_9,
        &files::C_9,
        &files::S_9,
    )?;
    print_file(
        stdout,
        1,
        &files::FILE_10,
        &files::HEAD_10,
        &files::C_10,
        &files::S_10,
    )?;
    print_file(
        stdout,
        1,
        &files::FILE_11,
        &files::HEAD_11,
        &files::C_11,
        &files::S_11,
    )?;
    print_file(
        stdout,
        1,
        &files::FILE_12,
        &files::HEAD_12,
        &files::C_12,
        &files::S_12,
    )?;
    print_file(
        stdout,
        1,
        &files::FILE_13,
        &files::HEAD_13,
        &files::C_13,
        &files::S_13,
    )
}

fn print_larger_dated(stdout: Stdout) -> io::Result<()> {
    print_file(
        stdout,
        3,
        &files::FILE_14,
        &files::HEAD_14,
        &files::C_14,
        &files::S_14,
    )?;
    print_file(
        stdout,
        6,
        &files::FILE_15,
        &files::HEAD_15,
        &files::C_15,
        &files::S_15,
    )
}

fn main(rt: HostRuntime) -> io::Result<()> {
    let stdout = rt.stdout();
    replay_cases::control(stdout)?;
    print_undated(stdout)?;
    print_small_dated(stdout)?;
    print_larger_dated(stdout)
}
