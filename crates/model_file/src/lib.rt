// The model file: a head, the pairs of coefficients in table order, and an end, each record one byte of kind and then its body.
// Numbers go by their bit patterns, so that all bits survive, a NaN's too.
#![tactic(auto)]

mod words;

ghost use Rattle.std.specs.Prelude.{◌≡◌, ◌+◌, ◌*◌, ◌≤◌, ◌<◌, length};
ghost use Rattle.refusal.specs.Numbers.{after, outcome, result_number};
ghost use Rattle.storage.specs.Store.{store};
ghost use Rattle.storage.specs.Triangle.{table_size};
ghost use Rattle.model_file.specs.LittleEndian.{words_at};
ghost use Rattle.model_file.specs.Format.{is_head, head_kind, head_size, date_bytes, date_at, head_of, body_of, parse, head_bytes, pair_bytes, record_bytes, render};
ghost use Rattle.model_file.specs.Answers.{verdict_of, read_answer, c_of, s_of, write_answer};

use coefficients::TideSystem;
use refusal::Refusal;

// A file's head. gm and radius are the bit patterns of doubles.
#[derive(Clone, Copy, Debug, PartialEq, Eq)]
pub struct FileHead {
    pub gm: u64,
    pub radius: u64,
    pub tide: TideSystem,
    pub date: Option<i32>,
    pub nmax: usize,
}

// Whether a record of this kind is a head: 1, or 4 with a date.
fn is_head(kind: u8) -> bool
    ensures { result ≡ is_head kind }
{
    if kind == 1 {
        return true;
    }
    kind == 4
}

fn head_kind(date: Option<i32>) -> u8
    ensures { result ≡ head_kind date }
{
    match date {
        None => 1,
        Some(_) => 4,
    }
}

// The bytes of a head's record, kind and body; the pairs stand behind it.
pub fn head_size(date: Option<i32>) -> usize
    ensures { result ≡ head_size date }
{
    match date {
        None => 20,
        Some(_) => 24,
    }
}

// The same, by the kind of the record that a file starts with.
fn size_of_head(bytes: &[u8]) -> usize
    requires { 0 < length bytes.now }
    ensures { result ≡ head_size (date_at bytes.now) }
{
    if bytes[0] == 4 {
        return 24;
    }
    20
}

// The date of a file's head.
fn read_date(bytes: &[u8]) -> Option<i32>
    requires fact_1 { 0 < length bytes.now }
    requires fact_2 { head_size (date_at bytes.now) ≤ length bytes.now }
    ensures { result ≡ date_at bytes.now }
{
    if bytes[0] == 4 {
        return Some(days::days_of(words::read_pattern(bytes, 20)));
    }
    None
}

// The head of a file, or why the file is refused by its head. What stands behind the head is not looked at.
pub fn head(bytes: &[u8]) -> Result<FileHead, Refusal>
    ensures { result ≡ head_of bytes.now }
{
    if bytes.len() == 0 {
        return Err(Refusal::Short);
    }
    let kind = bytes[0];
    if !is_head(kind) {
        return Err(Refusal::Kind);
    }
    if bytes.len() < size_of_head(bytes) {
        return Err(Refusal::Short);
    }
    let tide = bytes[17];
    if tide > 3 {
        return Err(Refusal::Tide);
    }
    let nmax = words::read_degree(bytes, 18);
    if nmax > storage::MAX_DEGREE {
        return Err(Refusal::Size);
    }
    Ok(FileHead {
        gm: words::read_word(bytes, 1),
        radius: words::read_word(bytes, 9),
        tide: TideSystem::from(u32::from(tide)),
        date: read_date(bytes),
        nmax: nmax,
    })
}

// Whether `count` pairs and an end, and nothing more, stand from `start` on, behind the head.
fn check_body(bytes: &[u8], count: usize, start: usize) -> Result<(), Refusal>
    ensures { result ≡ body_of bytes.now count start }
{
    let mut at = start;
    for _left in (0..count).rev() {
        if bytes.len() <= at {
            return Err(Refusal::Short);
        }
        let kind = bytes[at];
        if kind != 2 {
            return Err(Refusal::Kind);
        }
        if bytes.len() < at + 17 {
            return Err(Refusal::Short);
        }
        at += 17;
    }
    if bytes.len() <= at {
        return Err(Refusal::Short);
    }
    let kind = bytes[at];
    if kind != 3 {
        return Err(Refusal::Kind);
    }
    if at + 1 < bytes.len() {
        return Err(Refusal::After);
    }
    Ok(())
}

// Stores the numbers of `count` pairs, whose records stand from `start` on, at the front of the two lists.
fn read_pairs(bytes: &[u8], count: usize, start: usize, c: &mut [u64], s: &mut [u64])
    requires { (start + 17 * count ≤ length bytes.now) × (count ≤ length c.old) × (count ≤ length s.old) }
    ensures c_after { c.new ≡ store 0 (words_at bytes.now count (start + 1)) c.old }
    ensures s_after { s.new ≡ store 0 (words_at bytes.now count (start + 9)) s.old }
{
    let mut at = start + 1;
    for k in 0..count {
        c[k] = words::read_word(bytes, at);
        s[k] = words::read_word(bytes, at + 8);
        at += 17;
    }
}

// Whether a file is accepted, or why it is refused.
pub fn verdict(bytes: &[u8]) -> Result<(), Refusal>
    ensures { result ≡ verdict_of (parse bytes.now) }
{
    let h = head(bytes)?;
    let nmax = h.nmax;
    let date = h.date;
    check_body(bytes, storage::table_size(nmax), head_size(date))
}

// Reads a model file: its head by value, its numbers at the front of c and s, T in each. A refusal writes nothing.
pub fn read(bytes: &[u8], c: &mut [u64], s: &mut [u64]) -> Result<FileHead, Refusal>
    ensures value { result ≡ read_answer (parse bytes.now) (length c.old) (length s.old) }
    ensures c_after { c.new ≡ after (outcome result) (store 0 (c_of (parse bytes.now)) c.old) c.old }
    ensures s_after { s.new ≡ after (outcome result) (store 0 (s_of (parse bytes.now)) s.old) s.old }
{
    let h = head(bytes)?;
    let nmax = h.nmax;
    let date = h.date;
    let count = storage::table_size(nmax);
    let start = head_size(date);
    check_body(bytes, count, start)?;
    if c.len() < count {
        return Err(Refusal::Space);
    }
    if s.len() < count {
        return Err(Refusal::Space);
    }
    read_pairs(bytes, count, start, c, s);
    Ok(h)
}

// Stores a pair's record from `at` on.
fn write_pair(out: &mut [u8], at: usize, c: u64, s: u64)
    requires { at + 17 ≤ length out.old }
    ensures { out.new ≡ store at (pair_bytes c s) out.old }
{
    out[at] = 2;
    words::write_word(out, at + 1, c);
    words::write_word(out, at + 9, s);
}

// Stores a date's bytes behind the rest of the head.
fn write_date(out: &mut [u8], date: Option<i32>)
    requires { head_size date ≤ length out.old }
    ensures { out.new ≡ store 20 (date_bytes date) out.old }
{
    match date {
        None => {}
        Some(days) => words::write_pattern(out, 20, days::days_pattern(days) as u64),
    }
}

// Stores the head's record at the front.
fn write_head(out: &mut [u8], head: FileHead)
    requires { (head_size head.date ≤ length out.old) × (head.nmax ≤ 2700) }
    ensures { out.new ≡ store 0 (head_bytes head) out.old }
{
    let gm = head.gm;
    let radius = head.radius;
    let tide = head.tide;
    let date = head.date;
    let nmax = head.nmax;
    out[0] = head_kind(date);
    words::write_word(out, 1, gm);
    words::write_word(out, 9, radius);
    out[17] = u32::from(tide) as u8;
    words::write_degree(out, 18, nmax as u64);
    write_date(out, date);
}

// Stores the pairs and the end from `start` on, behind the head.
fn write_body(out: &mut [u8], c: &[u64], s: &[u64], start: usize)
    requires { (length c.now ≡ length s.now) × (start + 17 * length c.now < length out.old) }
    ensures { out.new ≡ store start (record_bytes c.now s.now) out.old }
{
    let mut at = start;
    for k in 0..c.len() {
        write_pair(out, at, c[k], s[k]);
        at += 17;
    }
    out[at] = 3;
}

// Writes a model file at the front of out: 21 + 17 T bytes, 25 + 17 T with a date. A refusal writes nothing.
pub fn write(head: FileHead, c: &[u64], s: &[u64], out: &mut [u8]) -> Result<(), Refusal>
    ensures value { result ≡ write_answer head.date head.nmax (length c.now) (length s.now) (length out.old) }
    ensures out_after { out.new ≡ after result (store 0 (render head c.now s.now) out.old) out.old }
{
    let nmax = head.nmax;
    let date = head.date;
    if storage::MAX_DEGREE < nmax {
        return Err(Refusal::Size);
    }
    let count = storage::table_size(nmax);
    if c.len() != count {
        return Err(Refusal::Length);
    }
    if s.len() != count {
        return Err(Refusal::Length);
    }
    let start = head_size(date);
    if out.len() < start + 17 * count + 1 {
        return Err(Refusal::Space);
    }
    write_head(out, head);
    write_body(out, c, s, start);
    Ok(())
}
