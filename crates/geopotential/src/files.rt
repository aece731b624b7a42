// The calls of the crate model_file.
ghost use Rattle.std.specs.Prelude.{◌≡◌, ◌≤◌, length};
ghost use Rattle.refusal.specs.Numbers.{after, result_number};
ghost use Rattle.storage.specs.Store.{store};
ghost use Rattle.model_file.specs.Format.{parse};
ghost use Rattle.model_file.specs.Answers.{c_of, s_of};
ghost use Rattle.geopotential.specs.Files.{date_bits, head_words, words_of, or_space, model_read, model_write_number, model_write_after};

use coefficients::TideSystem;
use model_file::FileHead;
use refusal::Refusal;

// The 32 bits of a date's count; 0 where none is stated.
fn date_bits(date: Option<i32>) -> u64
    ensures { result ≡ date_bits date }
{
    match date {
        None => 0,
        Some(days) => days::days_pattern(days) as u64,
    }
}

// The words of a head, at the front of a list.
fn store_head(h: FileHead, out: &mut [u64])
    requires { 6 ≤ length out.old }
    ensures { out.new ≡ store 0 (head_words h) out.old }
{
    let system = h.tide;
    let date = h.date;
    let tide = u64::from(u32::from(system));
    out[0] = h.gm;
    out[1] = h.radius;
    out[2] = tide;
    out[3] = h.nmax as u64;
    out[4] = u64::from(date.is_some());
    out[5] = date_bits(date);
}

// The number of a refusal, and SPACE for a file that is accepted.
fn or_space(a: Result<(), Refusal>) -> u32
    ensures { result ≡ or_space a }
{
    match a {
        Ok(()) => 3,
        Err(e) => u32::from(e),
    }
}

// Reads a model file: T patterns at the front of c and of s, and six words at the front of head.
pub fn geopotential_model_read(bytes: &[u8], c: &mut [u64], s: &mut [u64], head: &mut [u64]) -> u32
    ensures value { result ≡ result_number (model_read (parse bytes.now) (length c.old) (length s.old) (length head.old)) }
    ensures c_after { c.new ≡ after (model_read (parse bytes.now) (length c.old) (length s.old) (length head.old)) (store 0 (c_of (parse bytes.now)) c.old) c.old }
    ensures s_after { s.new ≡ after (model_read (parse bytes.now) (length c.old) (length s.old) (length head.old)) (store 0 (s_of (parse bytes.now)) s.old) s.old }
    ensures head_after { head.new ≡ after (model_read (parse bytes.now) (length c.old) (length s.old) (length head.old)) (store 0 (words_of (parse bytes.now)) head.old) head.old }
{
    if head.len() < 6 {
        return or_space(model_file::verdict(bytes));
    }
    match model_file::read(bytes, c, s) {
        Err(e) => u32::from(e),
        Ok(h) => {
            store_head(h, head);
            0
        }
    }
}

// Writes a model file at the front of out; dated 0 writes no date, every other number the day count. A tide above 3 is refused by 9, before every check.
pub fn geopotential_model_write(
    gm: u64,
    radius: u64,
    tide: u32,
    dated: u32,
    days: i32,
    nmax: usize,
    c: &[u64],
    s: &[u64],
    out: &mut [u8],
) -> u32
    ensures value { result ≡ model_write_number tide dated days nmax c.now s.now out.old }
    ensures out_after { out.new ≡ model_write_after gm radius tide dated days nmax c.now s.now out.old }
{
    if tide > 3 {
        return 9;
    }
    let system = TideSystem::from(tide);
    let head = FileHead {
        gm,
        radius,
        tide: system,
        date: (dated != 0).then_some(days),
        nmax,
    };
    refusal::result_number(model_file::write(head, c, s, out))
}
