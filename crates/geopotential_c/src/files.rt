// The calls of the crate model_file.
ghost use Rattle.std.specs.Prelude.{◌≡◌, ◌≤◌, length};
ghost use Rattle.refusal.specs.Numbers.{after, result_number};
ghost use Rattle.storage.specs.Store.{store};
ghost use Rattle.model_file.specs.Format.{parse};
ghost use Rattle.model_file.specs.Answers.{c_of, s_of};
ghost use Rattle.geopotential.specs.Files.{date_bits, head_words, words_of, or_space, model_read, model_write_number, model_write_after};

// Reads a model file: T patterns at the front of c and of s, and six words at the front of head.
#[unsafe(no_mangle)]
pub extern "C" fn geopotential_model_read(
    bytes: &[u8],
    c: &mut [u64],
    s: &mut [u64],
    head: &mut [u64],
) -> u32
    ensures value { result ≡ result_number (model_read (parse bytes.now) (length c.old) (length s.old) (length head.old)) }
    ensures c_after { c.new ≡ after (model_read (parse bytes.now) (length c.old) (length s.old) (length head.old)) (store 0 (c_of (parse bytes.now)) c.old) c.old }
    ensures s_after { s.new ≡ after (model_read (parse bytes.now) (length c.old) (length s.old) (length head.old)) (store 0 (s_of (parse bytes.now)) s.old) s.old }
    ensures head_after { head.new ≡ after (model_read (parse bytes.now) (length c.old) (length s.old) (length head.old)) (store 0 (words_of (parse bytes.now)) head.old) head.old }
{
    geopotential::files::geopotential_model_read(bytes, c, s, head)
}

// Writes a model file at the front of out; dated 0 writes no date, every other number the day count. A tide above 3 is refused by 9, before every check.
#[unsafe(no_mangle)]
pub extern "C" fn geopotential_model_write(
    gm: u64,
    radius: u64,
    tide: u32,
    dated: u32,
    days: i32,
    nmax: usize,
    c: &[u64],
    s: &[u64],
    out: &mut [u8],
) -> u32
    ensures value { result ≡ model_write_number tide dated days nmax c.now s.now out.old }
    ensures out_after { out.new ≡ model_write_after gm radius tide dated days nmax c.now s.now out.old }
{
    geopotential::files::geopotential_model_write(gm, radius, tide, dated, days, nmax, c, s, out)
}
