// What the program `variances` prints for the bytes that it has read: the degree variances of a model file of at most degree 86.
#![tactic(auto)]

ghost use Rattle.std.specs.Prelude.{◌≡◌, ◌+◌, ◌≤◌, ◌<◌, length};
ghost use Rattle.storage.specs.Store.{store};
ghost use Rattle.storage.specs.Triangle.{table_size};
ghost use Rattle.text.specs.Stored.{Prefix};
ghost use Rattle.variance_report.specs.Report.{numbers_of, hex_digit, hex_digits, line_of, lines_of, refused_text, model_text, report_of};

use coefficients::{Head, TideSystem};
use refusal::Refusal;

// The numbers of bit patterns, at the front of out.
fn numbers_of(bits: &[u64], out: &mut [f64])
    requires { length bits.now ≤ length out.old }
    ensures { out.new ≡ store 0 (numbers_of bits.now) out.old }
{
    for k in 0..bits.len() {
        out[k] = number::number_of_bits(bits[k]);
    }
}

fn hex_digit(d: u64) -> u8
    requires { d < 16 }
    ensures { result ≡ hex_digit d }
{
    if d < 10 { 48 + d as u8 } else { 87 + d as u8 }
}

// Stores the 16 hexadecimal digits of x from `at` on, the last of them first.
fn write_hex(out: &mut [u8], at: usize, x: u64)
    requires { at + 16 ≤ length out.old }
    ensures { out.new ≡ store at (hex_digits 16 x) out.old }
{
    let mut rest = x;
    for k in (0..16).rev() {
        out[at + k] = hex_digit(rest % 16);
        rest = rest / 16;
    }
}

// Stores a degree's line from `at` on, and answers where it ends.
fn write_line(out: &mut [u8], at: usize, n: usize, bits: u64) -> usize
    requires { (n < 100) × (at + 20 ≤ length out.old) }
    ensures value { result ≡ at + length (line_of n bits) }
    ensures out_after { out.new ≡ store at (line_of n bits) out.old }
{
    let space = text::write_decimal(out, at, n);
    out[space] = 32;
    write_hex(out, space + 1, bits);
    out[space + 17] = 10;
    space + 18
}

// Stores the line of each degree behind the title, and answers where they end.
fn write_lines(out: &mut [u8], variances: &[f64]) -> usize
    requires { (length variances.now ≤ 87) × (1756 ≤ length out.old) }
    ensures value { result ≡ 16 + length (lines_of variances.now 0) }
    ensures out_after { out.new ≡ store 16 (lines_of variances.now 0) out.old }
{
    let mut at = 16;
    for n in 0..variances.len() {
        at = write_line(out, at, n, number::bits_of_number(variances[n]));
    }
    at
}

// Stores the one line of a refusal, and answers where it ends.
fn write_refused(out: &mut [u8], e: Refusal) -> usize
    requires { 1756 ≤ length out.old }
    ensures value { result ≡ 10 }
    ensures out_after { out.new ≡ store 0 (refused_text e) out.old }
{
    text::write_bytes(out, 0, b"refused ");
    out[8] = 48 + u32::from(e) as u8;
    out[9] = 10;
    10
}

// Stores the lines for an accepted model, given by its bit patterns, and answers where they end.
fn write_model(out: &mut [u8], nmax: usize, c: &[u64], s: &[u64]) -> usize
    requires { (nmax ≤ 86) × (length c.now ≡ table_size nmax) × (length s.now ≡ table_size nmax) × (1756 ≤ length out.old) }
    ensures value { result ≡ length (model_text nmax c.now s.now) }
    ensures out_after { out.new ≡ store 0 (model_text nmax c.now s.now) out.old }
{
    let mut cs = [0.0; 3828];
    let mut ss = [0.0; 3828];
    numbers_of(c, &mut cs);
    numbers_of(s, &mut ss);
    let t = c.len();
    let mut variances = [0.0; 87];
    // variances do not depend on GM and the radius; lists of these lengths are never refused
    let head = Head {
        gm: 1.0,
        radius: 1.0,
        tide_system: TideSystem::Unknown,
        date: None,
        nmax,
    };
    let _ = head.degree_variances(&cs[..t], &ss[..t], &mut variances);
    text::write_bytes(out, 0, b"degree variance\n");
    let k = nmax + 1;
    write_lines(out, &variances[..k])
}

// What `variances` prints for the bytes: the text stands at the front of out, and its length is the answer.
// The first 65,536 bytes of an input decide: the law `report_front` says so of every longer input.
pub fn report(bytes: &[u8], out: &mut [u8; 1756]) -> usize
    ensures value { result ≡ length (report_of bytes.now) }
    ensures out_after { out.new ≡ store 0 (report_of bytes.now) out.old }
    ensures prefix { Prefix result out.new }
{
    match model_file::head(bytes) {
        Err(e) => write_refused(out, e),
        Ok(h) => {
            let nmax = h.nmax;
            if nmax > 86 {
                return write_refused(out, Refusal::Size);
            }
            let mut c = [0u64; 3828];
            let mut s = [0u64; 3828];
            match model_file::read(bytes, &mut c, &mut s) {
                Err(e) => write_refused(out, e),
                Ok(_) => {
                    let t = storage::table_size(nmax);
                    write_model(out, nmax, &c[..t], &s[..t])
                }
            }
        }
    }
}
