// Text that is stored piece by piece: bytes, and decimal digits. What the program `variances` and the replays print is made of it.
#![tactic(auto)]

ghost use Rattle.std.specs.Prelude.{◌≡◌, ◌+◌, ◌≤◌, length};
ghost use Rattle.storage.specs.Store.{store};
ghost use Rattle.text.specs.Digits.{decimal_digits};

// Stores the bytes from `at` on, and answers where they end.
pub fn write_bytes(out: &mut [u8], at: usize, bytes: &[u8]) -> usize
    requires { at + length bytes.now ≤ length out.old }
    ensures value { result ≡ at + length bytes.now }
    ensures out_after { out.new ≡ store at bytes.now out.old }
{
    for i in 0..bytes.len() {
        out[at + i] = bytes[i];
    }
    at + bytes.len()
}

// Stores the decimal digits of n from `at` on, and answers where they end.
#[tactic(auto, using(crate::specs::Digits::length_one, crate::specs::Digits::length_more))]
pub fn write_decimal(out: &mut [u8], at: usize, n: usize) -> usize
    requires { at + length (decimal_digits n) ≤ length out.old }
    ensures value { result ≡ at + length (decimal_digits n) }
    ensures out_after { out.new ≡ store at (decimal_digits n) out.old }
{
    if n < 10 {
        out[at] = 48 + n as u8;
        return at + 1;
    }
    let end = write_decimal(out, at, n / 10);
    out[end] = 48 + (n % 10) as u8;
    end + 1
}
