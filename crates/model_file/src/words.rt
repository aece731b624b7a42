// Numbers as bytes, the lowest first.
ghost use Rattle.std.specs.Prelude.{◌≡◌, ◌+◌, ◌≤◌, ◌<◌, length};
ghost use Rattle.storage.specs.Store.{store};
ghost use Rattle.model_file.specs.LittleEndian.{bytes_of, number_at};

// The number whose eight bytes stand in s from `at` on.
pub fn read_word(s: &[u8], at: usize) -> u64
    requires { at + 8 ≤ length s.now }
    ensures { result ≡ number_at 8 s.now at }
{
    let mut bytes = [0; 8];
    bytes.copy_from_slice(&s[at..at + 8]);
    u64::from_le_bytes(bytes)
}

// The number whose two bytes stand in s from `at` on.
pub fn read_degree(s: &[u8], at: usize) -> usize
    requires { at + 2 ≤ length s.now }
    ensures { result ≡ number_at 2 s.now at }
{
    usize::from(u16::from_le_bytes([s[at], s[at + 1]]))
}

// The number whose four bytes stand in s from `at` on.
pub fn read_pattern(s: &[u8], at: usize) -> u32
    requires { at + 4 ≤ length s.now }
    ensures value { result ≡ number_at 4 s.now at }
    ensures upper_bound { result < 4294967296 }
{
    u32::from_le_bytes([s[at], s[at + 1], s[at + 2], s[at + 3]])
}

// Stores the two bytes of x from `at` on.
pub fn write_degree(out: &mut [u8], at: usize, x: u64)
    requires { at + 2 ≤ length out.old }
    ensures { out.new ≡ store at (bytes_of 2 x) out.old }
{
    out[at..at + 2].copy_from_slice(&x.to_le_bytes()[..2]);
}

// Stores the four bytes of x from `at` on.
pub fn write_pattern(out: &mut [u8], at: usize, x: u64)
    requires { at + 4 ≤ length out.old }
    ensures { out.new ≡ store at (bytes_of 4 x) out.old }
{
    out[at..at + 4].copy_from_slice(&x.to_le_bytes()[..4]);
}

// Stores the eight bytes of x from `at` on.
pub fn write_word(out: &mut [u8], at: usize, x: u64)
    requires { at + 8 ≤ length out.old }
    ensures { out.new ≡ store at (bytes_of 8 x) out.old }
{
    out[at..at + 8].copy_from_slice(&x.to_le_bytes());
}
