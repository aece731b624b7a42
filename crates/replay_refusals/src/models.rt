// The calls of functional and coefficients, each on the sizes and lengths of a case: parts of `list` are its inputs, parts of x and y its outputs.
ghost use Rattle.std.specs.Prelude.{◌≤◌, ◌<◌, length};

use coefficients::Head;
use refusal::Refusal;
use replay_cases::{functional, head_of, head_words, of_result, room, size};

// The place of an entry in a list that holds 1, 2, 3, 4; any other value is the fifth.
fn place_of(value: f64) -> usize
    ensures { result < 5 }
{
    if value == 1.0 {
        0
    } else if value == 2.0 {
        1
    } else if value == 3.0 {
        2
    } else if value == 4.0 {
        3
    } else {
        4
    }
}

// An entry by a call, whose value goes to its place in x: N, the length of the list, n and m.
pub fn entry<F: FnOnce(usize, &[f64], usize, usize) -> Result<f64, Refusal>>(
    call: F,
    case: &[u64],
    list: &[f64],
    x: &mut [f64],
) -> u64
    requires call { F.IsAlwaysCallable call }
    requires lengths { (64 ≤ length list.now) × (64 ≤ length x.old) }
{
    let nmax = size(case, 0);
    let k = room(case, 1);
    let n = size(case, 2);
    let m = size(case, 3);
    match call(nmax, &list[..k], n, m) {
        Err(e) => u64::from(u32::from(e)),
        Ok(v) => {
            x[place_of(v)] = v;
            0
        }
    }
}

fn dated_head(tide: u64, date: u64, nmax: usize) -> Head {
    Head {
        gm: 3.5,
        radius: 7.25,
        tide_system: replay_cases::tide_system(tide),
        date: replay_cases::date_of(date),
        nmax,
    }
}

// n, the functional, and how many Love numbers.
pub fn factor(case: &[u64], list: &[f64]) -> u64
    requires { 64 ≤ length list.now }
{
    let n = size(case, 0);
    let f = functional(case, 1);
    let k = room(case, 2);
    of_result(f.factor(&list[..k], n, 3.5, 7.25, 8.0))
}

// N, and the lengths of c and s.
pub fn zeros(case: &[u64], x: &mut [f64], y: &mut [f64]) -> u64
    requires { (64 ≤ length x.old) × (64 ≤ length y.old) }
{
    let nmax = size(case, 0);
    let a = room(case, 1);
    let b = room(case, 2);
    of_result(Head::zeros(3.5, 7.25, nmax, &mut x[..a], &mut y[..b]))
}

// N, the cut, and the lengths of c, s and of the two outputs.
pub fn truncated(case: &[u64], list: &[f64], x: &mut [f64], y: &mut [f64]) -> u64
    requires { (64 ≤ length list.now) × (64 ≤ length x.old) × (64 ≤ length y.old) }
{
    let head = head_of(size(case, 0));
    let cut = size(case, 1);
    let a = room(case, 2);
    let b = room(case, 3);
    let c = room(case, 4);
    let d = room(case, 5);
    of_result(head.truncated(&list[..a], &list[..b], cut, &mut x[..c], &mut y[..d]))
}

// N, and the lengths of c, s and of the two outputs.
pub fn rescaled(case: &[u64], list: &[f64], x: &mut [f64], y: &mut [f64]) -> u64
    requires { (64 ≤ length list.now) × (64 ≤ length x.old) × (64 ≤ length y.old) }
{
    let head = head_of(size(case, 0));
    let a = room(case, 1);
    let b = room(case, 2);
    let c = room(case, 3);
    let d = room(case, 4);
    of_result(head.rescaled(&list[..a], &list[..b], 2.5, 1.75, &mut x[..c], &mut y[..d]))
}

// N, and the lengths of c, s and of the output.
pub fn degree_variances(case: &[u64], list: &[f64], x: &mut [f64]) -> u64
    requires { (64 ≤ length list.now) × (64 ≤ length x.old) }
{
    let head = head_of(size(case, 0));
    let a = room(case, 1);
    let b = room(case, 2);
    let c = room(case, 3);
    of_result(head.degree_variances(&list[..a], &list[..b], &mut x[..c]))
}

// N, the functional, and the lengths of c, s, of the Love numbers and of the output.
pub fn degree_amplitudes(case: &[u64], list: &[f64], x: &mut [f64]) -> u64
    requires { (64 ≤ length list.now) × (64 ≤ length x.old) }
{
    let head = head_of(size(case, 0));
    let f = functional(case, 1);
    let a = room(case, 2);
    let b = room(case, 3);
    let l = room(case, 4);
    let c = room(case, 5);
    of_result(head.degree_amplitudes(&list[..a], &list[..b], f, &list[..l], &mut x[..c]))
}

pub fn c(case: &[u64], list: &[f64], x: &mut [f64]) -> u64
    requires { (64 ≤ length list.now) × (64 ≤ length x.old) }
{
    entry(|nmax, c, n, m| head_of(nmax).c(c, n, m), case, list, x)
}

pub fn s(case: &[u64], list: &[f64], x: &mut [f64]) -> u64
    requires { (64 ≤ length list.now) × (64 ≤ length x.old) }
{
    entry(|nmax, s, n, m| head_of(nmax).s(s, n, m), case, list, x)
}

// N, the lengths of c and s, n and m.
pub fn set(case: &[u64], x: &mut [f64], y: &mut [f64]) -> u64
    requires { (64 ≤ length x.old) × (64 ≤ length y.old) }
{
    let head = head_of(size(case, 0));
    let a = room(case, 1);
    let b = room(case, 2);
    let n = size(case, 3);
    let m = size(case, 4);
    of_result(head.set(&mut x[..a], &mut y[..b], n, m, 1.0, 2.0))
}

pub fn zeros_head(nmax: usize) -> [u64; 5] {
    let mut c = [0.5; 3];
    let mut s = [0.5; 3];
    head_words(Head::zeros(3.5, 7.25, nmax, &mut c, &mut s))
}

// Of a field of degree 1 with this tide and the date of this number.
pub fn truncated_head(tide: u64, cut: usize, date: u64) -> [u64; 5] {
    let list = [0.5; 3];
    let mut c = [0.5; 3];
    let mut s = [0.5; 3];
    let head = dated_head(tide, date, 1);
    head_words(head.truncated(&list, &list, cut, &mut c, &mut s))
}

pub fn rescaled_head(tide: u64, date: u64) -> [u64; 5] {
    let list = [0.5; 3];
    let mut c = [0.5; 3];
    let mut s = [0.5; 3];
    let head = dated_head(tide, date, 1);
    head_words(head.rescaled(&list, &list, 2.5, 1.75, &mut c, &mut s))
}
