// What the programs that replay the oracle's answers share: the columns of a case of a refusal, how much of a list a call has changed, the line of a call;
// and the heads and latitudes of their models.
#![tactic(auto)]

ghost use Rattle.std.specs.Prelude.{◌≡◌, ◌+◌, ◌*◌, ◌<◌, ◌≤◌, length};
ghost use Rattle.coefficients.specs.Model.{tide_number, tide_of};

use coefficients::{Head, TideSystem};
use functional::Functional;
use legendre::Latitude;
use refusal::Refusal;
use std::io;
use std::io::Stdout;

// What stands in every place of a list that is lent to be written.
pub const MARK: f64 = 1234.5;

pub const MARK_WORD: u64 = 0x5a5a_1234_5a5a_9876;

pub const MARK_BYTE: u8 = 0xa5;

pub const MARK_LENGTH: usize = 1234;

// What is seen of a call: the number of its refusal, 0 where there is none, and what it has changed in the lists that it was lent.
#[derive(Clone, Copy)]
pub struct Seen {
    pub number: u64,
    pub touched: u64,
}

// The number in a column of a case, and 0 behind its last one.
pub fn column(case: &[u64], at: usize) -> u64 {
    if at < case.len() { case[at] } else { 0 }
}

// The same as a size, which may be any.
pub fn size(case: &[u64], at: usize) -> usize {
    column(case, at) as usize
}

// The same as a byte.
pub fn byte(case: &[u64], at: usize) -> u8 {
    (column(case, at) % 256) as u8
}

// The same as a size, but `most` at most.
pub fn within(case: &[u64], at: usize, most: usize) -> usize
    ensures { result ≤ most }
{
    size(case, at).min(most)
}

// The same as the length of a list that is lent, which has room for 64.
pub fn room(case: &[u64], at: usize) -> usize
    ensures { result ≤ 64 }
{
    within(case, at, 64)
}

// The functional of a number; WaterHeight for one above 5.
pub fn functional(case: &[u64], at: usize) -> Functional {
    u32::try_from(column(case, at))
        .ok()
        .and_then(|k| Functional::try_from(k).ok())
        .unwrap_or(Functional::WaterHeight)
}

// i + 1 where b holds, else what was before.
fn last_if(b: bool, i: usize, before: usize) -> usize
    requires { (before ≤ i) × (i ≤ 64) }
    ensures { result ≤ i + 1 }
{
    if b { i + 1 } else { before }
}

// Of a list from the place `from` on: how many places have another value than the mark, times 100, and the place behind the last of them.
fn changed<T: PartialEq>(list: &[T; 64], mark: &T, from: usize) -> u64
    ensures { result ≤ 6464 }
{
    let mut count: u64 = 0;
    let mut end: usize = 0;
    for i in from..64 {
        let b = list[i] != *mark;
        count = count + u64::from(b);
        end = last_if(b, i, end);
    }
    100 * count + end as u64
}

// The same of numbers, of words and of bytes with their marks, of words and bytes of the whole list.
pub fn touched(list: &[f64; 64], from: usize) -> u64
    ensures { result ≤ 6464 }
{
    changed(list, &MARK, from)
}

pub fn touched_words(list: &[u64; 64]) -> u64
    ensures { result ≤ 6464 }
{
    changed(list, &MARK_WORD, 0)
}

pub fn touched_bytes(list: &[u8; 64]) -> u64
    ensures { result ≤ 6464 }
{
    changed(list, &MARK_BYTE, 0)
}

// What was seen of up to three outputs, four decimal digits for each, and in the digits above them of a fourth or of what lies behind a working list's
// front, which is due nothing: their sum.
pub fn joined(first: u64, second: u64, third: u64, others: u64) -> u64
    requires { (first ≤ 6464) × (second ≤ 6464) × (third ≤ 6464) × (others ≤ 12928) }
{
    first + 10000 * second + 100000000 * third + 1000000000000 * others
}

// 0, or the number of the refusal.
pub fn of_result<T: Copy>(a: Result<T, Refusal>) -> u64 {
    u64::from(refusal::result_number(a))
}

// The bits of an answer; those of a signalling NaN, which no answer has, for a refusal.
pub fn bits(a: Result<f64, Refusal>) -> u64 {
    match a {
        Ok(x) => number::bits_of_number(x),
        Err(_) => 0x7ff0_0000_0000_0001,
    }
}

// The pair of a latitude by its bit patterns, at place i of a list of pairs.
pub fn latitude_of(words: &[u64], i: usize) -> Latitude
    requires { 2 * i + 2 ≤ length words.now }
{
    Latitude {
        t: number::number_of_bits(words[2 * i]),
        u: number::number_of_bits(words[2 * i + 1]),
    }
}

// The head of the oracle's models of degree `nmax`.
pub fn earth(nmax: usize) -> Head {
    Head {
        gm: 398600441500000.0,
        radius: 6378136.3,
        tide_system: TideSystem::Unknown,
        date: None,
        nmax,
    }
}

// The head of the models of the refusals.
pub fn head_of(nmax: usize) -> Head {
    Head {
        gm: 3.5,
        radius: 7.25,
        tide_system: TideSystem::ZeroTide,
        date: None,
        nmax,
    }
}

// The dates of the cases by their numbers.
pub fn date_of(number: u64) -> Option<i32> {
    match number {
        0 => None,
        1 => Some(0),
        2 => Some(1),
        3 => Some(-1),
        4 => Some(8840),
        5 => Some(2147483647),
        6 => Some(-2147483648),
        7 => Some(16909060),
        _ => Some(-1985229329),
    }
}

// The number of a day count among the cases; any other count is the ninth.
fn days_number(days: i32) -> u64 {
    if days == 0 {
        1
    } else if days == 1 {
        2
    } else if days == -1 {
        3
    } else if days == 8840 {
        4
    } else if days == 2147483647 {
        5
    } else if days == -2147483648 {
        6
    } else if days == 16909060 {
        7
    } else if days == -1985229329 {
        8
    } else {
        9
    }
}

// The number of a date: 0 for none, else that of its day count.
pub fn date_number(date: Option<i32>) -> u64 {
    match date {
        None => 0,
        Some(days) => days_number(days),
    }
}

// Document 01's numbers of the tide systems, written out here so that the library's are not held against themselves: where a definition changes together
// with its code, these are refused.
pub fn tide_number(t: TideSystem) -> u64
    ensures { result ≡ tide_number t }
{
    match t {
        TideSystem::TideFree => 0,
        TideSystem::ZeroTide => 1,
        TideSystem::MeanTide => 2,
        TideSystem::Unknown => 3,
    }
}

pub fn tide_system(number: u64) -> TideSystem
    ensures { result ≡ tide_of number }
{
    match number {
        0 => TideSystem::TideFree,
        1 => TideSystem::ZeroTide,
        2 => TideSystem::MeanTide,
        _ => TideSystem::Unknown,
    }
}

// gm, radius, tide, N and date of a made model, zeros for a refusal.
pub fn head_words(a: Result<Head, Refusal>) -> [u64; 5] {
    match a {
        Err(_) => [0; 5],
        Ok(h) => {
            let tide = h.tide_system;
            let date = h.date;
            [
                number::bits_of_number(h.gm),
                number::bits_of_number(h.radius),
                u64::from(u32::from(tide)),
                h.nmax as u64,
                date_number(date),
            ]
        }
    }
}

// The line of a call's words, the first of `words`, and those due.
pub fn print_line(stdout: Stdout, name: &[u8], words: &[u64], due: &[u64]) -> io::Result<()>
    requires fact_1 { length name.now ≤ 80 }
    requires fact_2 { length due.now ≤ length words.now }
{
    let k = due.len();
    replay_print::show_words(stdout, name, &words[..k], due, 0)
}

// The line of a call: the two words that are seen of each of its cases, `columns` words each, and those due.
pub fn print_cases<F: Fn(&[u64]) -> Seen>(
    stdout: Stdout,
    name: &[u8],
    columns: usize,
    see: F,
    cases: &[u64],
    due: &[u64],
) -> io::Result<()>
    requires name { length name.now ≤ 80 }
    requires columns { 0 < columns }
    requires see { F.IsAlwaysCallable see }
    requires cases { length cases.now ≤ 100 * columns }
    requires due { length due.now ≤ 200 }
{
    let mut words = [0u64; 200];
    for (case, two) in cases.chunks_exact(columns).zip(words.chunks_exact_mut(2)) {
        let seen = see(case);
        two[0] = seen.number;
        two[1] = seen.touched;
    }
    print_line(stdout, name, &words, due)
}

// The line of what is told of the lengths of a call's lists: the refusal's number, and all that the list of lengths holds afterwards, as many as are due.
pub fn print_lengths<F: FnOnce(&mut [usize]) -> u32>(
    stdout: Stdout,
    name: &[u8],
    tell: F,
    due: &[u64],
) -> io::Result<()>
    requires name { length name.now ≤ 80 }
    requires tell { F.IsAlwaysCallable tell }
    requires due { (1 ≤ length due.now) × (length due.now ≤ 12) }
{
    let mut lengths = [MARK_LENGTH; 11];
    let mut words = [0u64; 12];
    words[0] = u64::from(tell(&mut lengths[..due.len() - 1]));
    for (x, n) in words[1..].iter_mut().zip(lengths) {
        *x = n as u64;
    }
    print_line(stdout, name, &words, due)
}

// Four lines, of two answers each whose second is not the one due, which must say "1 of 2": one by each function here and in `replay_print` that prints
// a list beside the one due, by itself or by way of another (`show_front` prints by `show`, `print_lengths` and `print_cases` by `print_line` and
// `show_words`).
pub fn control(stdout: Stdout) -> io::Result<()> {
    replay_print::show_front(
        stdout,
        b"control of numbers ",
        &[1.0, 2.0, 1.0],
        &[0x3ff0_0000_0000_0000, 0x4008_0000_0000_0000],
    )?;
    print_lengths(stdout, b"control of words ", |_| 1, &[1, 3])?;
    replay_print::show_bytes(stdout, b"control of bytes ", &[1, 2], &[0, 1, 3], 1)?;
    print_cases(
        stdout,
        b"control of cases ",
        1,
        |_| Seen {
            number: 1,
            touched: 2,
        },
        &[0],
        &[1, 3],
    )
}
