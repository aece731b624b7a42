// Replays the oracle's answers for the crate number (answers.rt): a line for each group, how many of our answers have the oracle's bits.
#![tactic(auto)]

mod answers;

ghost use Rattle.std.specs.Prelude.{◌+◌, ◌≤◌, length};

use number::{bits_of_number, number_of_bits};
use replay_print::show_words;
use std::io;
use std::io::Stdout;

// The answers of a call of one number.
fn of_one<F: Fn(f64) -> f64>(call: F, inputs: &[u64], out: &mut [u64])
    requires call { F.IsAlwaysCallable call }
    requires inputs { length out.old ≤ length inputs.now }
{
    for (x, input) in out.iter_mut().zip(inputs) {
        *x = bits_of_number(call(number_of_bits(*input)));
    }
}

// The answers of a call of two words.
fn of_two<F: Fn(u64, u64) -> u64>(call: F, inputs: &[u64], out: &mut [u64])
    requires call { F.IsAlwaysCallable call }
    requires inputs { length out.old + length out.old ≤ length inputs.now }
{
    for (x, two) in out.iter_mut().zip(inputs.chunks_exact(2)) {
        *x = call(two[0], two[1]);
    }
}

// Whether the elements i and j of a list, neighbours in its ranking, stand in their order.
fn in_order(list: &[u64], i: u64, j: u64) -> bool {
    let n = list.len() as u64;
    if i >= n {
        return false;
    }
    if j >= n {
        return false;
    }
    let x = number_of_bits(list[i as usize]);
    let y = number_of_bits(list[j as usize]);
    if number::ranks_before(x, y) {
        return true;
    }
    if number::ranks_before(y, x) {
        return false;
    }
    i < j
}

// For each two neighbours of the oracle's ranking, 1 where they stand in our order.
fn neighbours(list: &[u64], order: &[u64], out: &mut [u64])
    requires { length out.old + 1 ≤ length order.now }
{
    for (x, two) in out.iter_mut().zip(order.windows(2)) {
        *x = u64::from(in_order(list, two[0], two[1]));
    }
}

// The line of a ranking: each two neighbours are due in order.
fn ranking(
    stdout: Stdout,
    name: &[u8],
    list: &[u64],
    order: &[u64],
    out: &mut [u64],
) -> io::Result<()>
    requires { (length out.old + 1 ≤ length order.now) × ((length out.old ≤ 16) × (length name.now ≤ 80)) }
{
    neighbours(list, order, out);
    show_words(stdout, name, out, &[1; 16], 0)
}

fn roots(stdout: Stdout) -> io::Result<()> {
    let mut root = [0; 62];
    of_one(number::root, &answers::ROOT, &mut root);
    show_words(stdout, b"root ", &root, &answers::ROOT_ANSWERS, 0)?;
    let mut hypot = [0; 45];
    of_two(
        |x, y| bits_of_number(number::hypot(number_of_bits(x), number_of_bits(y))),
        &answers::HYPOT,
        &mut hypot,
    );
    show_words(stdout, b"hypot ", &hypot, &answers::HYPOT_ANSWERS, 0)?;
    let mut powi = [0; 53];
    of_two(
        |x, n| bits_of_number(number::powi(number_of_bits(x), n as usize)),
        &answers::POWI,
        &mut powi,
    );
    show_words(stdout, b"powi ", &powi, &answers::POWI_ANSWERS, 0)
}

fn signs(stdout: Stdout) -> io::Result<()> {
    let mut signum = [0; 16];
    of_one(number::signum, &answers::SIGNUM, &mut signum);
    show_words(stdout, b"signum ", &signum, &answers::SIGNUM_ANSWERS, 0)?;
    let mut magnitude = [0; 16];
    of_one(number::magnitude, &answers::MAGNITUDE, &mut magnitude);
    show_words(
        stdout,
        b"magnitude ",
        &magnitude,
        &answers::MAGNITUDE_ANSWERS,
        0,
    )?;
    let mut ranks = [0; 35];
    of_two(
        |x, y| u64::from(number::ranks_before(number_of_bits(x), number_of_bits(y))),
        &answers::RANKS_BEFORE,
        &mut ranks,
    );
    show_words(
        stdout,
        b"ranks_before ",
        &ranks,
        &answers::RANKS_BEFORE_ANSWERS,
        0,
    )?;
    let mut patterns = [0; 24];
    of_one(|x| x, &answers::PATTERNS, &mut patterns);
    show_words(
        stdout,
        b"patterns ",
        &patterns,
        &answers::PATTERNS_ANSWERS,
        0,
    )
}

fn short_rankings(stdout: Stdout) -> io::Result<()> {
    let mut of_2 = [0; 1];
    ranking(
        stdout,
        b"ranking of 2 ",
        &answers::RANK_0,
        &answers::RANK_0_ORDER,
        &mut of_2,
    )?;
    let mut of_4 = [0; 3];
    ranking(
        stdout,
        b"ranking of 4 ",
        &answers::RANK_1,
        &answers::RANK_1_ORDER,
        &mut of_4,
    )?;
    let mut of_5 = [0; 4];
    ranking(
        stdout,
        b"ranking of 5 ",
        &answers::RANK_2,
        &answers::RANK_2_ORDER,
        &mut of_5,
    )
}

fn long_rankings(stdout: Stdout) -> io::Result<()> {
    let mut of_6 = [0; 5];
    ranking(
        stdout,
        b"ranking of 6 ",
        &answers::RANK_3,
        &answers::RANK_3_ORDER,
        &mut of_6,
    )?;
    let mut of_12 = [0; 11];
    ranking(
        stdout,
        b"ranking of 12 ",
        &answers::RANK_4,
        &answers::RANK_4_ORDER,
        &mut of_12,
    )?;
    let mut of_8 = [0; 7];
    ranking(
        stdout,
        b"ranking of 8 ",
        &answers::RANK_5,
        &answers::RANK_5_ORDER,
        &mut of_8,
    )
}

fn main(rt: HostRuntime) -> io::Result<()> {
    let stdout = rt.stdout();
    replay_print::control(stdout)?;
    roots(stdout)?;
    signs(stdout)?;
    short_rankings(stdout)?;
    long_rankings(stdout)
}
