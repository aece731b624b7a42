// Replays the oracle's answers for the crates synthesis (grids.rt), slepian and polar_cap (averages.rt): a line for each group, how many of our
// answers have the oracle's bits.
#![tactic(auto)]

mod averages;
mod grids;

ghost use Rattle.std.specs.Prelude.{◌+◌, ◌<◌, ◌≤◌, length};

use functional::Functional;
use replay::numbers;
use replay_cases::{bits, earth};
use replay_print::{show, show_words};
use std::io;
use std::io::Stdout;

// A grid of three rows and nine longitudes.
fn show_grid(
    stdout: Stdout,
    functional: Functional,
    cbits: &[u64; 10],
    sbits: &[u64; 10],
    words: &[u64; 27],
) -> io::Result<()> {
    let c = numbers(cbits);
    let s = numbers(sbits);
    let love = numbers(&grids::LOVE);
    let latitudes = numbers(&grids::LATITUDES);
    let trig = numbers(&grids::TRIG);
    let mut work = [0.0; 42];
    let mut out = [0.0; 27];
    match synthesis::grid(
        earth(3),
        &c,
        &s,
        functional,
        &love,
        6378200.0,
        3,
        &latitudes,
        9,
        &trig,
        &mut work,
        &mut out,
    ) {
        Ok(()) => show(stdout, b"grid ", &out, words, 0)?,
        Err(_) => {
            replay_print::print(stdout, b"grid refused\n")?;
        }
    }
    Ok(())
}

// Numbers by the formula that the oracle's have: exact, of either sign, at most 50/64 in size.
fn pattern(shift: usize, out: &mut [f64])
    requires { shift < 101 }
{
    for (k, x) in out.iter_mut().enumerate() {
        *x = exact((37 * (k % 101) + shift) % 101);
    }
}

fn exact(k: usize) -> f64
    requires { k < 101 }
{
    k as f64 * 0.015625 - 0.78125
}

// A grid of a field of degree 130 with three rows and two longitudes.
fn show_large_grid(stdout: Stdout) -> io::Result<()> {
    let mut c = [0.0; 8646];
    let mut s = [0.0; 8646];
    let mut trig = [0.0; 524];
    pattern(0, &mut c);
    pattern(50, &mut s);
    let latitudes = numbers(&grids::LATITUDES);
    pattern(77, &mut trig);
    let mut work = [0.0; 26331];
    let mut out = [0.0; 6];
    match synthesis::grid(
        earth(130),
        &c,
        &s,
        Functional::GeoidHeight,
        &[0.0; 1],
        6378200.0,
        3,
        &latitudes,
        2,
        &trig,
        &mut work,
        &mut out,
    ) {
        Ok(()) => show(
            stdout,
            b"grid of degree 130 ",
            &out,
            &grids::LARGE_GEOID_HEIGHT,
            0,
        )?,
        Err(_) => {
            replay_print::print(stdout, b"grid 130 refused\n")?;
        }
    }
    Ok(())
}

// The bits of a functional's average; those of a signalling NaN, which no answer has, for a refusal.
fn average(
    functional: Functional,
    c: &[f64; 10],
    s: &[f64; 10],
    kc: &[f64; 6],
    ks: &[f64; 6],
) -> u64 {
    let love = numbers(&averages::LOVE);
    bits(slepian::basin_average(
        earth(3),
        c,
        s,
        earth(2),
        kc,
        ks,
        functional,
        &love,
        6378200.0,
    ))
}

// The averages of the six functionals.
fn show_averages(
    stdout: Stdout,
    cbits: &[u64; 10],
    sbits: &[u64; 10],
    kcbits: &[u64; 6],
    ksbits: &[u64; 6],
    words: &[u64; 6],
) -> io::Result<()> {
    let c = numbers(cbits);
    let s = numbers(sbits);
    let kc = numbers(kcbits);
    let ks = numbers(ksbits);
    let six = [
        average(Functional::Potential, &c, &s, &kc, &ks),
        average(Functional::GeoidHeight, &c, &s, &kc, &ks),
        average(Functional::GravityDisturbance, &c, &s, &kc, &ks),
        average(Functional::GravityAnomaly, &c, &s, &kc, &ks),
        average(Functional::RadialGradient, &c, &s, &kc, &ks),
        average(Functional::WaterHeight, &c, &s, &kc, &ks),
    ];
    show_words(stdout, b"basin_average ", &six, words, 0)
}

// The functions of a cap: orders, concentrations, vectors.
fn show_ranked(
    stdout: Stdout,
    orders: &[f64],
    concentrations: &[f64],
    vectors: &[f64],
    words: &[u64],
) -> io::Result<()>
    requires { length orders.now + length concentrations.now + length vectors.now ≤ length words.now }
{
    let k = orders.len();
    let at = k + concentrations.len();
    show(stdout, b"polar_cap orders ", orders, words, 0)?;
    show(
        stdout,
        b"polar_cap concentrations ",
        concentrations,
        words,
        k,
    )?;
    show(stdout, b"polar_cap vectors ", vectors, words, at)
}

// A cap to degree L of so many functions, 28 at most, and a working list; the answers are orders, concentrations, vectors, and apart from them how the
// solver ended for each order.
fn show_cap<const NODES: usize, const PAIRS: usize>(
    stdout: Stdout,
    l: usize,
    functions: usize,
    work: &mut [f64],
    cosine: u64,
    weights: &[u64; NODES],
    latitudes: &[u64; PAIRS],
    words: &[u64],
    ended: &[u64],
) -> io::Result<()>
    requires functions { (functions ≤ 28) × (functions + functions ≤ length words.now) }
    requires words { length words.now ≤ functions + functions + 140 }
    requires ended { length ended.now ≤ 14 }
{
    let numbers_of_vectors = words.len() - functions - functions;
    let mut orders = [0.0; 28];
    let mut concentrations = [0.0; 28];
    let mut vectors = [0.0; 140];
    let mut settled = [0.0; 14];
    match polar_cap::polar_cap(
        l,
        number::number_of_bits(cosine),
        &numbers(weights),
        &numbers(latitudes),
        work,
        &mut orders[..functions],
        &mut concentrations[..functions],
        &mut vectors[..numbers_of_vectors],
        &mut settled[..ended.len()],
    ) {
        Ok(()) => {
            show_ranked(
                stdout,
                &orders[..functions],
                &concentrations[..functions],
                &vectors[..numbers_of_vectors],
                words,
            )?;
            show(
                stdout,
                b"polar_cap settled and counts ",
                &settled[..ended.len()],
                ended,
                0,
            )?;
        }
        Err(_) => {
            replay_print::print(stdout, b"polar_cap refused\n")?;
        }
    }
    Ok(())
}

fn show_caps(stdout: Stdout) -> io::Result<()> {
    show_cap(
        stdout,
        0,
        1,
        &mut [0.0; 15],
        averages::CAP_0_COSINE[0],
        &averages::CAP_0_WEIGHTS,
        &averages::CAP_0_LATITUDES,
        &averages::CAP_0,
        &averages::CAP_0_SETTLED,
    )?;
    show_cap(
        stdout,
        1,
        3,
        &mut [0.0; 46],
        averages::CAP_1_COSINE[0],
        &averages::CAP_1_WEIGHTS,
        &averages::CAP_1_LATITUDES,
        &averages::CAP_1,
        &averages::CAP_1_SETTLED,
    )?;
    show_cap(
        stdout,
        2,
        6,
        &mut [0.0; 95],
        averages::CAP_2_COSINE[0],
        &averages::CAP_2_WEIGHTS,
        &averages::CAP_2_LATITUDES,
        &averages::CAP_2,
        &averages::CAP_2_SETTLED,
    )?;
    show_cap(
        stdout,
        6,
        28,
        &mut [0.0; 511],
        averages::CAP_6_COSINE[0],
        &averages::CAP_6_WEIGHTS,
        &averages::CAP_6_LATITUDES,
        &averages::CAP_6,
        &averages::CAP_6_SETTLED,
    )
}

// The cap to degree 18.
fn show_cap_18(stdout: Stdout) -> io::Result<()> {
    let cosine = number::number_of_bits(averages::CAP_18_COSINE[0]);
    let weights = numbers(&averages::CAP_18_WEIGHTS);
    let latitudes = numbers(&averages::CAP_18_LATITUDES);
    let mut work = [0.0; 4959];
    let mut orders = [0.0; 190];
    let mut concentrations = [0.0; 190];
    let mut vectors = [0.0; 2470];
    let mut settled = [0.0; 38];
    match polar_cap::polar_cap(
        18,
        cosine,
        &weights,
        &latitudes,
        &mut work,
        &mut orders,
        &mut concentrations,
        &mut vectors,
        &mut settled,
    ) {
        Ok(()) => {
            show(
                stdout,
                b"polar_cap 18 orders ",
                &orders,
                &averages::CAP_18,
                0,
            )?;
            show(
                stdout,
                b"polar_cap 18 concentrations ",
                &concentrations,
                &averages::CAP_18,
                190,
            )?;
            show(
                stdout,
                b"polar_cap 18 settled and counts ",
                &settled,
                &averages::CAP_18_SETTLED,
                0,
            )?;
        }
        Err(_) => {
            replay_print::print(stdout, b"polar_cap 18 refused\n")?;
        }
    }
    Ok(())
}

fn grids_of_3(stdout: Stdout) -> io::Result<()> {
    show_grid(
        stdout,
        Functional::GeoidHeight,
        &grids::C,
        &grids::S,
        &grids::GEOID_HEIGHT,
    )?;
    show_grid(
        stdout,
        Functional::WaterHeight,
        &grids::C,
        &grids::S,
        &grids::WATER_HEIGHT,
    )?;
    show_grid(
        stdout,
        Functional::GeoidHeight,
        &grids::SPECIAL_C,
        &grids::SPECIAL_S,
        &grids::SPECIAL_GEOID_HEIGHT,
    )?;
    show_grid(
        stdout,
        Functional::WaterHeight,
        &grids::SPECIAL_C,
        &grids::SPECIAL_S,
        &grids::SPECIAL_WATER_HEIGHT,
    )
}

fn both_averages(stdout: Stdout) -> io::Result<()> {
    show_averages(
        stdout,
        &averages::C,
        &averages::S,
        &averages::KERNEL_C,
        &averages::KERNEL_S,
        &averages::AVERAGES,
    )?;
    show_averages(
        stdout,
        &averages::SPECIAL_C,
        &averages::SPECIAL_S,
        &averages::SPECIAL_KERNEL_C,
        &averages::SPECIAL_KERNEL_S,
        &averages::SPECIAL_AVERAGES,
    )
}

fn main(rt: HostRuntime) -> io::Result<()> {
    let stdout = rt.stdout();
    replay_print::control(stdout)?;
    grids_of_3(stdout)?;
    show_large_grid(stdout)?;
    both_averages(stdout)?;
    show_caps(stdout)?;
    show_cap_18(stdout)
}
