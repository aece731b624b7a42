// Replays the oracle's answers for the crates functional (factors.rt) and coefficients (fields.rt): a line for each group, how many of our
// answers have the oracle's bits.
#![tactic(auto)]

mod factors;
mod fields;

ghost use Rattle.std.specs.Prelude.{◌*◌, ◌≤◌, length};

use coefficients::{Head, TideSystem};
use functional::Functional;
use replay::numbers;
use replay_cases::bits;
use replay_print::{show, show_words};
use std::io;
use std::io::Stdout;

// The factor of a row: its degree, gm, radius, r, and the Love number at every degree.
fn factor(f: Functional, n: u64, gm: u64, radius: u64, r: u64, love: u64) -> u64 {
    let list = [number::number_of_bits(love); 2701];
    bits(f.factor(
        &list,
        n as usize,
        number::number_of_bits(gm),
        number::number_of_bits(radius),
        number::number_of_bits(r),
    ))
}

// The factors of a functional, one for each row of five inputs.
fn factors_of(f: Functional, rows: &[u64], out: &mut [u64])
    requires { 5 * length out.old ≤ length rows.now }
{
    for (x, row) in out.iter_mut().zip(rows.chunks_exact(5)) {
        *x = factor(f, row[0], row[1], row[2], row[3], row[4]);
    }
}

fn show_factors(stdout: Stdout, name: &[u8], f: Functional, due: &[u64; 31]) -> io::Result<()>
    requires { length name.now ≤ 80 }
{
    let mut out = [0; 31];
    factors_of(f, &factors::INPUTS, &mut out);
    show_words(stdout, name, &out, due, 0)
}

fn head_of(words: &[u64; 4]) -> Head {
    Head {
        gm: number::number_of_bits(words[0]),
        radius: number::number_of_bits(words[1]),
        tide_system: TideSystem::Unknown,
        date: None,
        nmax: 3,
    }
}

fn show_variances(
    stdout: Stdout,
    head: Head,
    c: &[f64; 10],
    s: &[f64; 10],
    due: &[u64; 4],
) -> io::Result<()> {
    let mut out = [0.0; 4];
    match head.degree_variances(c, s, &mut out) {
        Ok(()) => show(stdout, b"degree_variances ", &out, due, 0)?,
        Err(_) => {
            replay_print::print(stdout, b"degree_variances refused\n")?;
        }
    }
    Ok(())
}

fn show_amplitudes(
    stdout: Stdout,
    name: &[u8],
    head: Head,
    c: &[f64; 10],
    s: &[f64; 10],
    f: Functional,
    due: &[u64; 4],
) -> io::Result<()>
    requires { length name.now ≤ 80 }
{
    let love = numbers(&fields::LOVE);
    let mut out = [0.0; 4];
    match head.degree_amplitudes(c, s, f, &love, &mut out) {
        Ok(()) => show(stdout, name, &out, due, 0)?,
        Err(_) => {
            replay_print::print(stdout, b"degree_amplitudes refused\n")?;
        }
    }
    Ok(())
}

fn show_rescaled(
    stdout: Stdout,
    head: Head,
    c: &[f64; 10],
    s: &[f64; 10],
    words: &[u64; 4],
    duec: &[u64; 10],
    dues: &[u64; 10],
) -> io::Result<()> {
    let mut outc = [0.0; 10];
    let mut outs = [0.0; 10];
    let gm = number::number_of_bits(words[2]);
    let radius = number::number_of_bits(words[3]);
    match head.rescaled(c, s, gm, radius, &mut outc, &mut outs) {
        Ok(_) => {
            show(stdout, b"rescaled c ", &outc, duec, 0)?;
            show(stdout, b"rescaled s ", &outs, dues, 0)?;
        }
        Err(_) => {
            replay_print::print(stdout, b"rescaled refused\n")?;
        }
    }
    Ok(())
}

// A field of degree 3 cut at 2, what was made of it at 1, and that at 2, where nothing comes back: due are the lists of the first cut and of the second.
fn show_truncated(
    stdout: Stdout,
    head: Head,
    c: &[f64; 10],
    s: &[f64; 10],
    duec: &[u64; 6],
    dues: &[u64; 6],
    againc: &[u64; 3],
    agains: &[u64; 3],
) -> io::Result<()> {
    let mut outc = [0.0; 6];
    let mut outs = [0.0; 6];
    match head.truncated(c, s, 2, &mut outc, &mut outs) {
        Ok(cut) => {
            show(stdout, b"truncated c ", &outc, duec, 0)?;
            show(stdout, b"truncated s ", &outs, dues, 0)?;
            show_truncated_again(stdout, cut, &outc, &outs, againc, agains)?;
        }
        Err(_) => {
            replay_print::print(stdout, b"truncated refused\n")?;
        }
    }
    Ok(())
}

fn show_truncated_again(
    stdout: Stdout,
    head: Head,
    c: &[f64; 6],
    s: &[f64; 6],
    duec: &[u64; 3],
    dues: &[u64; 3],
) -> io::Result<()> {
    let mut outc = [0.0; 3];
    let mut outs = [0.0; 3];
    match head.truncated(c, s, 1, &mut outc, &mut outs) {
        Ok(cut) => {
            show(stdout, b"truncated again c ", &outc, duec, 0)?;
            show(stdout, b"truncated again s ", &outs, dues, 0)?;
            show_truncated_above(stdout, cut, &outc, &outs, duec, dues)?;
        }
        Err(_) => {
            replay_print::print(stdout, b"truncated again refused\n")?;
        }
    }
    Ok(())
}

fn show_truncated_above(
    stdout: Stdout,
    head: Head,
    c: &[f64; 3],
    s: &[f64; 3],
    duec: &[u64; 3],
    dues: &[u64; 3],
) -> io::Result<()> {
    let mut outc = [0.0; 3];
    let mut outs = [0.0; 3];
    match head.truncated(c, s, 2, &mut outc, &mut outs) {
        Ok(_) => {
            show(stdout, b"truncated above c ", &outc, duec, 0)?;
            show(stdout, b"truncated above s ", &outs, dues, 0)?;
        }
        Err(_) => {
            replay_print::print(stdout, b"truncated above refused\n")?;
        }
    }
    Ok(())
}

// Both lists whole after `zeros` up to degree 3, with a place behind each, which keeps what it held.
fn show_zeros(stdout: Stdout) -> io::Result<()> {
    let mut c = [0.5; 11];
    let mut s = [0.75; 11];
    match Head::zeros(8.0, 2.0, 3, &mut c, &mut s) {
        Ok(_) => {
            show(stdout, b"zeros c ", &c, &fields::ZEROS_C, 0)?;
            show(stdout, b"zeros s ", &s, &fields::ZEROS_S, 0)?;
        }
        Err(_) => {
            replay_print::print(stdout, b"zeros refused\n")?;
        }
    }
    Ok(())
}

// Both lists whole after the entry of degree 2 and order 1 is set.
fn show_set(
    stdout: Stdout,
    head: Head,
    c: &[u64; 10],
    s: &[u64; 10],
    duec: &[u64; 10],
    dues: &[u64; 10],
) -> io::Result<()> {
    let mut outc = numbers(c);
    let mut outs = numbers(s);
    let cnm = number::number_of_bits(fields::SET[0]);
    let snm = number::number_of_bits(fields::SET[1]);
    match head.set(&mut outc, &mut outs, 2, 1, cnm, snm) {
        Ok(()) => {
            show(stdout, b"set c ", &outc, duec, 0)?;
            show(stdout, b"set s ", &outs, dues, 0)?;
        }
        Err(_) => {
            replay_print::print(stdout, b"set refused\n")?;
        }
    }
    Ok(())
}

// The field with special numbers.
fn special(stdout: Stdout) -> io::Result<()> {
    let c = numbers(&fields::C);
    let s = numbers(&fields::S);
    let head = head_of(&fields::HEAD);
    show_variances(stdout, head, &c, &s, &fields::VARIANCES)?;
    show_amplitudes(
        stdout,
        b"degree_amplitudes GeoidHeight ",
        head,
        &c,
        &s,
        Functional::GeoidHeight,
        &fields::AMPLITUDES_GEOID_HEIGHT,
    )?;
    show_amplitudes(
        stdout,
        b"degree_amplitudes WaterHeight ",
        head,
        &c,
        &s,
        Functional::WaterHeight,
        &fields::AMPLITUDES_WATER_HEIGHT,
    )?;
    show_rescaled(
        stdout,
        head,
        &c,
        &s,
        &fields::HEAD,
        &fields::RESCALED_C,
        &fields::RESCALED_S,
    )?;
    show_truncated(
        stdout,
        head,
        &c,
        &s,
        &fields::TRUNCATED_C,
        &fields::TRUNCATED_S,
        &fields::TRUNCATED_AGAIN_C,
        &fields::TRUNCATED_AGAIN_S,
    )?;
    show_set(
        stdout,
        head,
        &fields::C,
        &fields::S,
        &fields::SET_C,
        &fields::SET_S,
    )
}

// The field with ordinary numbers.
fn ordinary(stdout: Stdout) -> io::Result<()> {
    let c = numbers(&fields::ORDINARY_C);
    let s = numbers(&fields::ORDINARY_S);
    let head = head_of(&fields::ORDINARY_HEAD);
    show_variances(stdout, head, &c, &s, &fields::ORDINARY_VARIANCES)?;
    show_amplitudes(
        stdout,
        b"degree_amplitudes GeoidHeight ",
        head,
        &c,
        &s,
        Functional::GeoidHeight,
        &fields::ORDINARY_AMPLITUDES_GEOID_HEIGHT,
    )?;
    show_amplitudes(
        stdout,
        b"degree_amplitudes WaterHeight ",
        head,
        &c,
        &s,
        Functional::WaterHeight,
        &fields::ORDINARY_AMPLITUDES_WATER_HEIGHT,
    )?;
    show_rescaled(
        stdout,
        head,
        &c,
        &s,
        &fields::ORDINARY_HEAD,
        &fields::ORDINARY_RESCALED_C,
        &fields::ORDINARY_RESCALED_S,
    )?;
    show_truncated(
        stdout,
        head,
        &c,
        &s,
        &fields::ORDINARY_TRUNCATED_C,
        &fields::ORDINARY_TRUNCATED_S,
        &fields::ORDINARY_TRUNCATED_AGAIN_C,
        &fields::ORDINARY_TRUNCATED_AGAIN_S,
    )?;
    show_set(
        stdout,
        head,
        &fields::ORDINARY_C,
        &fields::ORDINARY_S,
        &fields::ORDINARY_SET_C,
        &fields::ORDINARY_SET_S,
    )
}

fn all_factors(stdout: Stdout) -> io::Result<()> {
    show_factors(
        stdout,
        b"factor Potential ",
        Functional::Potential,
        &factors::POTENTIAL,
    )?;
    show_factors(
        stdout,
        b"factor GeoidHeight ",
        Functional::GeoidHeight,
        &factors::GEOID_HEIGHT,
    )?;
    show_factors(
        stdout,
        b"factor GravityDisturbance ",
        Functional::GravityDisturbance,
        &factors::GRAVITY_DISTURBANCE,
    )?;
    show_factors(
        stdout,
        b"factor GravityAnomaly ",
        Functional::GravityAnomaly,
        &factors::GRAVITY_ANOMALY,
    )?;
    show_factors(
        stdout,
        b"factor RadialGradient ",
        Functional::RadialGradient,
        &factors::RADIAL_GRADIENT,
    )?;
    show_factors(
        stdout,
        b"factor WaterHeight ",
        Functional::WaterHeight,
        &factors::WATER_HEIGHT,
    )
}

fn main(rt: HostRuntime) -> io::Result<()> {
    let stdout = rt.stdout();
    replay_print::control(stdout)?;
    all_factors(stdout)?;
    show_zeros(stdout)?;
    special(stdout)?;
    ordinary(stdout)
}
