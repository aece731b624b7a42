// Replays the oracle's answers for the crates partials (points.rt) and analysis (models.rt): a line for each group, how many of our answers
// have the oracle's bits.
#![tactic(auto)]

mod models;
mod points;

ghost use Rattle.std.specs.Prelude.{◌<◌};

use coefficients::Head;
use functional::Functional;
use legendre::Latitude;
use local::Partials;
use refusal::Refusal;
use replay::numbers;
use replay_cases::{earth, latitude_of};
use replay_print::{show, show_words};
use std::io;
use std::io::Stdout;

// All points at once.
fn show_along(
    stdout: Stdout,
    cbits: &[u64; 15],
    sbits: &[u64; 15],
    words: &[u64; 20],
) -> io::Result<()> {
    let mut latitudes = [0.0; 10];
    let mut trig = [0.0; 50];
    let c = numbers(cbits);
    let s = numbers(sbits);
    let radii = numbers(&points::RADII);
    replay::load(&points::LATITUDES, 0, &mut latitudes);
    replay::load(&points::TRIG, 0, &mut trig);
    let mut work = [0.0; 60];
    let mut out = [0.0; 20];
    match partials::partials_along(
        earth(4),
        &c,
        &s,
        5,
        &radii,
        &latitudes,
        &trig,
        &mut work,
        &mut out,
    ) {
        Ok(()) => show(stdout, b"partials_along ", &out, words, 0)?,
        Err(_) => {
            replay_print::print(stdout, b"partials_along refused\n")?;
        }
    }
    Ok(())
}

// What the four numbers at point i make of the local frame.
fn show_local(
    stdout: Stdout,
    i: usize,
    at: Partials,
    r: f64,
    latitude: Latitude,
    words: &[u64; 30],
) -> io::Result<()>
    requires { i < 5 }
{
    let acceleration = at.acceleration_neu(r, latitude);
    show(stdout, b"acceleration_neu ", &acceleration, words, 6 * i)?;
    let gravity = at.gravity_neu(r, latitude, 0.00007292115);
    show(stdout, b"gravity_neu ", &gravity, words, 6 * i + 3)
}

// Point i by itself.
fn partials_at(i: usize, cbits: &[u64; 15], sbits: &[u64; 15]) -> Result<Partials, Refusal>
    requires { i < 5 }
{
    let mut trig = [0.0; 10];
    replay::load(&points::TRIG, 10 * i, &mut trig);
    let r = number::number_of_bits(points::RADII[i]);
    let latitude = latitude_of(&points::LATITUDES, i);
    let c = numbers(cbits);
    let s = numbers(sbits);
    let mut work = [0.0; 60];
    partials::partials(earth(4), &c, &s, r, latitude, &trig, &mut work)
}

fn show_point(
    stdout: Stdout,
    i: usize,
    cbits: &[u64; 15],
    sbits: &[u64; 15],
    words: &[u64; 20],
    local: &[u64; 30],
) -> io::Result<()>
    requires { i < 5 }
{
    match partials_at(i, cbits, sbits) {
        Ok(at) => {
            let four = [at.v, at.dr, at.dlat, at.dlon];
            show(stdout, b"partials ", &four, words, 4 * i)?;
            let r = number::number_of_bits(points::RADII[i]);
            show_local(stdout, i, at, r, latitude_of(&points::LATITUDES, i), local)?;
        }
        Err(_) => {
            replay_print::print(stdout, b"partials refused\n")?;
        }
    }
    Ok(())
}

fn show_points(
    stdout: Stdout,
    cbits: &[u64; 15],
    sbits: &[u64; 15],
    words: &[u64; 20],
    local: &[u64; 30],
) -> io::Result<()> {
    show_along(stdout, cbits, sbits, words)?;
    show_point(stdout, 0, cbits, sbits, words, local)?;
    show_point(stdout, 1, cbits, sbits, words, local)?;
    show_point(stdout, 2, cbits, sbits, words, local)?;
    show_point(stdout, 3, cbits, sbits, words, local)?;
    show_point(stdout, 4, cbits, sbits, words, local)
}

// What analysis made: the head's gm and radius, the numbers of its tide and its degree.
fn show_head(stdout: Stdout, model: Head) -> io::Result<()> {
    show(
        stdout,
        b"analysis gm, radius ",
        &[model.gm, model.radius],
        &models::OTHER_HEAD,
        0,
    )?;
    let tide = model.tide_system;
    show_words(
        stdout,
        b"analysis tide, nmax ",
        &[u64::from(u32::from(tide)), model.nmax as u64],
        &models::OTHER_NUMBERS,
        0,
    )
}

// The coefficients of a grid's values: c, then s.
fn show_analysis(
    stdout: Stdout,
    functional: Functional,
    wbits: &[u64; 4],
    vbits: &[u64; 32],
    words: &[u64; 20],
) -> io::Result<()> {
    let mut latitudes = [0.0; 8];
    let mut trig = [0.0; 64];
    let values = numbers(vbits);
    let love = numbers(&models::LOVE);
    let weights = numbers(wbits);
    replay::load(&models::LATITUDES, 0, &mut latitudes);
    replay::load(&models::TRIG, 0, &mut trig);
    let mut work = [0.0; 30];
    let mut c = [0.0; 10];
    let mut s = [0.0; 10];
    match analysis::analysis(
        functional,
        &love,
        6378200.0,
        3,
        398600441500000.0,
        6378136.3,
        &values,
        &weights,
        &latitudes,
        &trig,
        &mut work,
        &mut c,
        &mut s,
    ) {
        Ok(model) => {
            show(stdout, b"analysis c ", &c, words, 0)?;
            show(stdout, b"analysis s ", &s, words, 10)?;
            show_head(stdout, model)?;
        }
        Err(_) => {
            replay_print::print(stdout, b"analysis refused\n")?;
        }
    }
    Ok(())
}

fn analyses(stdout: Stdout) -> io::Result<()> {
    show_analysis(
        stdout,
        Functional::GeoidHeight,
        &models::WEIGHTS,
        &models::VALUES,
        &models::GEOID_HEIGHT,
    )?;
    show_analysis(
        stdout,
        Functional::GravityAnomaly,
        &models::WEIGHTS,
        &models::VALUES,
        &models::GRAVITY_ANOMALY,
    )?;
    show_analysis(
        stdout,
        Functional::WaterHeight,
        &models::WEIGHTS,
        &models::VALUES,
        &models::WATER_HEIGHT,
    )?;
    // weights that are not the same north and south
    show_analysis(
        stdout,
        Functional::GeoidHeight,
        &models::OTHER_WEIGHTS,
        &models::VALUES,
        &models::OTHER,
    )
}

// Special values.
fn special_analyses(stdout: Stdout) -> io::Result<()> {
    show_analysis(
        stdout,
        Functional::GeoidHeight,
        &models::WEIGHTS,
        &models::SPECIAL_VALUES,
        &models::SPECIAL_GEOID_HEIGHT,
    )?;
    show_analysis(
        stdout,
        Functional::GravityAnomaly,
        &models::WEIGHTS,
        &models::SPECIAL_VALUES,
        &models::SPECIAL_GRAVITY_ANOMALY,
    )?;
    show_analysis(
        stdout,
        Functional::WaterHeight,
        &models::WEIGHTS,
        &models::SPECIAL_VALUES,
        &models::SPECIAL_WATER_HEIGHT,
    )
}

fn main(rt: HostRuntime) -> io::Result<()> {
    let stdout = rt.stdout();
    replay_print::control(stdout)?;
    show_points(
        stdout,
        &points::C,
        &points::S,
        &points::PARTIALS,
        &points::LOCAL,
    )?;
    show_points(
        stdout,
        &points::SPECIAL_C,
        &points::SPECIAL_S,
        &points::SPECIAL_PARTIALS,
        &points::SPECIAL_LOCAL,
    )?;
    analyses(stdout)?;
    special_analyses(stdout)
}
