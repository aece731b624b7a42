// Replays the oracle's answers for the crate second_partials, and the tensors that they make (answers.rt): a line for each group, how many of our
// answers have the oracle's bits.
#![tactic(auto)]

mod answers;

ghost use Rattle.std.specs.Prelude.{◌+◌, ◌*◌, ◌≤◌, ◌<◌, length};

use legendre::Latitude;
use local::{Partials, SecondPartials};
use number::number_of_bits;
use refusal::Refusal;
use replay_cases::{earth, latitude_of};
use replay_print::show;
use std::io;
use std::io::Stdout;

fn ten(at: SecondPartials) -> [f64; 10] {
    [
        at.first.v,
        at.first.dr,
        at.first.dlat,
        at.first.dlon,
        at.drr,
        at.dlatlat,
        at.dlonlon,
        at.drlat,
        at.drlon,
        at.dlatlon,
    ]
}

// Row by row.
fn nine(tensor: [[f64; 3]; 3]) -> [f64; 9] {
    [
        tensor[0][0],
        tensor[0][1],
        tensor[0][2],
        tensor[1][0],
        tensor[1][1],
        tensor[1][2],
        tensor[2][0],
        tensor[2][1],
        tensor[2][2],
    ]
}

// Point i of a field that is the front of the lists: so many pairs.
fn second_at(
    i: usize,
    nmax: usize,
    pairs: usize,
    cbits: &[u64; 15],
    sbits: &[u64; 15],
) -> Result<SecondPartials, Refusal>
    requires fact_1 { i < 6 }
    requires fact_2 { nmax ≤ 4 }
    requires fact_3 { pairs ≤ 15 }
{
    let mut trig = [0.0; 10];
    replay::load(&answers::TRIG, 10 * i, &mut trig);
    let c = replay::numbers(cbits);
    let s = replay::numbers(sbits);
    let r = number_of_bits(answers::RADII[i]);
    let orders = nmax + nmax + 2;
    let mut work = [0.0; 75];
    second_partials::second_partials(
        earth(nmax),
        &c[..pairs],
        &s[..pairs],
        r,
        latitude_of(&answers::LATITUDES, i),
        &trig[..orders],
        &mut work,
    )
}

// The numbers at point i and their tensor there; those due stand at place k of the lists.
fn show_both(
    stdout: Stdout,
    i: usize,
    at: SecondPartials,
    k: usize,
    numbers: &[u64],
    tensors: &[u64],
) -> io::Result<()>
    requires { (i < 6) × ((10 * k + 10 ≤ length numbers.now) × ((9 * k + 9 ≤ length tensors.now) × (k < 6))) }
{
    show(stdout, b"second_partials ", &ten(at), numbers, 10 * k)?;
    let r = number_of_bits(answers::RADII[i]);
    let tensor = at.tensor_neu(r, latitude_of(&answers::LATITUDES, i));
    show(stdout, b"tensor_neu ", &nine(tensor), tensors, 9 * k)
}

fn show_point(
    stdout: Stdout,
    i: usize,
    nmax: usize,
    pairs: usize,
    cbits: &[u64; 15],
    sbits: &[u64; 15],
    numbers: &[u64; 60],
    tensors: &[u64; 54],
) -> io::Result<()>
    requires { (i < 6) × ((nmax ≤ 4) × (pairs ≤ 15)) }
{
    match second_at(i, nmax, pairs, cbits, sbits) {
        Ok(at) => show_both(stdout, i, at, i, numbers, tensors)?,
        Err(_) => {
            replay_print::print(stdout, b"second_partials refused\n")?;
        }
    }
    Ok(())
}

// Every point of a field by itself.
fn show_points(
    stdout: Stdout,
    nmax: usize,
    pairs: usize,
    cbits: &[u64; 15],
    sbits: &[u64; 15],
    numbers: &[u64; 60],
    tensors: &[u64; 54],
) -> io::Result<()>
    requires { (nmax ≤ 4) × (pairs ≤ 15) }
{
    show_point(stdout, 0, nmax, pairs, cbits, sbits, numbers, tensors)?;
    show_point(stdout, 1, nmax, pairs, cbits, sbits, numbers, tensors)?;
    show_point(stdout, 2, nmax, pairs, cbits, sbits, numbers, tensors)?;
    show_point(stdout, 3, nmax, pairs, cbits, sbits, numbers, tensors)?;
    show_point(stdout, 4, nmax, pairs, cbits, sbits, numbers, tensors)?;
    show_point(stdout, 5, nmax, pairs, cbits, sbits, numbers, tensors)
}

// All points of a field of degree 4 at once.
fn show_along(
    stdout: Stdout,
    cbits: &[u64; 15],
    sbits: &[u64; 15],
    numbers: &[u64; 60],
) -> io::Result<()> {
    let c = replay::numbers(cbits);
    let s = replay::numbers(sbits);
    let radii = replay::numbers(&answers::RADII);
    let latitudes = replay::numbers(&answers::LATITUDES);
    let trig = replay::numbers(&answers::TRIG);
    let mut work = [0.0; 75];
    let mut out = [0.0; 60];
    match second_partials::second_partials_along(
        earth(4),
        &c,
        &s,
        6,
        &radii,
        &latitudes,
        &trig,
        &mut work,
        &mut out,
    ) {
        Ok(()) => show(stdout, b"second_partials_along ", &out, numbers, 0)?,
        Err(_) => {
            replay_print::print(stdout, b"second_partials_along refused\n")?;
        }
    }
    Ok(())
}

// Point i of a field of degree 130.
fn large_at(i: usize) -> Result<SecondPartials, Refusal>
    requires { i < 6 }
{
    let c = [0.7; 8646];
    let s = [0.3; 8646];
    let trig = [0.6; 262];
    let r = number_of_bits(answers::RADII[i]);
    let latitude = latitude_of(&answers::LATITUDES, i);
    let mut work = [0.0; 43230];
    second_partials::second_partials(earth(130), &c, &s, r, latitude, &trig, &mut work)
}

fn show_large(stdout: Stdout, i: usize, k: usize) -> io::Result<()>
    requires { (i < 6) × (k < 2) }
{
    match large_at(i) {
        Ok(at) => {
            show_both(
                stdout,
                i,
                at,
                k,
                &answers::LARGE_SECOND,
                &answers::LARGE_TENSOR,
            )?
        }
        Err(_) => {
            replay_print::print(stdout, b"second_partials refused\n")?;
        }
    }
    Ok(())
}

// The tensor of ten numbers that no field makes, at place i.
fn show_tensor(stdout: Stdout, i: usize) -> io::Result<()>
    requires { i < 6 }
{
    let mut place = [0.0; 3];
    let x = replay::numbers(&answers::NUMBERS);
    replay::load(&answers::PLACES, 3 * i, &mut place);
    let at = SecondPartials {
        first: Partials {
            v: x[0],
            dr: x[1],
            dlat: x[2],
            dlon: x[3],
        },
        drr: x[4],
        dlatlat: x[5],
        dlonlon: x[6],
        drlat: x[7],
        drlon: x[8],
        dlatlon: x[9],
    };
    let latitude = Latitude {
        t: place[1],
        u: place[2],
    };
    let tensor = at.tensor_neu(place[0], latitude);
    show(
        stdout,
        b"tensor_neu of any numbers ",
        &nine(tensor),
        &answers::TENSORS,
        9 * i,
    )
}

fn ordinary(stdout: Stdout) -> io::Result<()> {
    let c = answers::C;
    let s = answers::S;
    show_points(
        stdout,
        0,
        1,
        &c,
        &s,
        &answers::OF_0_SECOND,
        &answers::OF_0_TENSOR,
    )?;
    show_points(
        stdout,
        1,
        3,
        &c,
        &s,
        &answers::OF_1_SECOND,
        &answers::OF_1_TENSOR,
    )?;
    show_points(
        stdout,
        2,
        6,
        &c,
        &s,
        &answers::OF_2_SECOND,
        &answers::OF_2_TENSOR,
    )?;
    show_points(
        stdout,
        4,
        15,
        &c,
        &s,
        &answers::OF_4_SECOND,
        &answers::OF_4_TENSOR,
    )?;
    show_along(stdout, &c, &s, &answers::OF_4_SECOND)
}

fn special(stdout: Stdout) -> io::Result<()> {
    let c = answers::SPECIAL_C;
    let s = answers::SPECIAL_S;
    show_points(
        stdout,
        2,
        6,
        &c,
        &s,
        &answers::SPECIAL_OF_2_SECOND,
        &answers::SPECIAL_OF_2_TENSOR,
    )?;
    show_points(
        stdout,
        4,
        15,
        &c,
        &s,
        &answers::SPECIAL_OF_4_SECOND,
        &answers::SPECIAL_OF_4_TENSOR,
    )?;
    show_along(stdout, &c, &s, &answers::SPECIAL_OF_4_SECOND)
}

fn main(rt: HostRuntime) -> io::Result<()> {
    let stdout = rt.stdout();
    replay_print::control(stdout)?;
    ordinary(stdout)?;
    special(stdout)?;
    show_tensor(stdout, 0)?;
    show_tensor(stdout, 1)?;
    show_tensor(stdout, 2)?;
    show_tensor(stdout, 3)?;
    show_tensor(stdout, 4)?;
    show_tensor(stdout, 5)?;
    show_large(stdout, 0, 0)?;
    show_large(stdout, 2, 1)
}
