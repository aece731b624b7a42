// Replays what the entries for the second derivatives hand on, and what they tell of their lists (answers.rt).
use crate::answers;
use geopotential::lists::{
    geopotential_second_partials_along_lengths, geopotential_second_partials_lengths,
    geopotential_tensor_neu_lengths,
};
use geopotential::tensors::{
    geopotential_second_partials, geopotential_second_partials_along, geopotential_tensor_neu,
};
use replay_cases::{MARK, print_lengths};
use replay_print::show;
use std::io;
use std::io::Stdout;

// A point of a field of degree 1, in a list with one place behind its numbers; of a refusal there is no line.
fn show_point(stdout: Stdout) -> io::Result<()> {
    let mut work = [0.0; 15];
    let mut out = [MARK; 11];
    let number = geopotential_second_partials(
        3.5,
        7.25,
        1,
        &[1.0, 2.0, 3.0],
        &[4.0, 5.0, 6.0],
        8.0,
        0.6,
        0.8,
        &[1.0, 0.0, 0.28, 0.96],
        &mut work,
        &mut out,
    );
    if number == 0 {
        show(
            stdout,
            b"second_partials, values ",
            &out,
            &answers::SECOND_PARTIALS,
            0,
        )?;
    }
    Ok(())
}

// The same point and another.
fn show_along(stdout: Stdout) -> io::Result<()> {
    let mut work = [0.0; 15];
    let mut out = [MARK; 21];
    let number = geopotential_second_partials_along(
        3.5,
        7.25,
        1,
        &[1.0, 2.0, 3.0],
        &[4.0, 5.0, 6.0],
        2,
        &[8.0, 9.5],
        &[0.6, 0.8, -0.28, 0.96],
        &[1.0, 0.0, 0.28, 0.96, 1.0, 0.0, -0.8, 0.6],
        &mut work,
        &mut out,
    );
    if number == 0 {
        show(
            stdout,
            b"second_partials_along, values ",
            &out,
            &answers::SECOND_PARTIALS_ALONG,
            0,
        )?;
    }
    Ok(())
}

// The tensor of the numbers due of the first point.
fn show_tensor(stdout: Stdout) -> io::Result<()> {
    let mut x = [0.0; 10];
    replay::load(&answers::SECOND_PARTIALS, 0, &mut x);
    let mut out = [MARK; 10];
    let number = geopotential_tensor_neu(
        x[0], x[1], x[2], x[3], x[4], x[5], x[6], x[7], x[8], x[9], 8.0, 0.6, 0.8, &mut out,
    );
    if number == 0 {
        show(
            stdout,
            b"tensor_neu, values ",
            &out,
            &answers::TENSOR_NEU,
            0,
        )?;
    }
    Ok(())
}

// What is told of the lists for a point, with a place behind the lengths, and then with one too few.
fn show_point_lengths(stdout: Stdout) -> io::Result<()> {
    print_lengths(
        stdout,
        b"second_partials_lengths ",
        |l| geopotential_second_partials_lengths(3, l),
        &answers::SECOND_LENGTHS,
    )?;
    print_lengths(
        stdout,
        b"second_partials_lengths, 2700 ",
        |l| geopotential_second_partials_lengths(2700, l),
        &answers::SECOND_LENGTHS_LARGE,
    )?;
    print_lengths(
        stdout,
        b"second_partials_lengths, 2701 ",
        |l| geopotential_second_partials_lengths(2701, l),
        &answers::SECOND_LENGTHS_BEYOND,
    )?;
    print_lengths(
        stdout,
        b"second_partials_lengths, SPACE ",
        |l| geopotential_second_partials_lengths(3, l),
        &answers::SECOND_LENGTHS_SHORT,
    )
}

// Of those for many points.
fn show_along_lengths(stdout: Stdout) -> io::Result<()> {
    print_lengths(
        stdout,
        b"second_partials_along_lengths ",
        |l| geopotential_second_partials_along_lengths(3, 2, l),
        &answers::ALONG_LENGTHS,
    )?;
    print_lengths(
        stdout,
        b"second_partials_along_lengths, 2700 ",
        |l| geopotential_second_partials_along_lengths(2700, 65535, l),
        &answers::ALONG_LENGTHS_LARGE,
    )?;
    print_lengths(
        stdout,
        b"second_partials_along_lengths, 2701 ",
        |l| geopotential_second_partials_along_lengths(2701, 2, l),
        &answers::ALONG_LENGTHS_BEYOND,
    )?;
    print_lengths(
        stdout,
        b"second_partials_along_lengths, 65536 ",
        |l| geopotential_second_partials_along_lengths(3, 65536, l),
        &answers::ALONG_LENGTHS_MANY,
    )?;
    print_lengths(
        stdout,
        b"second_partials_along_lengths, SPACE ",
        |l| geopotential_second_partials_along_lengths(3, 2, l),
        &answers::ALONG_LENGTHS_SHORT,
    )
}

// Of the one for a tensor.
fn show_tensor_lengths(stdout: Stdout) -> io::Result<()> {
    print_lengths(
        stdout,
        b"tensor_neu_lengths ",
        geopotential_tensor_neu_lengths,
        &answers::TENSOR_LENGTHS,
    )?;
    print_lengths(
        stdout,
        b"tensor_neu_lengths, SPACE ",
        geopotential_tensor_neu_lengths,
        &answers::TENSOR_LENGTHS_SHORT,
    )
}

pub fn show_tensors(stdout: Stdout) -> io::Result<()> {
    show_point(stdout)?;
    show_along(stdout)?;
    show_tensor(stdout)?;
    show_point_lengths(stdout)?;
    show_along_lengths(stdout)?;
    show_tensor_lengths(stdout)
}
