// Runs the worked examples of rows through the operations and prints what they answer. The file stdout has what is right. Where only lengths
// matter the row is of zeros.
#![tactic(auto)]

use report::{UNSET, VALUES, WORK};
use spline::Position;
use spline::limits::{GREATEST_FACTOR, LONGEST_ROW, LONGEST_ROW_WORK, MARGINS, MOST_VALUES};
use std::io;
use std::io::Print;

const TOO_LONG: usize = LONGEST_ROW + 1;

// More work than any row takes.
const MUCH_WORK: usize = TOO_LONG + MARGINS;

// So many samples, and so many words of work.
fn transform<P: Print>(rt: &P, n: usize, work: usize) -> io::Result<()> {
    print!(rt; "row of {n}, work of {work}")?;
    report::answer(
        rt,
        spline::row::transform(
            report::first(&[0; TOO_LONG], n),
            &mut [0; TOO_LONG],
            report::first_mut(&mut [0; MUCH_WORK], work),
        ),
    )
}

// The coefficients of a row of three.
fn three(end: i16, middle: i16) -> [i32; 3] {
    let mut coefficients = [0i32; 3];
    let _ = spline::row::transform(&[end, middle, end], &mut coefficients, &mut [0; WORK]);
    coefficients
}

// The values of a row of three at a factor.
fn zoom_three<P: Print>(rt: &P, end: i16, middle: i16, m: usize) -> io::Result<()> {
    print!(rt; "row of {end} around {middle} at factor {m}")?;
    let mut values = [UNSET; VALUES];
    let answer = spline::row::zoom(&three(end, middle), m, &mut values);
    report::list(rt, &values)?;
    report::answer(rt, answer)
}

// A constant row at every factor.
fn constant<P: Print>(rt: &P, s: i16) -> io::Result<()> {
    for m in 1..=GREATEST_FACTOR {
        zoom_three(rt, s, s, m)?;
    }
    Ok(())
}

// The value of (0, 1, 0) at a position.
fn value<P: Print>(rt: &P, position: Position, m: usize) -> io::Result<()> {
    let Position { k, j } = position;
    print!(rt; "row of 0 around 1, place {k} + {j}/{m}")?;
    report::answer(rt, spline::row::value(&three(0, 1), position, m))
}

// The longest row at the greatest factor, with room for so many values.
fn zoom_longest<P: Print>(rt: &P, room: usize) -> io::Result<()> {
    print!(rt; "row of {LONGEST_ROW} at factor {GREATEST_FACTOR}, room for {room}")?;
    report::answer(
        rt,
        spline::row::zoom(
            &[0; LONGEST_ROW],
            GREATEST_FACTOR,
            report::first_mut(&mut report::zeros::<MOST_VALUES>(), room),
        ),
    )
}

fn main(rt: HostRuntime) -> io::Result<()> {
    zoom_three(&rt, 0, 1, 4)?;
    zoom_three(&rt, 0, 4, 16)?;
    zoom_three(&rt, 0, -4, 16)?;
    zoom_three(&rt, 0, 1, 0)?;
    zoom_three(&rt, 0, 1, GREATEST_FACTOR + 1)?;
    constant(&rt, -32768)?;
    constant(&rt, 7)?;
    constant(&rt, 32767)?;
    value(&rt, Position { k: 0, j: 0 }, 0)?;
    value(&rt, Position { k: 0, j: 0 }, GREATEST_FACTOR + 1)?;
    value(&rt, Position { k: 2, j: 0 }, 2)?;
    value(&rt, Position { k: 1, j: 1 }, 2)?;
    value(&rt, Position { k: 2, j: 1 }, 2)?;
    value(&rt, Position { k: 3, j: 0 }, 2)?;
    value(&rt, Position { k: 1, j: 2 }, 2)?;
    value(&rt, Position { k: 3, j: 2 }, 2)?;
    transform(&rt, 0, MUCH_WORK)?;
    transform(&rt, 1, MUCH_WORK)?;
    transform(&rt, LONGEST_ROW, MUCH_WORK)?;
    transform(&rt, TOO_LONG, MUCH_WORK)?;
    transform(&rt, 3, WORK - 1)?;
    transform(&rt, 3, WORK)?;
    transform(&rt, LONGEST_ROW, LONGEST_ROW_WORK - 1)?;
    transform(&rt, LONGEST_ROW, LONGEST_ROW_WORK)?;
    zoom_longest(&rt, MOST_VALUES - 1)?;
    zoom_longest(&rt, MOST_VALUES)
}
