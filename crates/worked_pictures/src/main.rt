// Runs worked examples of pictures through the operations and prints what they answer. The file stdout has what is right.
#![tactic(auto)]

use report::WORK;
use spline::limits::{GREATEST_FACTOR, GREATEST_PITCH, LONGEST_SIDE, LONGEST_SIDE_WORK, MARGINS};
use spline::{Position, Shape};
use std::io;
use std::io::Print;

const TOO_LONG: usize = LONGEST_SIDE + 1;

// The pixels of three lines of the longest side, and of three lines that are too long.
const PIXELS: usize = 3 * LONGEST_SIDE;

const MANY_PIXELS: usize = 3 * TOO_LONG;

// More work than any picture takes.
const MUCH_WORK: usize = TOO_LONG + MARGINS;

// The greatest number of the machine: one more, or twice it, does not fit.
const GREATEST: usize = usize::MAX;

// A picture of zeros in a slice of so many numbers, with so many words of work.
fn transform<P: Print>(
    rt: &P,
    width: usize,
    height: usize,
    pitch: usize,
    slice: usize,
    work: usize,
) -> io::Result<()> {
    print!(rt; "picture {width} x {height} at pitch {pitch} in {slice} numbers, work of {work}")?;
    report::answer(
        rt,
        spline::picture::transform(
            report::first(&[0; MANY_PIXELS], slice),
            Shape {
                width,
                height,
                pitch,
            },
            &mut [0; MANY_PIXELS],
            report::first_mut(&mut [0; MUCH_WORK], work),
        ),
    )
}

// The first value of 3 columns and 2 rows of coefficients, in a slice that may be too long or too short for them.
fn layout<P: Print>(rt: &P, coefficients: &[i32], pitch: usize) -> io::Result<()> {
    let count = coefficients.len();
    print!(rt; "3 x 2 coefficients at pitch {pitch} in {count}")?;
    let shape = Shape {
        width: 3,
        height: 2,
        pitch,
    };
    let start = Position { k: 0, j: 0 };
    report::answer(
        rt,
        spline::picture::value(coefficients, shape, start, start, 1),
    )
}

// The value of 3 columns and 2 rows of pixels, which lie in a slice at a pitch. Their coefficients are read at a pitch of its own.
fn value_of<P: Print>(
    rt: &P,
    pixels: &[i16],
    pitch: usize,
    kept: usize,
    x: Position,
    y: Position,
    m: usize,
) -> io::Result<()> {
    let Position { k, j } = x;
    print!(rt; ", place {k} + {j}/{m}")?;
    let Position { k, j } = y;
    print!(rt; ", {k} + {j}/{m}")?;
    let mut coefficients = [0i32; 6];
    let shape = Shape {
        width: 3,
        height: 2,
        pitch,
    };
    let _ = spline::picture::transform(pixels, shape, &mut coefficients, &mut [0; WORK]);
    let packed = Shape {
        width: 3,
        height: 2,
        pitch: kept,
    };
    report::answer(rt, spline::picture::value(&coefficients, packed, x, y, m))
}

// A picture all of whose pixels are s but the one in the middle of the first row.
fn value<P: Print>(
    rt: &P,
    s: i16,
    middle: i16,
    x: Position,
    y: Position,
    m: usize,
) -> io::Result<()> {
    print!(rt; "picture of {s} around {middle}")?;
    value_of(rt, &[s, middle, s, s, s, s], 3, 3, x, y, m)
}

// Such a picture in a larger slice, with two other numbers between its rows.
fn band<P: Print>(
    rt: &P,
    between: i16,
    kept: usize,
    x: Position,
    y: Position,
    m: usize,
) -> io::Result<()> {
    print!(rt; "band of 0 around 1 with {between} between its rows, coefficients at pitch {kept}")?;
    value_of(rt, &[0, 1, 0, between, between, 0, 0, 0], 5, kept, x, y, m)
}

// The values, and what is refused of a position, of a factor and of coefficients.
fn values<P: Print>(rt: &P) -> io::Result<()> {
    let start = Position { k: 0, j: 0 };
    let second = Position { k: 1, j: 0 };
    let past_second = Position { k: 1, j: 1 };
    let past_third = Position { k: 2, j: 1 };
    let two_past_start = Position { k: 0, j: 2 };
    value(rt, 7, 7, past_second, two_past_start, 3)?;
    value(rt, -32768, -32768, past_second, two_past_start, 3)?;
    value(rt, 0, 1, second, start, 4)?;
    value(rt, 0, 1, second, second, 4)?;
    value(rt, 0, 1, start, start, 0)?;
    value(rt, 0, 1, start, start, GREATEST_FACTOR + 1)?;
    value(rt, 0, 1, Position { k: 2, j: 0 }, second, 2)?;
    value(rt, 0, 1, past_third, start, 2)?;
    value(rt, 0, 1, start, past_second, 2)?;
    value(rt, 0, 1, past_third, past_second, 2)?;
    value(rt, 0, 1, two_past_start, start, 2)?;
    value(rt, 0, 1, start, two_past_start, 2)?;
    value(rt, 0, 1, past_third, two_past_start, 2)?;
    band(rt, 9, 3, second, start, 4)?;
    band(rt, -32768, 3, past_second, start, 3)?;
    band(rt, 9, 5, second, start, 4)?;
    layout(rt, &[0; 5], 3)?;
    layout(rt, &[0; 7], 3)
}

// The transforms, and what is refused of sides, pitches and lengths.
fn transforms<P: Print>(rt: &P) -> io::Result<()> {
    transform(rt, 0, 3, 0, 0, MUCH_WORK)?;
    transform(rt, 3, 0, 3, 0, MUCH_WORK)?;
    transform(rt, 1, 1, 1, 1, MUCH_WORK)?;
    transform(rt, LONGEST_SIDE, 3, LONGEST_SIDE, PIXELS, MUCH_WORK)?;
    transform(rt, 3, LONGEST_SIDE, 3, PIXELS, MUCH_WORK)?;
    transform(rt, TOO_LONG, 3, TOO_LONG, MANY_PIXELS, MUCH_WORK)?;
    transform(rt, 3, TOO_LONG, 3, MANY_PIXELS, MUCH_WORK)?;
    transform(rt, 3, 2, 3, 5, MUCH_WORK)?;
    transform(rt, 3, 2, 3, 6, MUCH_WORK)?;
    transform(rt, 3, 2, 3, 7, MUCH_WORK)?;
    transform(rt, 3, 2, 2, 6, MUCH_WORK)?;
    transform(rt, 3, 2, 5, 7, MUCH_WORK)?;
    transform(rt, 3, 2, 5, 8, MUCH_WORK)?;
    transform(rt, 3, 1, GREATEST_PITCH, 3, MUCH_WORK)?;
    transform(rt, 3, 1, GREATEST_PITCH + 1, 3, MUCH_WORK)?;
    transform(rt, 3, 2, GREATEST, 3, MUCH_WORK)?;
    transform(rt, 3, GREATEST, 3, 3, MUCH_WORK)?;
    transform(rt, GREATEST, 2, 3, 3, MUCH_WORK)?;
    transform(rt, 2, 3, 2, 6, WORK - 1)?;
    transform(rt, 2, 3, 2, 6, WORK)?;
    transform(rt, 3, LONGEST_SIDE, 3, PIXELS, LONGEST_SIDE_WORK - 1)?;
    transform(rt, 3, LONGEST_SIDE, 3, PIXELS, LONGEST_SIDE_WORK)
}

fn main(rt: HostRuntime) -> io::Result<()> {
    values(&rt)?;
    transforms(&rt)
}
