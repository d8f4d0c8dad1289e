// What the programs that run the worked examples share: printing of what operations answer, and parts of arrays.
#![tactic(auto)]

use spline::limits::{GREATEST_FACTOR, MARGINS, MOST_VALUES};
use std::fmt::Display;
use std::io;
use std::io::Print;

// An answer ends a line: a count or a value, or the refusal.
pub fn answer<P: Print, T: Display + Drop, E: Display + Drop>(
    rt: &P,
    answer: Result<T, E>,
) -> io::Result<()> {
    match answer {
        Ok(given) => println!(rt; ": {given}"),
        Err(refusal) => println!(rt; ": {refusal}"),
    }
}

// What a buffer of values holds where none was written. No value of the examples is 1. A number and no `Option`: the buffer that an operation is lent holds
// numbers.
pub const UNSET: i32 = 1;

// The values that were written.
pub fn list<P: Print>(rt: &P, values: &[i32]) -> io::Result<()> {
    for v in values {
        if *v != UNSET {
            print!(rt; ", {v}")?;
        }
    }
    Ok(())
}

// The work that three samples take, and a picture whose longer side is three.
pub const WORK: usize = 3 + MARGINS;

// How many values three samples have at the greatest factor.
pub const VALUES: usize = 2 * GREATEST_FACTOR + 1;

// One value more than a row may have.
pub const TOO_MANY: usize = MOST_VALUES + 1;

// A function only so that its caller knows the array by its type: of an array that is written out the prover counts the elements.
pub fn zeros<const N: usize>() -> [i32; N] {
    [0; N]
}

// The first n of some numbers, or all if there are fewer, so that no caller has to prove that there are n.
pub fn first<T>(s: &[T], n: usize) -> &[T] {
    if n <= s.len() { &s[0..n] } else { s }
}

// The same of numbers that are lent mutably.
pub fn first_mut<T>(s: &mut [T], n: usize) -> &mut [T] {
    if n <= s.len() { &mut s[0..n] } else { s }
}
