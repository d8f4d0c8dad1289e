// Runs the worked examples of onsets and prints what the search answers: rows of samples go through row transform and row zoom into it. The file stdout has
// what is right.
#![tactic(auto)]

use onset::limits::{GREATEST_FACTOR, MOST_VALUES};
use onset::{Detection, Refusal};
use report::{TOO_MANY, VALUES, WORK};
use std::io;
use std::io::Print;

// The answer of a search ends a line.
fn detected<P: Print>(rt: &P, answer: Result<Detection, Refusal>) -> io::Result<()> {
    match answer {
        Ok(Detection::Onset(position, height)) => {
            println!(rt; ": onset at {position:.8}, height {height:.8}")
        }
        Ok(Detection::Quiet(height)) => println!(rt; ": quiet, height {height:.8}"),
        Err(refusal) => println!(rt; ": {refusal}"),
    }
}

// Finds the onset of (0, 1, 0) at a factor. Where the zoom refuses it, the search is lent the whole buffer.
fn find<P: Print>(rt: &P, m: usize, threshold: i32) -> io::Result<()> {
    print!(rt; "row of 0 around 1 at factor {m}, threshold {threshold}")?;
    let mut coefficients = [0i32; 3];
    let _ = spline::row::transform(&[0, 1, 0], &mut coefficients, &mut [0; WORK]);
    let mut values = [0i32; VALUES];
    let count = spline::row::zoom(&coefficients, m, &mut values).unwrap_or(VALUES);
    detected(rt, onset::find(report::first(&values, count), m, threshold))
}

// The onset of so many zeros: every value reaches the threshold. A function of its own: one that also prints clears the array twice.
fn onset_of_zeros(n: usize, m: usize) -> Result<Detection, Refusal> {
    onset::find(report::first(&report::zeros::<TOO_MANY>(), n), m, 0)
}

// Finds the onset of so many zeros and prints it.
fn find_zeros<P: Print>(rt: &P, n: usize, m: usize) -> io::Result<()> {
    print!(rt; "row of {n} zeros at factor {m}, threshold 0")?;
    detected(rt, onset_of_zeros(n, m))
}

fn main(rt: HostRuntime) -> io::Result<()> {
    find(&rt, 4, 40)?;
    find(&rt, 4, 0)?;
    find(&rt, 5, 27)?;
    find(&rt, 16, 40)?;
    find(&rt, 16, 41)?;
    find(&rt, 16, 257)?;
    find(&rt, 0, 0)?;
    find(&rt, GREATEST_FACTOR + 1, 0)?;
    find_zeros(&rt, 0, 0)?;
    find_zeros(&rt, 7, 1)?;
    find_zeros(&rt, 8, 1)?;
    find_zeros(&rt, MOST_VALUES, 16)?;
    find_zeros(&rt, TOO_MANY, 0)
}
