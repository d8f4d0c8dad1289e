// Runs the worked examples of delays and prints what is answered: two rows of three samples go through row transform and row zoom into the measurement, and
// rows of zeros go there as they are. The file stdout has what is right.
#![tactic(auto)]

use delay::{Delay, Refusal};
use report::{TOO_MANY, VALUES, WORK};
use spline::limits::GREATEST_FACTOR;
use std::io;
use std::io::Print;

// The answer ends a line.
fn measured<P: Print>(rt: &P, answer: Result<Delay, Refusal>) -> io::Result<()> {
    match answer {
        Ok(
            Delay {
                samples,
                first_height,
                second_height,
            },
        ) => {
            println!(rt; ": delay {samples:.8}, heights {first_height:.8} and {second_height:.8}")
        }
        Err(refusal) => println!(rt; ": {refusal}"),
    }
}

// Three samples, of which one is 1 and the others are 0. The test is for the prover: no case has a sample past the third.
fn click(sample: usize) -> [i16; 3] {
    let mut samples = [0i16; 3];
    if sample < 3 {
        samples[sample] = 1;
    }
    samples
}

// The values of a click at a factor, and zeros behind them.
fn zoomed(sample: usize, m: usize) -> [i32; VALUES] {
    let mut coefficients = [0i32; 3];
    let _ = spline::row::transform(&click(sample), &mut coefficients, &mut [0; WORK]);
    let mut values = [0i32; VALUES];
    let _ = spline::row::zoom(&coefficients, m, &mut values);
    values
}

// The delay between two clicks, each of which has 2m + 1 values. No case has a greater factor than 16; the test bounds the product.
fn clicks<P: Print>(
    rt: &P,
    first: usize,
    second: usize,
    m: usize,
    threshold: i32,
) -> io::Result<()> {
    print!(rt;
        "clicks at sample {first} and at sample {second}, factor {m}, threshold {threshold}"
    )?;
    let one = zoomed(first, m);
    let other = zoomed(second, m);
    let n = if m <= GREATEST_FACTOR { 2 * m + 1 } else { 0 };
    measured(
        rt,
        delay::between(
            report::first(&one, n),
            report::first(&other, n),
            m,
            threshold,
        ),
    )
}

// The delay between so many zeros and so many others: every value reaches the threshold.
fn rows<P: Print>(rt: &P, first: usize, second: usize, m: usize) -> io::Result<()> {
    print!(rt; "rows of {first} and of {second} zeros, factor {m}")?;
    let values = report::zeros::<TOO_MANY>();
    measured(
        rt,
        delay::between(
            report::first(&values, first),
            report::first(&values, second),
            m,
            0,
        ),
    )
}

fn main(rt: HostRuntime) -> io::Result<()> {
    clicks(&rt, 1, 2, 16, 40)?;
    clicks(&rt, 2, 1, 16, 40)?;
    clicks(&rt, 1, 1, 16, 40)?;
    clicks(&rt, 1, 2, 8, 27)?;
    clicks(&rt, 1, 2, 5, 27)?;
    clicks(&rt, 1, 2, 4, 27)?;
    rows(&rt, 8, 65521, 1)?;
    rows(&rt, 0, 0, 0)?;
    rows(&rt, 65522, 0, 0)?;
    rows(&rt, 8, 0, 17)?;
    rows(&rt, 8, 0, 3)?;
    rows(&rt, 8, 65522, 3)?;
    rows(&rt, 8, 7, 3)?;
    rows(&rt, 8, 7, 16)?;
    rows(&rt, 7, 8, 16)
}
