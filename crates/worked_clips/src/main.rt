// Runs the worked example of WAVE files and prints what the operations answer: the bytes of a clip through read, row transform and row zoom. The file
// stdout has what is right.
#![tactic(auto)]

use report::{UNSET, WORK};
use std::io;
use std::io::Print;
use wav::{Clip, Refusal};

// The file of the samples 0, 1, 0 at 96,000 a second: the header, the "fmt " chunk and the "data" chunk.
const CLIP: [u8; 50] =
    *b"RIFF\x2a\0\0\0WAVEfmt \x10\0\0\0\x01\0\x01\0\0\x77\x01\0\0\xee\x02\0\x02\0\x10\0data\x06\0\0\0\0\0\x01\0\0\0";

// The values of three samples at factor 4.
const VALUES: usize = 9;

// The answer of read ends a line.
fn reading<P: Print>(rt: &P, answer: Result<Clip, Refusal>) -> io::Result<()> {
    match answer {
        Ok(Clip { count, rate }) => println!(rt; ": {count} at {rate}"),
        Err(refusal) => println!(rt; ": {refusal}"),
    }
}

// The clip's samples, and their values at factor 4.
fn main(rt: HostRuntime) -> io::Result<()> {
    let size = CLIP.len();
    print!(rt; "file of {size}")?;
    let mut samples = [0i16; 3];
    reading(&rt, wav::read(&CLIP, &mut samples))?;
    let mut coefficients = [0i32; 3];
    let _ = spline::row::transform(&samples, &mut coefficients, &mut [0; WORK]);
    let mut values = [UNSET; VALUES];
    let answer = spline::row::zoom(&coefficients, 4, &mut values);
    print!(rt; "its row at factor 4")?;
    report::list(&rt, &values)?;
    report::answer(&rt, answer)
}
