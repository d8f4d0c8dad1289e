// rowzoom: reads a factor and samples as text, and prints the values of the row's spline. What a text means, what is printed, how long the arrays
// are and which parts there are is the crate rowtext's; this program reads, calls it and writes.
#![tactic(auto)]

ghost use Rattle.std.specs.Prelude.{◌≡◌, ◌≤◌, length, IfOk};
ghost use Rattle.printtext.specs.Output.{most_parts};

use rowtext::input::{judge_text, text_room, value_room, zoom_text};
use rowtext::output::{PARTS, print_part};
use rowtext::{LONGEST_TEXT, Refusal, Sizes};
use std::io;
use std::io::{Print, Read};

// Writes every part of what is printed. The last of them are empty where there are fewer lines. The contract says that `PARTS` is the count of parts of
// which the whole output is made; it can say nothing of the loop and of what was written.
fn write_output<P: Print>(
    rt: &P,
    zoomed: Result<Sizes, Refusal>,
    values: &[i32],
    block: &mut [u8],
) -> io::Result<()>
    ensures { PARTS ≡ most_parts }
{
    for part in 0..PARTS {
        let count = print_part(zoomed, values, part, block);
        Print::write_all(rt, &block[..count])?;
    }
    Ok(())
}

// Lists the values of a text that stands at the start of the array and writes what is printed of it. The array and not just the text is lent, since it
// serves for each part of the output once the text has been read.
fn write_values<P: Print>(rt: &P, bytes: &mut [u8], n: usize) -> io::Result<()>
    requires { n ≤ length bytes.old }
{
    let mut values = value_room();
    let zoomed = zoom_text(&bytes[..n], &mut values);
    write_output(rt, zoomed, &values, bytes)
}

// Reads until the array is full or the input ends, and answers how many bytes it put at the array's start. A loop over `read`: std's `read_to_end` puts
// bytes into a `Vec`, and the project has no heap; its `read_exact` does not say how many bytes there were before the end.
fn read_full<R: Read>(input: &mut R, bytes: &mut [u8]) -> io::Result<usize>
    ensures { IfOk result (λ n. n ≤ length bytes.new) }
{
    let mut done = 0;
    while done < bytes.len() {
        let more = input.read(&mut bytes[done..])?;
        if more == 0 {
            break;
        }
        done += more;
    }
    Ok(done)
}

// A text is judged before it gets an array for its values, which a refused one does not need. One that is too long is refused without being read.
fn main(rt: HostRuntime) -> io::Result<()> {
    let mut bytes = text_room();
    let n = read_full(&mut rt.stdin(), &mut bytes)?;
    if LONGEST_TEXT < n {
        return write_values(&rt, &mut bytes, n);
    }
    match judge_text(&bytes[..n]) {
        Ok(_) => write_values(&rt, &mut bytes, n),
        Err(refusal) => write_output(&rt, Err(refusal), &[], &mut bytes),
    }
}
