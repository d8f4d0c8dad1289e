// The output by parts that a block holds.
ghost use Rattle.std.specs.Prelude.{true, ◌≡◌, ◌*◌, ◌≤◌, min, ltb, length};
ghost use Rattle.answers.specs.Answers.{number};
ghost use Rattle.decimal.specs.Buffers.{Put};
ghost use Rattle.judgetext.specs.Answers.{row_sizes, found};
ghost use Rattle.judgetext.specs.Outcomes.{refused};
ghost use Rattle.printtext.specs.Output.{block, lines_of_part, most_parts, part as the_part};
ghost use Rattle.printtext.specs.Printing.{print_part};

use crate::lines::{put_header, put_lines};
use answers::Refusal;
use decimal::{LINE_FEED, put_word};
use judgetext::{Sizes, row_sizes};

// The bytes of a block. Every part fits one.
pub const BLOCK: usize = 65536;

// How many lines of values a part has.
const LINES_OF_PART: usize = 3275;

// How many parts the longest output has, its first line among them: those for which `more_parts` holds.
pub const PARTS: usize = 22;

// Whether a part is one of those that make up every output.
pub fn more_parts(part: usize) -> bool
    ensures more { result ≡ ltb part most_parts }
    ensures count { PARTS ≡ most_parts }
{
    part < PARTS
}

// Where the lines of a part begin, of so many lines; at their end if the part has none.
fn first_line(part: usize, count: usize) -> usize
    ensures { result ≡ min (lines_of_part * part) count }
{
    LINES_OF_PART.saturating_mul(part).min(count)
}

// A part of a row's output: the first line, or lines of values.
fn put_row_part(s: Sizes, values: &[i32], part: usize, out: &mut [u8]) -> usize
    requires { (row_sizes s ≡ true) × (s.values ≤ length values.now) × (block ≤ length out.old) }
    ensures { Put 0 (the_part part (found (Ok s) values.now)) out.old out.new result }
{
    if part == 0 {
        return put_header(s, out);
    }
    let from = first_line(part - 1, s.values);
    let to = first_line(part, s.values);
    put_lines(values, from, to, s.factor, out)
}

// A part of a refusal's output: its line, and then nothing.
fn put_refusal_part(r: Refusal, part: usize, out: &mut [u8]) -> usize
    requires { block ≤ length out.old }
    ensures { Put 0 (the_part part (refused (number r))) out.old out.new result }
{
    if part == 0 {
        return put_word(b"refused ", u64::from(u8::from(r)), LINE_FEED, out);
    }
    0
}

// A part of a row's output, or nothing if no text has these sizes or the buffer has fewer values.
fn print_row_part(s: Sizes, values: &[i32], part: usize, out: &mut [u8]) -> usize
    requires { block ≤ length out.old }
    ensures { record { bytes = result; out = out.new } ≡ print_part (Ok s) values.now part out.old }
{
    if !row_sizes(s) || values.len() < s.values {
        return 0;
    }
    put_row_part(s, values, part, out)
}

// Part of the output: the bytes that rowzoom prints are the parts from 0 on for which `more_parts` holds, one after the other. Answers how many bytes it
// has put at the start of the buffer, which has a block's bytes or more.
pub fn print_part(
    zoomed: Result<Sizes, Refusal>,
    values: &[i32],
    part: usize,
    out: &mut [u8],
) -> usize
    ensures { record { bytes = result; out = out.new } ≡ print_part zoomed values.now part out.old }
{
    if out.len() < BLOCK {
        return 0;
    }
    match zoomed {
        Ok(s) => print_row_part(s, values, part, out),
        Err(r) => put_refusal_part(r, part, out),
    }
}
