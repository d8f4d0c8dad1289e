// The lines of the output.
ghost use Rattle.std.specs.Prelude.{◌≡◌, ◌+◌, ◌*◌, ◌≤◌, ◌<◌, length};
ghost use Rattle.bspline.specs.Limits.{longest_row, greatest_factor, most_values};
ghost use Rattle.bspline.specs.Values.{zoom_position};
ghost use Rattle.answers.specs.Answers.{placed};
ghost use Rattle.decimal.specs.Buffers.{Put};
ghost use Rattle.printtext.specs.Lines.{between, Lines};
ghost use Rattle.printtext.specs.Output.{header, longest_header, value_line, longest_line, value_lines};

use answers::Position;
use decimal::{LINE_FEED, SPACE, put_field, put_signed, put_word};
use judgetext::Sizes;

// The first line of values.
#[tactic(auto, using(crate::proofs::LineFields::samples_short, crate::proofs::LineFields::factor_short, crate::proofs::LineFields::values_short))]
pub(crate) fn put_header(s: Sizes, out: &mut [u8]) -> usize
    requires { (s.samples ≤ longest_row) × (s.factor ≤ greatest_factor) × (s.values ≤ most_values) × (longest_header ≤ length out.old) }
    ensures put { Put 0 (header s.samples s.factor s.values) out.old out.new result }
    ensures upper_bound { result ≤ longest_header }
{
    let at = put_word(b"rowzoom ", s.samples as u64, SPACE, out);
    let at = put_field(s.factor as u64, SPACE, out, at);
    put_field(s.values as u64, LINE_FEED, out, at)
}

// The line of one value.
#[tactic(auto, using(crate::proofs::LineFields::samples_short, crate::proofs::LineFields::factor_short, crate::proofs::LineFields::value_short))]
fn put_line(p: Position, v: i32, out: &mut [u8], at: usize) -> usize
    requires { (p.k < longest_row) × (p.j < greatest_factor) × (at + longest_line ≤ length out.old) }
    ensures put { Put at (value_line (placed p) v) out.old out.new result }
    ensures upper_bound { result ≤ at + longest_line }
{
    let at = put_field(p.k as u64, SPACE, out, at);
    let at = put_field(p.j as u64, SPACE, out, at);
    put_signed(v, LINE_FEED, out, at)
}

// The position after one.
#[tactic(auto, using(crate::proofs::ValueLines::position_next))]
fn next(p: Position, m: usize) -> Position
    requires { (p.j < m) × (m ≤ greatest_factor) × (p.k < longest_row) }
    ensures { placed result ≡ zoom_position m (p.k * m + p.j + 1) }
{
    let k = p.k;
    let j = p.j + 1;
    if j == m {
        Position { k: k + 1, j: 0 }
    } else {
        Position { k, j }
    }
}

// A line for each value from one place of a row's values up to another.
pub(crate) fn put_lines(values: &[i32], from: usize, to: usize, m: usize, out: &mut [u8]) -> usize
    requires { Lines m from to (length values.now) (length out.old) }
    ensures { Put 0 (value_lines m from (between from to values.now)) out.old out.new result }
{
    let mut end = 0;
    let mut p = Position {
        k: from / m,
        j: from % m,
    };
    for v in &values[from..to] {
        end = put_line(p, *v, out, end);
        p = next(p, m);
    }
    end
}
