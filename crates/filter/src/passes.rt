// The two recursions over the window of one line: its n numbers and a margin at each end, continued past both ends.
ghost use Rattle.std.specs.Prelude.{◌≡◌, ◌+◌, pos, length};
ghost use Rattle.bspline.specs.Limits.{work_words};
ghost use Rattle.bspline.specs.Recursions.{margin, window, forward, backward, delivered};
ghost use Rattle.filter.specs.Lines.{AnticausalAt, CausalWindow, Line, loaded_line, scatter};

use crate::lines::LinePlaces;
use crate::steps::{anticausal_step, causal_step, coefficient_of};
use answers::limits::MARGIN;
use mirror::mirrored;

// The causal recursion over the window of a line, loaded as it goes, into work. i is the place of the window, p the number before it.
#[tactic(auto, using(crate::proofs::Recursions::causal_all))]
pub(crate) fn causal_pass(c: &[i32], line: LinePlaces, work: &mut [i64])
    requires { Line line.from line.step line.n c.now × (length work.old ≡ work_words line.n) }
    ensures { work.new ≡ forward (pos 0) (window line.n (loaded_line line.from line.step c.now)) }
{
    let mut p: i64 = 0;
    for (i, word) in work.iter_mut().enumerate() {
        let k = mirrored(line.n, i, MARGIN);
        p = causal_step(c[line.place(k)], p);
        *word = p;
    }
}

// The anticausal recursion over the right margin of the window of a line of n: b[n], from which the line's own places go on.
#[tactic(auto, using(crate::proofs::Recursions::anticausal_none))]
pub(crate) fn anticausal_margin(work: &[i64], n: usize) -> i64
    requires { CausalWindow n work.now }
    ensures { AnticausalAt work.now result (n + margin) }
{
    let mut b: i64 = 0;
    for i in (n + MARGIN..work.len()).rev() {
        b = anticausal_step(work[i], b);
    }
    b
}

// The anticausal recursion over the places of the line, from b[n] down, with each coefficient stored as it is found. The margin on the left
// is not needed by any of them.
pub(crate) fn anticausal_pass(work: &[i64], last: i64, c: &mut [i32], line: LinePlaces)
    requires { CausalWindow line.n work.now × AnticausalAt work.now last (line.n + margin) × Line line.from line.step line.n c.old }
    ensures { c.new ≡ scatter line.from line.step (delivered line.n (backward work.now)) c.old }
{
    let mut b = last;
    for i in (0..line.n).rev() {
        b = anticausal_step(work[i + MARGIN], b);
        c[line.place(i)] = coefficient_of(b);
    }
}
