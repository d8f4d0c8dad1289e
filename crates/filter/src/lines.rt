// Lines of the coefficient buffer, filtered in place: one, and several one after the other.
ghost use Rattle.std.specs.Prelude.{◌≡◌, ◌<◌, ◌+◌, ◌*◌, ◌^◌, length};
ghost use Rattle.bspline.specs.Limits.{work_words};
ghost use Rattle.bspline.specs.Recursions.{coefficients};
ghost use Rattle.filter.specs.Lines.{Line, Lines, LinesFiltered, loaded_line, scatter};

use crate::passes::{anticausal_margin, anticausal_pass, causal_pass};

// The places of a line in a buffer: n of them, from `from` on, `step` apart.
#[derive(Clone, Copy)]
pub struct LinePlaces {
    pub from: usize,
    pub step: usize,
    pub n: usize,
}

impl LinePlaces {
    // The place of number k.
    pub(crate) fn place(self, k: usize) -> usize
        requires { self.from + self.step * k < 2 ^ 64 }
        ensures { result ≡ self.from + self.step * k }
    {
        self.from + self.step * k
    }
}

// Replaces the coefficients of a line by those of its direct filter. work holds the causal recursion's numbers afterwards.
#[tactic(auto, using(crate::proofs::Recursions::causal_window), unfolding(bspline::specs::Recursions::coefficients))]
pub fn filter_line(c: &mut [i32], line: LinePlaces, work: &mut [i64])
    requires { Line line.from line.step line.n c.old × (length work.old ≡ work_words line.n) }
    ensures { c.new ≡ scatter line.from line.step (coefficients line.n (loaded_line line.from line.step c.old)) c.old }
{
    causal_pass(c, line, work);
    let last = anticausal_margin(work, line.n);
    anticausal_pass(work, last, c, line);
}

// The same for each of several lines: the rows of a picture, or its columns. Line i begins at i × between and has n numbers, `step` apart; no two
// lines share a place. work holds numbers of the last line afterwards.
pub fn filter_lines(
    c: &mut [i32],
    count: usize,
    between: usize,
    step: usize,
    n: usize,
    work: &mut [i64],
)
    requires { Lines count between step n c.old × (length work.old ≡ work_words n) }
    ensures { LinesFiltered count between step n c.old c.new }
{
    // The numbers of these lines go together in this function alone, so that no struct has them.
    for i in 0..count {
        let from = i * between;
        filter_line(c, LinePlaces { from, step, n }, work);
    }
}
