// Runs of values that reach a threshold, and the greatest value.
ghost use Rattle.std.specs.Prelude.{◌≡◌, ◌+◌, ◌≤◌, ◌<◌, length, IfSome};
ghost use Rattle.onset.specs.Answers.{started};
ghost use Rattle.onset.specs.Runs.{run_length, first_run, greatest};

// How many values in a row make a run.
const RUN: usize = 8;

// Where the first run starts. The values of a run are looked at from the last to the first. One that misses the threshold is in no run, so the scan
// goes on behind it: in a row that is far below the threshold it looks at one value of eight, and it looks at none more than twice.
pub(crate) fn first(values: &[i32], threshold: i32) -> Option<usize>
    ensures first { started result ≡ first_run threshold values.now }
    ensures inside { IfSome result (λ place. place + run_length ≤ length values.now) }
{
    let last = values.len().checked_sub(RUN)?;
    let mut at = 0;
    'scan: loop {
        if last < at {
            break 'scan None;
        }
        for left in (0..RUN).rev() {
            if values[at + left] < threshold {
                at += left + 1;
                continue 'scan;
            }
        }
        break 'scan Some(at);
    }
}

// The greatest value of a row that has one. The two halves are compared place by place and the greater value with the best so far, so that one of two
// comparisons waits for nothing. The last value, which a row of odd length has beside its halves, comes first.
pub(crate) fn greatest(values: &[i32]) -> i32
    requires { 0 < length values.now }
    ensures { result ≡ greatest values.now }
{
    let n = values.len();
    let half = n / 2;
    let mut best = values[n - 1];
    // One index for both halves: a `zip` of two slices would test two ends.
    for i in 0..half {
        let pair = values[i].max(values[half + i]);
        best = best.max(pair);
    }
    best
}
