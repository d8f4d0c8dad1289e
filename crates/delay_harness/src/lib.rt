// The delay between two rows with the C calling convention, for tests and benchmarks in other languages, as `harness` has the library's operations. Those
// who call the plotter use `delay`.
#![tactic(auto)]

ghost use Rattle.std.specs.Prelude.{◌≡◌};
ghost use Rattle.delay.specs.Outcomes.{find_delay};
ghost use Rattle.delay_harness.specs.Codes.{coded_delay};

#[unsafe(no_mangle)]
pub extern "C" fn harness_delay_between(
    first: &[i32],
    second: &[i32],
    m: usize,
    threshold: i32,
    samples: &mut f64,
    first_height: &mut f64,
    second_height: &mut f64,
) -> usize
    ensures { record { answer = result; samples = samples.new; first_height = first_height.new; second_height = second_height.new }
        ≡ coded_delay samples.old first_height.old second_height.old (find_delay first.now second.now m threshold) }
{
    match delay::between(first, second, m, threshold) {
        Ok(d) => {
            *samples = d.samples;
            *first_height = d.first_height;
            *second_height = d.second_height;
            0
        }
        Err(refusal) => usize::from(refusal),
    }
}
