// Runs the worked examples of enlarging and prints what it answers: pixels go through picture transform into it. The file stdout has what is right.
// Where only sizes matter the coefficients are zeros.
#![tactic(auto)]

use report::{UNSET, WORK};
use spline::Shape;
use spline::limits::GREATEST_FACTOR;
use std::io;
use std::io::Print;

// The values at factor 3, with one to spare.
const VALUES: usize = 29;

// The coefficients of a picture with one column more than one which has the most values at factor 11, and room for a few values.
const MANY: usize = 95 * 94;

const ROOM: usize = 6;

// The greatest number of the machine.
const GREATEST: usize = usize::MAX;

// 3 columns and 2 rows of pixels, all of them s but the one in the middle of the first row.
fn enlarge<P: Print>(rt: &P, s: i16, middle: i16, m: usize) -> io::Result<()> {
    print!(rt; "picture of {s} around {middle} at factor {m}")?;
    let shape = Shape {
        width: 3,
        height: 2,
        pitch: 3,
    };
    let mut coefficients = [0i32; 6];
    let _ = spline::picture::transform(
        &[s, middle, s, s, s, s],
        shape,
        &mut coefficients,
        &mut [0; WORK],
    );
    let mut values = [UNSET; VALUES];
    let answer = spline::picture::enlarge(&coefficients, shape, m, &mut values);
    report::list(rt, &values)?;
    report::answer(rt, answer)
}

// So many coefficients, and room for a few values.
fn sizes<P: Print>(
    rt: &P,
    width: usize,
    height: usize,
    pitch: usize,
    count: usize,
    m: usize,
) -> io::Result<()> {
    print!(rt;
        "picture {width} x {height} at pitch {pitch} in {count} coefficients at factor {m}, room for {ROOM}"
    )?;
    let shape = Shape {
        width,
        height,
        pitch,
    };
    report::answer(
        rt,
        spline::picture::enlarge(
            report::first(&report::zeros::<MANY>(), count),
            shape,
            m,
            &mut [0; ROOM],
        ),
    )
}

fn main(rt: HostRuntime) -> io::Result<()> {
    enlarge(&rt, 0, 1, 2)?;
    enlarge(&rt, 0, 4, 3)?;
    enlarge(&rt, 0, -4, 3)?;
    enlarge(&rt, 7, 7, 1)?;
    enlarge(&rt, -32768, -32768, 2)?;
    enlarge(&rt, 0, 1, 4)?;
    enlarge(&rt, 0, 1, 0)?;
    enlarge(&rt, 0, 1, GREATEST_FACTOR + 1)?;
    sizes(&rt, 1, 1, 1, 1, 16)?;
    sizes(&rt, 3, 2, 3, 6, 1)?;
    sizes(&rt, 3, 1, 3, 3, 3)?;
    sizes(&rt, 1, 3, 1, 3, 2)?;
    sizes(&rt, 94, 94, 94, 8836, 11)?;
    sizes(&rt, 95, 94, 95, 8930, 11)?;
    sizes(&rt, 65, 65, 65, 4225, 16)?;
    sizes(&rt, 65, 65, 65, 4225, 17)?;
    sizes(&rt, 65, 65, 66, 4225, 17)?;
    sizes(&rt, 65, 65, 65, 4224, 17)?;
    sizes(&rt, 65, 0, 66, 4225, 17)?;
    sizes(&rt, GREATEST, GREATEST, GREATEST, 1, GREATEST)?;
    sizes(&rt, 3, 2, 3, 6, GREATEST)
}
