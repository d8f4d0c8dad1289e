// The operations with the C calling convention, for tests and benchmarks in other languages. No part of the library: nothing in the
// repository but tests/, bench/ and a drawing of examples/ uses it.
#![tactic(auto)]

ghost use Rattle.std.specs.Prelude.{◌≡◌, ◌+◌, ◌-◌, ◌*◌, ◌^◌, min, pos, neg_ℤ};
ghost use Rattle.bspline.specs.Outcomes.{row_transform, picture_transform, row_zoom, picture_enlargement, row_value, picture_value};
ghost use Rattle.answers.specs.Answers.{number, valued, written};
ghost use Rattle.wavefile.specs.Outcomes.{wav_read};
ghost use Rattle.wav.specs.Answers.{answered};
ghost use Rattle.onset.specs.Outcomes.{find_onset};
ghost use Rattle.turns.specs.Outcomes.{announce, turn};
ghost use Rattle.harness.specs.Codes.{code, value_code, clip_code, coded_transform, coded_values, coded_read, coded_search, coded_announcement, coded_turn};

use onset::Detection;
use spline::{Position, Refusal, Shape};
use turns::{STATIONS, TurnTaker};
use wav::Clip;

// C takes one number of each answer, so the answers have codes here.

// A count as a signed number. No count is so great that it must be cut.
fn count_code(n: usize) -> i64
    ensures { result ≡ pos (min n (2 ^ 63 - 1)) }
{
    n.min(9223372036854775807) as i64
}

// A refusal's number negated.
fn refusal_code(r: Refusal) -> i64
    ensures { result ≡ neg_ℤ (pos (number r)) }
{
    -i64::from(u8::from(r))
}

// A count as itself, or a refusal's number negated.
fn written_code(w: Result<usize, Refusal>) -> i64
    ensures { result ≡ code (written w) }
{
    match w {
        Ok(n) => count_code(n),
        Err(r) => refusal_code(r),
    }
}

// A value as itself, or 2^32, which is above every value, plus a refusal's number.
fn valued_code(v: Result<i32, Refusal>) -> i64
    ensures { result ≡ value_code (valued v) }
{
    match v {
        Ok(x) => i64::from(x),
        Err(r) => 4294967296 + i64::from(u8::from(r)),
    }
}

// A clip's rate and, in the low 16 bits, the count of its samples. No count is so great that it must be cut.
fn clip_code(count: usize, rate: u32) -> i64
    ensures { result ≡ pos (rate * 2 ^ 16 + min count (2 ^ 16 - 1)) }
{
    (rate as usize * 65536 + count.min(65535)) as i64
}

// The code of a clip, or a refusal's number negated.
fn reading_code(r: Result<Clip, Refusal>) -> i64
    ensures { result ≡ clip_code (answered r) }
{
    match r {
        Ok(Clip { count, rate }) => clip_code(count, rate),
        Err(r) => refusal_code(r),
    }
}

#[unsafe(no_mangle)]
pub extern "C" fn harness_row_transform(
    samples: &[i16],
    coefficients: &mut [i32],
    work: &mut [i64],
) -> i64
    ensures { record { answer = result; coefficients = coefficients.new; work = work.new }
        ≡ coded_transform (row_transform samples.now coefficients.old work.old) }
{
    written_code(spline::row::transform(samples, coefficients, work))
}

#[unsafe(no_mangle)]
pub extern "C" fn harness_picture_transform(
    pixels: &[i16],
    width: usize,
    height: usize,
    pitch: usize,
    coefficients: &mut [i32],
    work: &mut [i64],
) -> i64
    ensures { record { answer = result; coefficients = coefficients.new; work = work.new }
        ≡ coded_transform (picture_transform (record { width = width; height = height; pitch = pitch }) pixels.now coefficients.old work.old) }
{
    let shape = Shape {
        width,
        height,
        pitch,
    };
    written_code(spline::picture::transform(pixels, shape, coefficients, work))
}

#[unsafe(no_mangle)]
pub extern "C" fn harness_row_zoom(coefficients: &[i32], m: usize, values: &mut [i32]) -> i64
    ensures { record { answer = result; values = values.new } ≡ coded_values (row_zoom m coefficients.now values.old) }
{
    written_code(spline::row::zoom(coefficients, m, values))
}

#[unsafe(no_mangle)]
pub extern "C" fn harness_row_value(coefficients: &[i32], k: usize, j: usize, m: usize) -> i64
    ensures { result ≡ value_code (row_value m coefficients.now (record { k = k; j = j })) }
{
    let position = Position { k, j };
    valued_code(spline::row::value(coefficients, position, m))
}

#[unsafe(no_mangle)]
pub extern "C" fn harness_picture_value(
    coefficients: &[i32],
    width: usize,
    height: usize,
    pitch: usize,
    kx: usize,
    jx: usize,
    ky: usize,
    jy: usize,
    m: usize,
) -> i64
    ensures { result
        ≡ value_code
        (picture_value m (record { width = width; height = height; pitch = pitch }) coefficients.now (record { k = kx; j = jx }) (record { k = ky; j = jy })) }
{
    let shape = Shape {
        width,
        height,
        pitch,
    };
    let x = Position { k: kx, j: jx };
    let y = Position { k: ky, j: jy };
    valued_code(spline::picture::value(coefficients, shape, x, y, m))
}

#[unsafe(no_mangle)]
pub extern "C" fn harness_picture_enlarge(
    coefficients: &[i32],
    width: usize,
    height: usize,
    pitch: usize,
    m: usize,
    values: &mut [i32],
) -> i64
    ensures { record { answer = result; values = values.new }
        ≡ coded_values (picture_enlargement m (record { width = width; height = height; pitch = pitch }) coefficients.now values.old) }
{
    let shape = Shape {
        width,
        height,
        pitch,
    };
    written_code(spline::picture::enlarge(coefficients, shape, m, values))
}

#[unsafe(no_mangle)]
pub extern "C" fn harness_wav_read(bytes: &[u8], samples: &mut [i16]) -> i64
    ensures { record { answer = result; samples = samples.new } ≡ coded_read (wav_read bytes.now samples.old) }
{
    reading_code(wav::read(bytes, samples))
}

#[unsafe(no_mangle)]
pub extern "C" fn harness_onset_find(
    values: &[i32],
    m: usize,
    threshold: i32,
    position: &mut f64,
    height: &mut f64,
) -> i64
    ensures { record { answer = result; position = position.new; height = height.new }
        ≡ coded_search position.old height.old (find_onset values.now m threshold) }
{
    match onset::find(values, m, threshold) {
        Ok(Detection::Onset(x, h)) => {
            *position = x;
            *height = h;
            2
        }
        Ok(Detection::Quiet(h)) => {
            *height = h;
            1
        }
        Err(r) => refusal_code(r),
    }
}

#[unsafe(no_mangle)]
pub extern "C" fn harness_announce(
    waiting: &mut [bool; STATIONS],
    last: &mut usize,
    station: usize,
) -> usize
    ensures { record { answer = result; waiting = waiting.exit.now; last = last.new }
        ≡ coded_announcement (announce (record { waiting = waiting.entry.now; last = last.old }) station) }
{
    let taker = TurnTaker {
        waiting: *waiting,
        last: *last,
    };
    let done = taker.announce(station);
    let next = done.next;
    let marks = next.waiting;
    *waiting = marks;
    *last = next.last;
    match done.answer {
        Ok(()) => 0,
        Err(r) => usize::from(r),
    }
}

#[unsafe(no_mangle)]
pub extern "C" fn harness_turn(waiting: &mut [bool; STATIONS], last: &mut usize) -> usize
    ensures { record { answer = result; waiting = waiting.exit.now; last = last.new }
        ≡ coded_turn (turn (record { waiting = waiting.entry.now; last = last.old })) }
{
    let taker = TurnTaker {
        waiting: *waiting,
        last: *last,
    };
    let done = taker.turn();
    let next = done.next;
    let marks = next.waiting;
    *waiting = marks;
    *last = next.last;
    match done.answer {
        Some(station) => station,
        None => usize::MAX,
    }
}
