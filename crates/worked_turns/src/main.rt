// Runs the worked example of turns: sixteen stations, one of which announces before every turn. The clip of each station that a turn names goes through the
// row transform. The file stdout has what is right.
#![tactic(auto)]

use report::WORK;
use std::io;
use std::io::Print;
use turns::{STATIONS, TurnTaker};

// The station that is never quiet.
const NEVER_QUIET: usize = 7;

// A station's clip: its number between two zeros.
fn clip(station: usize) -> [i16; 3] {
    if station < STATIONS {
        [0, station as i16, 0]
    } else {
        [0; 3]
    }
}

// Transforms the clip of the station that has its turn, and prints the coefficients.
fn transform<P: Print>(rt: &P, station: usize) -> io::Result<()> {
    print!(rt; "turn of {station}")?;
    let mut coefficients = [report::UNSET; 3];
    let answer = spline::row::transform(&clip(station), &mut coefficients, &mut [0; WORK]);
    report::list(rt, &coefficients)?;
    report::answer(rt, answer)
}

// A station announces a clip, and the next state is returned.
fn announce<P: Print>(rt: &P, taker: TurnTaker, station: usize) -> io::Result<TurnTaker> {
    let done = taker.announce(station);
    match done.answer {
        Ok(()) => println!(rt; "station {station}: accepted")?,
        Err(refusal) => println!(rt; "station {station}: {refusal}")?,
    }
    Ok(done.next)
}

// A turn with the clip of the station that it names, and the next state is returned.
fn turn<P: Print>(rt: &P, taker: TurnTaker) -> io::Result<TurnTaker> {
    let done = taker.turn();
    match done.answer {
        Some(station) => transform(rt, station)?,
        None => println!(rt; "turn of nobody")?,
    }
    Ok(done.next)
}

// Every station announces, and after them one that there is not.
fn announce_all<P: Print>(rt: &P, fresh: TurnTaker) -> io::Result<TurnTaker> {
    let mut taker = fresh;
    for station in 0..STATIONS + 1 {
        taker = announce(rt, taker, station)?;
    }
    Ok(taker)
}

// Eighteen turns, before each of which the station that is never quiet announces.
fn take_turns<P: Print>(rt: &P, announced: TurnTaker) -> io::Result<TurnTaker> {
    let mut taker = announced;
    for _ in 0..STATIONS + 2 {
        taker = turn(rt, announce(rt, taker, NEVER_QUIET)?)?;
    }
    Ok(taker)
}

fn main(rt: HostRuntime) -> io::Result<()> {
    let first = turn(&rt, TurnTaker::fresh())?;
    take_turns(&rt, announce_all(&rt, first)?)?;
    Ok(())
}
