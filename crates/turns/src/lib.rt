// Takes turns among sixteen stations (a round-robin arbiter): whose clip comes next. It holds no clip and calls no transform; a caller transforms the clip
// of the station that a turn names. specs/Outcomes.antt says what is answered and which state is left.
#![tactic(auto)]

ghost use Rattle.std.specs.Prelude.{◌≡◌, ◌<◌};
ghost use Rattle.turns.specs.Answers.{number, state, announcement, named, turned};
ghost use Rattle.turns.specs.Outcomes.{refusal, announce, turn};
ghost use Rattle.turns.specs.States.{fresh, stations, station_after, first_waiting};

use std::error::Error;
use std::fmt;

// How many stations there are. They are numbered from 0.
pub const STATIONS: usize = 16;

// The state: which stations wait, and which one was served last. Every value is one; a number above 15 for the station served last counts as 15.
#[derive(Clone, Copy)]
pub struct TurnTaker {
    pub waiting: [bool; STATIONS],
    pub last: usize,
}

// Why an announcement is refused, by its number in the specification.
#[derive(Clone, Copy, Debug, PartialEq, Eq)]
pub enum Refusal {
    NoStation = 17,
    AlreadyWaiting = 18,
}

impl From<Refusal> for usize {
    ghost from_gives = { λ r n. n ≡ number r };

    fn from(refusal: Refusal) -> usize {
        refusal as usize
    }
}

impl fmt::Display for Refusal {
    fn fmt<W: fmt::Write>(&self, f: &mut fmt::Formatter<W>) -> fmt::Result {
        write!(f, "refused {}", usize::from(*self))
    }
}

impl Error for Refusal {}

// What an event answers, and the next state.
#[derive(Clone, Copy)]
pub struct Answered<A> {
    pub answer: A,
    pub next: TurnTaker,
}

// Of an announcement, and of a turn, which answers the station whose clip comes next.
pub type Announcement = Answered<Result<(), Refusal>>;

pub type Turn = Answered<Option<usize>>;

// A refused announcement changes nothing.
fn refused(taker: TurnTaker, why: Refusal) -> Announcement
    ensures { announcement result ≡ record { answer = refusal (number why); next = state taker } }
{
    Announcement {
        answer: Err(why),
        next: taker,
    }
}

// The station after one, going round. A remainder would be no plainer: every number from 15 on has 0 after it.
fn after(station: usize) -> usize
    ensures { result ≡ station_after station }
{
    if station < STATIONS - 1 {
        station + 1
    } else {
        0
    }
}

// The first station that waits, from one on and going round.
#[tactic(auto, using(crate::proofs::GoingRound::after_inside, crate::proofs::GoingRound::first_step, crate::proofs::GoingRound::first_none))]
fn first_waiting(marks: [bool; STATIONS], from: usize) -> Option<usize>
    requires { from < stations }
    ensures { named result ≡ first_waiting marks from stations }
{
    let mut station = from;
    for _looked in 0..STATIONS {
        if marks[station] {
            return Some(station);
        }
        station = after(station);
    }
    None
}

impl TurnTaker {
    // Nobody waits, and a turn begins with station 0.
    pub fn fresh() -> Self
        ensures { state result ≡ fresh }
    {
        Self {
            waiting: [false; STATIONS],
            last: STATIONS - 1,
        }
    }

    // A station has a clip that waits.
    #[tactic(auto, unfolding(crate::specs::Outcomes::announce))]
    pub fn announce(self, station: usize) -> Announcement
        ensures { announcement result ≡ announce (state self) station }
    {
        if STATIONS <= station {
            return refused(self, Refusal::NoStation);
        }
        let mut waiting = self.waiting;
        if waiting[station] {
            return refused(self, Refusal::AlreadyWaiting);
        }
        waiting[station] = true;
        Announcement {
            answer: Ok(()),
            next: Self {
                waiting,
                last: self.last,
            },
        }
    }

    // Names the first station that waits after the one served last, and clears its mark.
    #[tactic(auto, using(crate::proofs::GoingRound::found_inside), unfolding(crate::specs::Outcomes::turn))]
    pub fn turn(self) -> Turn
        ensures { turned result ≡ turn (state self) }
    {
        let mut waiting = self.waiting;
        match first_waiting(waiting, after(self.last)) {
            Some(station) => {
                waiting[station] = false;
                Turn {
                    answer: Some(station),
                    next: Self {
                        waiting,
                        last: station,
                    },
                }
            }
            None => Turn {
                answer: None,
                next: self,
            },
        }
    }
}
