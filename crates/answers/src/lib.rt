// The types that calls take and give: a job and a state, what a decision answers, and the refusal that any call may answer in place of its result.

#![tactic(auto)]

ghost use Rattle.std.specs.Prelude.{◌≡◌};

// The goals of a job, where a trip may end: how many are named, and the first four of them. A place past the count is not looked at.
// (Four fields and a count, and no list: the definitions of the rules read them by their names.)
#[derive(Clone, Copy)]
pub struct Goals {
    pub count: usize,
    pub first: usize,
    pub second: usize,
    pub third: usize,
    pub fourth: usize,
}

// What stays the same through a run: the floor's sizes, the goals and the settings. The floor's bytes are lent beside it,
// as the public calls take them and the definitions of the rules read them.
#[derive(Clone, Copy)]
pub struct Job {
    pub width: usize,
    pub height: usize,
    pub goals: Goals,
    pub depth: usize,
    pub p: usize,
    pub q: usize,
    pub quota: usize,
}

// What goes from one decision to the next: the current cell, the learned amount u of this trial, and the path's length.
#[derive(Clone, Copy)]
pub struct State {
    pub current: usize,
    pub learned: usize,
    pub length: usize,
}

// Where the fault of a refusal lies.
#[derive(Clone, Copy)]
pub enum Place {
    Nowhere,
    Cell(usize),
    Line(usize),
    Record(usize),
}

// A refusal's number in document 01's table, and its place. (A number and no enum: stores, programs and the definitions of the rules call a refusal by it.)
#[derive(Clone, Copy)]
pub struct Refusal {
    pub number: usize,
    pub place: Place,
}

impl Refusal {
    // A refusal that names no place.
    pub fn numbered(number: usize) -> Refusal
        ensures { result ≡ record { number = number; place = Place.Nowhere } }
    {
        Refusal {
            number,
            place: Place::Nowhere,
        }
    }
}

// What a decision answers.
#[derive(Clone, Copy)]
pub enum Answer {
    Arrived,
    Forward {
        target: usize,
        rise: usize,
        moves: usize,
    },
    BackedOut {
        target: usize,
        rise: usize,
        moves: usize,
    },
    Stayed {
        rise: usize,
    },
    Refused(Refusal),
}

// A decision's answer and the state after it.
#[derive(Clone, Copy)]
pub struct Decided {
    pub answer: Answer,
    pub state: State,
}

// The record of a trial: its decisions, the learned amount, the kept cost and the travel.
#[derive(Clone, Copy)]
pub struct Report {
    pub decisions: u64,
    pub learned: u64,
    pub kept: u64,
    pub travel: u64,
}

// A run that was made: how many trials it made, and whether the last of them learned nothing.
#[derive(Clone, Copy)]
pub struct Made {
    pub trials: usize,
    pub settled: bool,
}

// The sizes of a floor whose text was read.
#[derive(Clone, Copy)]
pub struct Sizes {
    pub width: usize,
    pub height: usize,
}

// What a line of the program `aisle` asks for.
#[derive(Clone, Copy)]
pub struct Settings {
    pub start: usize,
    pub goal: usize,
    pub depth: usize,
    pub p: usize,
    pub q: usize,
    pub quota: usize,
    pub trials: usize,
}
