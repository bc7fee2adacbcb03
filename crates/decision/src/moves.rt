// The moves of a decision, laid after it from the window that it leaves in the scratch lists: the route forward, or the reverse of one.
ghost use Rattle.std.specs.Prelude.{◌≡◌, ◌++◌, map, reverse, ℕ, ◌+◌, ◌<◌, ◌≤◌, length, get_or, take, drop};
ghost use Rattle.model.specs.Floor.{opposite};
ghost use Rattle.model.specs.Decision.{least_room};
ghost use Rattle.lookahead.specs.Contract.{Asked, Near, Seen, moves_to};
ghost use Rattle.decision.specs.Laying.{way_back, way_of, counts, Shown, Lays};

use super::LEAST_ROOM;
use answers::{Answer, Job};

// The moves of the route from s to the cell x of the window go into the lent list from the place named; their number.
fn lay_there(
    job: Job,
    floor: &[u8],
    s: usize,
    base: u32,
    mark: &[u32],
    cost: &[u16],
    x: usize,
    moves: &mut [u8],
    from: usize,
) -> usize
    requires asked { Asked job floor.now s }
    requires seen { Seen job floor.now s base mark.now cost.now }
    requires near { Near job floor.now s x }
    requires room { from + least_room ≤ length moves.old }
    ensures { Lays moves.old from (moves_to job floor.now s x) moves.new result }
{
    let end = from + LEAST_ROOM;
    lookahead::trace(job, floor, s, base, mark, cost, x, &mut moves[from..end])
}

// The move that goes back.
fn opposed(m: u8) -> u8
    requires { m < 8 }
    ensures { result ≡ opposite m }
{
    (m + 4) % 8
}

// Writes the first n moves of there, the last one first and each turned round, over the first n places of part.
fn turn(there: &[u8], n: usize, part: &mut [u8])
    requires room { (n ≤ length there.now) × (n ≤ length part.old) }
    requires moves { ((i : ℕ) → i < n → get_or there.now i 0 < 8) }
    ensures { part.new ≡ map opposite (reverse (take n there.now)) ++ drop n part.old }
{
    for k in 0..n {
        part[k] = opposed(there[n - 1 - k]);
    }
}

// The moves from x to l, by the reverse of l's own route to x, go into the lent list from the place named; their number.
fn lay_back(
    job: Job,
    floor: &[u8],
    l: usize,
    base: u32,
    mark: &[u32],
    cost: &[u16],
    x: usize,
    moves: &mut [u8],
    from: usize,
) -> usize
    requires asked { Asked job floor.now l }
    requires seen { Seen job floor.now l base mark.now cost.now }
    requires near { Near job floor.now l x }
    requires room { from + least_room ≤ length moves.old }
    ensures { Lays moves.old from (way_back job floor.now l x) moves.new result }
{
    let mut there = [0u8; LEAST_ROOM];
    let n = lookahead::trace(job, floor, l, base, mark, cost, x, &mut there);
    let end = from + LEAST_ROOM;
    turn(&there, n, &mut moves[from..end]);
    n
}

// The moves of the decision at s that answered so go into the lent list from the place named; their number.
pub fn lay(
    job: Job,
    floor: &[u8],
    s: usize,
    answer: Answer,
    base: u32,
    mark: &[u32],
    cost: &[u16],
    moves: &mut [u8],
    from: usize,
) -> usize
    requires shown { Shown job floor.now s answer base mark.now cost.now }
    requires room { from + least_room ≤ length moves.old }
    ensures { Lays moves.old from (way_of job floor.now s answer) moves.new result }
{
    match answer {
        Answer::Forward { target, .. } => {
            lay_there(job, floor, s, base, mark, cost, target, moves, from)
        }
        Answer::BackedOut { target, .. } => {
            lay_back(job, floor, target, base, mark, cost, s, moves, from)
        }
        Answer::Arrived | Answer::Stayed { .. } | Answer::Refused(_) => 0,
    }
}

// The answer of a decision whose moves are n.
pub(crate) fn count(answer: Answer, n: usize) -> Answer
    ensures { result ≡ counts answer n }
{
    match answer {
        Answer::Forward { target, rise, .. } => Answer::Forward {
            target,
            rise,
            moves: n,
        },
        Answer::BackedOut { target, rise, .. } => Answer::BackedOut {
            target,
            rise,
            moves: n,
        },
        _ => answer,
    }
}
