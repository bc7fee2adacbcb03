// The checks that several calls make, each equal to its definition in the model.

#![tactic(auto)]

ghost use Rattle.std.specs.Prelude.{◌≡◌, length};
ghost use Rattle.model.specs.Floor.{Floor, size, goals_of};
ghost use Rattle.model.specs.Checks.{path_room, settings, scale, benches, places, goals_hold, figures};
ghost use Rattle.floor.specs.Moves.{flat};
ghost use Rattle.checks.specs.Sizes.{Measures};

use answers::{Goals, Job, Place, Refusal};
use floor::{CEILING, DEEPEST, FINEST, Floor, MOST_GOALS};

// The greatest quota; and the ceiling in the bits of a table's figure.
const LARGEST_QUOTA: usize = 1000000;

const HIGHEST: u32 = CEILING as u32;

// 1: width or height outside 1 to 64; floor or table length not width × height. Past it the floor is one by its type.
pub fn sizes<'a>(
    width: usize,
    height: usize,
    bytes: &'a [u8],
    figures: usize,
) -> Result<Floor<'a>, Refusal>
    ensures { Measures (flat width height bytes.now) figures result }
{
    if width < 1 || 64 < width || height < 1 || 64 < height {
        return Err(Refusal::numbered(1));
    }
    if bytes.len() != width * height || figures != width * height {
        return Err(Refusal::numbered(1));
    }
    Ok(Floor {
        width,
        height,
        bytes,
    })
}

// 2: path list shorter than width × height, the number of cells.
pub fn path_room(cells: usize, path: usize) -> Result<(), Refusal>
    ensures { (f : Floor) → size f ≡ cells → result ≡ path_room f path }
{
    if path < cells {
        return Err(Refusal::numbered(2));
    }
    Ok(())
}

// 3: depth 1 to 8; weight p/q with 1 ≤ p ≤ q ≤ 16; quota 0 to 1,000,000.
pub fn settings(job: Job) -> Result<(), Refusal>
    ensures { result ≡ settings job }
{
    if job.depth < 1 || DEEPEST < job.depth {
        return Err(Refusal::numbered(3));
    }
    if job.p < 1 || job.q < job.p || FINEST < job.q {
        return Err(Refusal::numbered(3));
    }
    if LARGEST_QUOTA < job.quota {
        return Err(Refusal::numbered(3));
    }
    Ok(())
}

// 3 where q is all that is taken.
pub fn scale(q: usize) -> Result<(), Refusal>
    ensures { result ≡ scale q }
{
    if q < 1 || FINEST < q {
        return Err(Refusal::numbered(3));
    }
    Ok(())
}

// 4 where the goals are all that is taken: one is off the floor or blocked.
pub fn benches(floor: &Floor, goals: Goals) -> Result<(), Refusal>
    ensures { result ≡ benches floor.now (goals_of goals) }
{
    for i in 0..floor::goals_in(goals) {
        if !floor.is_free(floor::goal_at(goals, i)) {
            return Err(Refusal::numbered(4));
        }
    }
    Ok(())
}

// 4: start or current cell, or a goal off the floor or blocked.
pub fn places(floor: &Floor, cell: usize, goals: Goals) -> Result<(), Refusal>
    ensures { result ≡ places floor.now cell (goals_of goals) }
{
    if !floor.is_free(cell) {
        return Err(Refusal::numbered(4));
    }
    benches(floor, goals)
}

// 27: no goal or more than four, two that are equal, or out of order.
pub fn goals_hold(goals: Goals) -> Result<(), Refusal>
    ensures { result ≡ goals_hold goals }
{
    if goals.count < 1 || MOST_GOALS < goals.count {
        return Err(Refusal::numbered(27));
    }
    for i in 1..goals.count {
        if floor::goal_at(goals, i) <= floor::goal_at(goals, i - 1) {
            return Err(Refusal::numbered(27));
        }
    }
    Ok(())
}

// 5: a table figure above the ceiling; names the lowest such cell.
pub fn figures(table: &[u32]) -> Result<(), Refusal>
    ensures { (f : Floor) → size f ≡ length table.now → result ≡ figures f table.now }
{
    for (x, figure) in table.iter().enumerate() {
        if HIGHEST < *figure {
            return Err(Refusal {
                number: 5,
                place: Place::Cell(x),
            });
        }
    }
    Ok(())
}
