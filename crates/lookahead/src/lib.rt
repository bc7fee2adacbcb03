// The lookahead: the window around a cell, the new figure and the target, and the route to a cell of the window.
// Scratch is lent and never cleared: a cell's mark is the base and its ring, and a cell is unmarked while its mark is below the base.

#![tactic(auto)]

mod bests;
mod costs;
mod rings;
mod route;

ghost use Rattle.std.specs.Prelude.{◌≡◌, ◌/◌, ◌<◌, ◌≤◌, eqb, length};
ghost use Rattle.model.specs.Floor.{Sized, dearest_price};
ghost use Rattle.model.specs.Checks.{deepest};
ghost use Rattle.model.specs.Lookahead as model;
ghost use Rattle.floor.specs.Moves.{Placed};
ghost use Rattle.lookahead.specs.Contract.{Marks, Spent, Fresh, Used, Asked, Near, Seen, Window, Looked, Figures, Aimed, Traced};
ghost use Rattle.lookahead.specs.Marks.{FineStep};

use answers::Job;
use floor::{CEILING, DEAREST_PRICE, DEEPEST, FINEST, Floor, LEAST_PRICE, Spot, Step};

// What a leg costs at most, how many moves its route has at most, and what a new figure comes to at most.
pub const DEAREST_LEG: usize = DEAREST_PRICE as usize * DEEPEST;

pub const MOST_MOVES: usize = DEAREST_LEG / LEAST_PRICE as usize;

const HIGHEST_NEW: usize = CEILING + FINEST * DEAREST_LEG;

// The costs in the lists are fine: so many times what a walk costs, and 1 for each of its moves. So of walks that cost the same the one with fewest moves is
// the least, and where there are fewer moves than this, a walk that costs more is never less.
const FINENESS: u16 = 32;

// The least fine price of a move.
const FINE_LEAST: usize = FINENESS as usize * LEAST_PRICE as usize + 1;

// How many rings there are; and a ring's best before a cell is entered, which is more than any key.
const MOST_RINGS: usize = DEEPEST + 1;

const UNSET: usize = (HIGHEST_NEW + 1) * 4096;

// How far a lookahead's base is from the next one's: past its rings; and the last base that leaves the 32 bits of a mark room for one.
const STRIDE: u32 = 2 * DEEPEST as u32;

const LAST_BASE: u32 = 4294967295 - STRIDE;

// What a lookahead is lent, for whoever owns all of it; the functions take the lists apart. A cell's mark and its fine cost stand under its number; the list has
// two places for each cell of the window: at i the cell, and at i + 4096 the cost at which its moves were followed last, 65535 before they were.
// (Laid out as in C, so that an export may be lent one.)
#[repr(C)]
#[derive(Drop)]
pub struct Scratch {
    pub mark: [u32; 4096],
    pub cost: [u16; 4096],
    pub list: [u16; 8192],
}

impl Scratch {
    // Scratch as a lookahead of base 1 would have left it.
    pub fn new() -> Scratch
        ensures { Used 1 result.mark result.cost result.list }
    {
        Scratch {
            mark: [0; 4096],
            cost: [0; 4096],
            list: [0; 8192],
        }
    }
}

// How far the window around a cell reaches: its last ring, and how many cells it has.
#[derive(Clone, Copy)]
pub struct Extent {
    pub last: usize,
    pub n: usize,
}

// The new figure, the target, and what the way to it costs.
#[derive(Clone, Copy)]
pub struct Ahead {
    pub figure: usize,
    pub target: usize,
    pub leg: usize,
}

// A cell, and the move from it.
#[derive(Clone, Copy)]
struct Link {
    cell: usize,
    m: usize,
}

// The fine price of a move.
fn fine(price: u16) -> u16
    requires { price ≤ dearest_price }
    ensures { result ≡ model.fine price }
{
    FINENESS * price + 1
}

// The move m from a free cell, at its fine price: None where nothing may be moved into.
fn fine_step(floor: &Floor, cell: usize, at: Spot, m: usize) -> Option<Step>
    requires sized { Sized floor.now }
    requires placed { Placed floor.now cell at }
    requires eight { m < 8 }
    ensures { FineStep floor.now cell m result }
{
    let Step { cell: to, cost } = floor.step(cell, at, m)?;
    Some(Step {
        cell: to,
        cost: fine(cost),
    })
}

// What a walk costs, of its fine cost.
fn coarse(cost: u16) -> usize
    ensures { result ≡ cost / model.fineness }
{
    usize::from(cost / FINENESS)
}

// The next lookahead's base. Where the 32 bits of a mark would run out, the marks are cleared, and it starts again.
pub fn renew(base: u32, mark: &mut [u32]) -> u32
    requires { Spent base mark.old }
    ensures { Marks result mark.new }
{
    if base <= LAST_BASE - STRIDE {
        return base + STRIDE;
    }
    mark.fill(0);
    1
}

// The window around s, which is no goal; None where a ring up to the last is empty.
pub fn look(
    job: Job,
    floor: &[u8],
    s: usize,
    base: u32,
    mark: &mut [u32],
    cost: &mut [u16],
    list: &mut [u16],
) -> Option<Extent>
    requires asked { Asked job floor.now s }
    requires fresh { Fresh base mark.old cost.old list.old }
    ensures { Looked job floor.now s base mark.new cost.new list.new result }
{
    let floor = Floor {
        width: job.width,
        height: job.height,
        bytes: floor,
    };
    let extent = rings::rings(&floor, s, job.goals, job.depth, base, mark, cost, list)?;
    costs::relax(&floor, base, mark, cost, list, extent.n);
    Some(extent)
}

// Whether x is on the last ring.
pub fn on_last(
    job: Job,
    floor: &[u8],
    s: usize,
    base: u32,
    mark: &[u32],
    cost: &[u16],
    last: usize,
    x: usize,
) -> bool
    requires seen { Seen job floor.now s base mark.now cost.now }
    requires last { last ≡ (model.seen job floor.now s).last }
    requires deep { last ≤ deepest }
    requires cell { x < 4096 }
    ensures { result ≡ eqb (model.ring job floor.now (model.seen job floor.now s) x) (model.seen job floor.now s).last }
{
    mark[x] as usize == base as usize + last
}

// What the way to the cell x of the window costs: at most the dearest leg.
pub fn leg(
    job: Job,
    floor: &[u8],
    s: usize,
    base: u32,
    mark: &[u32],
    cost: &[u16],
    x: usize,
) -> usize
    requires asked { Asked job floor.now s }
    requires seen { Seen job floor.now s base mark.now cost.now }
    requires near { Near job floor.now s x }
    ensures { (result ≡ model.w job floor.now (model.seen job floor.now s) x) × (result ≤ model.dearest_leg) }
{
    coarse(cost[x])
}

// The new figure and the target, in a window that is worked out.
pub fn aim(
    job: Job,
    floor: &[u8],
    s: usize,
    table: &[u32],
    base: u32,
    mark: &[u32],
    cost: &[u16],
    list: &[u16],
    extent: Extent,
) -> Ahead
    requires asked { Asked job floor.now s }
    requires window { Window job floor.now s base mark.now cost.now list.now extent.n extent.last }
    requires figures { Figures job floor.now table.now }
    ensures { Aimed job floor.now s table.now result }
{
    let mut best = [UNSET; MOST_RINGS];
    bests::weigh_all(table, job.p, base, mark, cost, list, extent.n, &mut best);
    let top = bests::greatest(&best, extent.last);
    let target = best[extent.last] % 4096;
    Ahead {
        figure: top / 4096,
        target,
        leg: coarse(cost[target]),
    }
}

// The moves of the route to the cell x of the window are written at the front of out; their number. A route costs at most the
// dearest leg and each of its moves the least price or more.
pub fn trace(
    job: Job,
    floor: &[u8],
    s: usize,
    base: u32,
    mark: &[u32],
    cost: &[u16],
    x: usize,
    out: &mut [u8],
) -> usize
    requires asked { Asked job floor.now s }
    requires seen { Seen job floor.now s base mark.now cost.now }
    requires near { Near job floor.now s x }
    requires room { model.most_moves ≤ length out.old }
    ensures { Traced job floor.now s x out.old out.new result }
{
    let mut way = [0u8; MOST_MOVES];
    let k = route::collect(job, floor, s, base, mark, cost, x, &mut way);
    let n = MOST_MOVES - k;
    out[..n].copy_from_slice(&way[k..]);
    n
}
