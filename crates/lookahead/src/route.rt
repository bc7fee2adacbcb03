// The route to a cell of the window, found backward: each time the lowest cell from which one move gives exactly the fine cost of the cell reached,
// and so the lowest from which a route of fewest moves at the least cost goes on.
ghost use Rattle.std.specs.Prelude.{◌≡◌, ℕ, ◌<◌, length};
ghost use Rattle.model.specs.Lookahead.{most_moves};
ghost use Rattle.lookahead.specs.Contract.{Asked, Near, Seen};
ghost use Rattle.lookahead.specs.Marks.{In};
ghost use Rattle.lookahead.specs.Costs.{Costs, Cell};
ghost use Rattle.lookahead.specs.Way.{rising_move, Before, Led, Prior, Collected};

use super::{Link, MOST_MOVES, fine_step};
use answers::Job;
use floor::{Floor, Spot, Step};

// The k-th of the eight moves, by the cells that they lead to, the lowest first.
fn rising(k: usize) -> usize
    requires { k < 8 }
    ensures { result ≡ rising_move k }
{
    match k {
        0 => 7,
        1 => 0,
        2 => 1,
        3 => 6,
        4 => 2,
        5 => 5,
        6 => 4,
        _ => 3,
    }
}

// The cell before x that the move j leads to from x, and the move from there; None where it leads to no such cell.
fn led(
    floor: &Floor,
    base: u32,
    mark: &[u32],
    cost: &[u16],
    x: usize,
    spot: Spot,
    j: usize,
) -> Option<Link>
    requires costs { Costs floor.now base mark.now cost.now }
    requires cell { Cell floor.now base x spot mark.now }
    requires eight { j < 8 }
    ensures { Led floor.now base mark.now cost.now x j result }
{
    let Step { cell, cost: v } = fine_step(floor, x, spot, j)?;
    if mark[cell] < base || cost[cell] + v != cost[x] {
        return None;
    }
    Some(Link {
        cell,
        m: (j + 4) % 8,
    })
}

// The lowest cell before x, and the move from it: the first that a move leads to, the moves to the lowest cells being tried first.
fn back(floor: &Floor, base: u32, mark: &[u32], cost: &[u16], x: usize) -> Link
    requires costs { Costs floor.now base mark.now cost.now }
    requires inside { In base mark.now x }
    requires some { ((y : ℕ) × Before floor.now base mark.now cost.now x y) }
    ensures { Prior floor.now base mark.now cost.now x result }
{
    let spot = floor.spot(x);
    for k in 0..8 {
        if let Some(link) = led(floor, base, mark, cost, x, spot, rising(k)) {
            return link;
        }
    }
    unreachable!()
}

// The moves of the route from s to x, found backward, are written at the end of way; where the first of them stands.
pub(crate) fn collect(
    job: Job,
    floor: &[u8],
    s: usize,
    base: u32,
    mark: &[u32],
    cost: &[u16],
    x: usize,
    way: &mut [u8],
) -> usize
    requires asked { Asked job floor.now s }
    requires seen { Seen job floor.now s base mark.now cost.now }
    requires near { Near job floor.now s x }
    requires room { length way.old ≡ most_moves }
    ensures { Collected job floor.now s x way.new result }
{
    let floor = Floor {
        width: job.width,
        height: job.height,
        bytes: floor,
    };
    let mut cell = x;
    // The last move is found first, so the place counts down.
    let mut k = MOST_MOVES;
    while cell != s {
        let link = back(&floor, base, mark, cost, cell);
        k -= 1;
        way[k] = link.m as u8;
        cell = link.cell;
    }
    k
}
