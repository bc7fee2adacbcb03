// The rings around a cell are marked one after another, their cells put into a list, and costs lowered on the way.
ghost use Rattle.std.specs.Prelude.{◌≡◌, true, false, ◌<◌, ◌≤◌, leb, length, get_or};
ghost use Rattle.model.specs.Basics.{any, member};
ghost use Rattle.model.specs.Floor.{Sized, free, goals_of};
ghost use Rattle.model.specs.Checks.{deepest};
ghost use Rattle.lookahead.specs.Contract.{Fresh};
ghost use Rattle.lookahead.specs.Marks.{state, begun, Sizes, Room, Reached, Leaving, Extended, Open, Left, Segment, Swept};
ghost use Rattle.lookahead.specs.Rings.{EachBelow, Rings};

use super::{Extent, fine_step};
use answers::Goals;
use floor::{Floor, Spot, Step};

// The cell d is reached at the cost v. With no mark yet it gets the mark k and goes into the list; with one its cost is lowered, if v is lower.
fn reach(
    base: u32,
    mark: &mut [u32],
    cost: &mut [u16],
    list: &mut [u16],
    n: usize,
    d: usize,
    k: u32,
    v: u16,
) -> usize
    requires sizes { Sizes base (state mark.old cost.old list.old n) }
    requires cell { d < 4096 }
    ensures { Reached base d k v (state mark.old cost.old list.old n)
        (state mark.new cost.new list.new result) }
{
    if base <= mark[d] {
        if v < cost[d] {
            cost[d] = v;
        }
        return n;
    }
    mark[d] = k;
    cost[d] = v;
    list[n] = d as u16;
    list[n + 4096] = 65535;
    n + 1
}

// The move m from the cell c of mark k and cost w: the cell moved into is reached.
fn extend(
    floor: &Floor,
    base: u32,
    mark: &mut [u32],
    cost: &mut [u16],
    list: &mut [u16],
    n: usize,
    c: usize,
    spot: Spot,
    m: usize,
    k: u32,
    w: u16,
) -> usize
    requires room { Room floor.now base (state mark.old cost.old list.old n) }
    requires leaving { Leaving floor.now base c spot k w (state mark.old cost.old list.old n) }
    requires eight { m < 8 }
    ensures { Extended floor.now base k c m w (state mark.old cost.old list.old n)
        (state mark.new cost.new list.new result) }
{
    let Some(Step { cell, cost: v }) = fine_step(floor, c, spot, m) else {
        return n;
    };
    reach(base, mark, cost, list, n, cell, k + 1, w + v)
}

// Every move from the cell c of mark k and cost w.
fn visit(
    floor: &Floor,
    base: u32,
    mark: &mut [u32],
    cost: &mut [u16],
    list: &mut [u16],
    n: usize,
    c: usize,
    k: u32,
    w: u16,
) -> usize
    requires room { Room floor.now base (state mark.old cost.old list.old n) }
    requires unvisited { Open floor.now base c k w (state mark.old cost.old list.old n) }
    ensures { Left floor.now base k c 8 w (state mark.old cost.old list.old n)
        (state mark.new cost.new list.new result) }
{
    let spot = floor.spot(c);
    let mut end = n;
    for m in 0..8 {
        end = extend(floor, base, mark, cost, list, end, c, spot, m, k, w);
    }
    end
}

// Every move from each cell of mark k, which stand in the list from `from` to `to`, its end.
fn spread(
    floor: &Floor,
    base: u32,
    mark: &mut [u32],
    cost: &mut [u16],
    list: &mut [u16],
    from: usize,
    to: usize,
    k: u32,
) -> usize
    requires room { Room floor.now base (state mark.old cost.old list.old to) }
    requires segment { Segment base from to k (state mark.old cost.old list.old to) }
    ensures { Swept floor.now base k from to (state mark.old cost.old list.old to)
        (state mark.new cost.new list.new result) }
{
    let mut end = to;
    for i in from..to {
        let c = usize::from(list[i]);
        let w = cost[c];
        end = visit(floor, base, mark, cost, list, end, c, k, w);
        list[i + 4096] = w;
    }
    end
}

// Only s has a mark: its ring is 0.
fn begin(base: u32, mark: &mut [u32], cost: &mut [u16], list: &mut [u16], s: usize)
    requires { (s < 4096) × ((length mark.old ≡ 4096) × ((length cost.old ≡ 4096) × (length list.old ≡ 8192))) }
    ensures { state mark.new cost.new list.new 1 ≡ begun base mark.old cost.old list.old s }
{
    mark[s] = base;
    cost[s] = 0;
    list[0] = s as u16;
    list[4096] = 65535;
}

// Whether a goal is in a ring that is marked.
fn goal_marked(base: u32, mark: &[u32], goals: Goals) -> bool
    requires { EachBelow 4096 (goals_of goals) × (length mark.now ≡ 4096) }
    ensures { result ≡ any (λ g. leb base (get_or mark.now g 0)) (goals_of goals) }
{
    for i in 0..floor::goals_in(goals) {
        if base <= mark[floor::goal_at(goals, i)] {
            return true;
        }
    }
    false
}

// The rings around s are marked, up to the depth's or the nearest goal's; None where one of them is empty.
pub(crate) fn rings(
    floor: &Floor,
    s: usize,
    goals: Goals,
    depth: usize,
    base: u32,
    mark: &mut [u32],
    cost: &mut [u16],
    list: &mut [u16],
) -> Option<Extent>
    requires sized { Sized floor.now }
    requires free { free floor.now s ≡ true }
    requires goals { EachBelow 4096 (goals_of goals) × (member s (goals_of goals) ≡ false) }
    requires depth { (1 ≤ depth) × (depth ≤ deepest) }
    requires fresh { Fresh base mark.old cost.old list.old }
    ensures { Rings floor.now s (goals_of goals) depth base mark.new cost.new list.new result }
{
    begin(base, mark, cost, list, s);
    let mut from = 0;
    let mut to = 1;
    for r in 0..depth {
        let end = spread(floor, base, mark, cost, list, from, to, base + r as u32);
        if end == to {
            return None;
        }
        from = to;
        to = end;
        if goal_marked(base, mark, goals) {
            return Some(Extent { last: r + 1, n: to });
        }
    }
    Some(Extent { last: depth, n: to })
}
