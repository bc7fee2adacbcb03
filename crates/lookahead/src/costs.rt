// The fine costs in a window are lowered along its moves until none can be lowered: each is then the least of a walk that stays in the window.
// Only the moves of a cell whose cost fell since they were followed need to be followed again; the list says at which cost that was.
ghost use Rattle.std.specs.Prelude.{◌≡◌, false, ℕ, ◌<◌, length, get_or};
ghost use Rattle.lookahead.specs.Marks.{note_at, In};
ghost use Rattle.lookahead.specs.Costs.{at, Costs, Lower, Lowered, Cell, Eased, Easing, Followed, Listing, Noted, Topmost, Again, Passed, Relaxed};

use super::{FINE_LEAST, fine_step};
use floor::{Floor, Spot, Step};

// The cell d gets the cost v if that is lower; whether a cost was lowered, here or before.
fn lower(cost: &mut [u16], d: usize, v: u16, changed: bool) -> bool
    requires { d < length cost.old }
    ensures { Lower d v changed cost.old cost.new result }
{
    if v < cost[d] {
        cost[d] = v;
        return true;
    }
    changed
}

// The move m from the cell c of the window, of cost w, lowers the cost of the cell moved into.
fn ease(
    floor: &Floor,
    base: u32,
    mark: &[u32],
    cost: &mut [u16],
    c: usize,
    spot: Spot,
    m: usize,
    w: u16,
    changed: bool,
) -> bool
    requires costs { Costs floor.now base mark.now cost.old }
    requires cell { Cell floor.now base c spot mark.now }
    requires eight { m < 8 }
    requires own { at cost.old c ≡ w }
    ensures { Lowered floor.now base mark.now
        (Eased floor.now base mark.now c m w) cost.old changed cost.new result }
{
    let Some(Step { cell, cost: v }) = fine_step(floor, c, spot, m) else {
        return changed;
    };
    if mark[cell] < base {
        return changed;
    }
    lower(cost, cell, w + v, changed)
}

// Every move from the cell c of the window, of cost w.
fn ease_cell(
    floor: &Floor,
    base: u32,
    mark: &[u32],
    cost: &mut [u16],
    c: usize,
    w: u16,
    changed: bool,
) -> bool
    requires costs { Costs floor.now base mark.now cost.old }
    requires inside { In base mark.now c }
    requires own { at cost.old c ≡ w }
    ensures { Lowered floor.now base mark.now
        (Easing floor.now base mark.now c 8 w) cost.old changed cost.new result }
{
    let spot = floor.spot(c);
    let mut any = changed;
    for m in 0..8 {
        any = ease(floor, base, mark, cost, c, spot, m, w, any);
    }
    any
}

// The moves of the list's i-th cell are followed, if its cost fell since they were. Where no cost is above `high`, a move from a cell that costs
// the least fine price less than that, or more, lowers none.
fn ease_again(
    floor: &Floor,
    base: u32,
    mark: &[u32],
    cost: &mut [u16],
    list: &mut [u16],
    i: usize,
    high: usize,
    changed: bool,
) -> bool
    requires costs { Costs floor.now base mark.now cost.old }
    requires listed { (length list.old ≡ 8192) × (i < 4096) × In base mark.now (get_or list.old i 0) }
    requires topmost { Topmost base mark.now cost.old high }
    requires followed { Followed floor.now base mark.now (get_or list.old i 0) 8 (note_at list.old i) cost.old }
    ensures { Again floor.now base mark.now i
        cost.old list.old changed cost.new list.new result }
{
    let c = usize::from(list[i]);
    let w = cost[c];
    if list[i + 4096] <= w {
        return changed;
    }
    list[i + 4096] = w;
    if high <= usize::from(w) + FINE_LEAST {
        return changed;
    }
    ease_cell(floor, base, mark, cost, c, w, changed)
}

// Each of the window's n cells whose cost fell since its moves were followed: whether a cost was lowered.
fn pass(
    floor: &Floor,
    base: u32,
    mark: &[u32],
    cost: &mut [u16],
    list: &mut [u16],
    n: usize,
    high: usize,
) -> bool
    requires costs { Costs floor.now base mark.now cost.old }
    requires listing { Listing base mark.now list.old n }
    requires noted { Noted floor.now base mark.now list.old n cost.old }
    requires topmost { Topmost base mark.now cost.old high }
    ensures { Passed floor.now base mark.now n n
        cost.old cost.new list.new result }
{
    let mut any = false;
    for i in 0..n {
        any = ease_again(floor, base, mark, cost, list, i, high, any);
    }
    any
}

// The greatest cost of the window's n cells.
fn highest(base: u32, mark: &[u32], cost: &[u16], list: &[u16], n: usize) -> usize
    requires listing { Listing base mark.now list.now n }
    requires costs { (length cost.now ≡ 4096) × ((x : ℕ) → In base mark.now x → x < 4096) }
    ensures { Topmost base mark.now cost.now result }
{
    let mut high = 0;
    for i in 0..n {
        high = high.max(usize::from(cost[usize::from(list[i])]));
    }
    high
}

// Passes over the window until no cost is lowered.
pub(crate) fn relax(
    floor: &Floor,
    base: u32,
    mark: &[u32],
    cost: &mut [u16],
    list: &mut [u16],
    n: usize,
)
    requires costs { Costs floor.now base mark.now cost.old }
    requires listing { Listing base mark.now list.old n }
    requires noted { Noted floor.now base mark.now list.old n cost.old }
    ensures { Relaxed floor.now base mark.now n cost.old cost.new list.new }
{
    let high = highest(base, mark, cost, list, n);
    while pass(floor, base, mark, cost, list, n, high) {}
}
