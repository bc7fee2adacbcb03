// The best of each ring, as a key: p × w + figure, and below that the cell. The least key of a ring has its best, and of equal ones the lowest cell.
ghost use Rattle.std.specs.Prelude.{◌≡◌, ◌<◌, ◌≤◌, ◌+◌, min, length, get_or, set};
ghost use Rattle.model.specs.Checks.{deepest};
ghost use Rattle.lookahead.specs.Marks.{In};
ghost use Rattle.lookahead.specs.Costs.{Listing};
ghost use Rattle.lookahead.specs.Bests.{most_rings, ring_at, key, Scores, Bests, Topped};

use super::coarse;

// The key v is entered at ring k, if it is lower.
fn enter(best: &mut [usize], k: usize, v: usize)
    requires { k < length best.old }
    ensures { best.new ≡ set best.old k (min v (get_or best.old k 0)) }
{
    if v < best[k] {
        best[k] = v;
    }
}

// The key of the cell c of the window is entered at its ring.
fn weigh(
    table: &[u32],
    p: usize,
    base: u32,
    mark: &[u32],
    cost: &[u16],
    c: usize,
    best: &mut [usize],
)
    requires scores { Scores base mark.now cost.now table.now p }
    requires inside { In base mark.now c }
    requires rings { length best.old ≡ most_rings }
    ensures { best.new ≡ set best.old (ring_at base mark.now c)
        (min (key cost.now table.now p c) (get_or best.old (ring_at base mark.now c) 0)) }
{
    let k = (mark[c] - base) as usize;
    let v = p * coarse(cost[c]) + table[c] as usize;
    enter(best, k, v * 4096 + c);
}

// The keys of the window's n cells.
pub(crate) fn weigh_all(
    table: &[u32],
    p: usize,
    base: u32,
    mark: &[u32],
    cost: &[u16],
    list: &[u16],
    n: usize,
    best: &mut [usize],
)
    requires scores { Scores base mark.now cost.now table.now p }
    requires listing { Listing base mark.now list.now n }
    requires none { Bests base mark.now cost.now table.now p list.now 0 best.old }
    ensures { Bests base mark.now cost.now table.now p list.now n best.new }
{
    for i in 0..n {
        weigh(table, p, base, mark, cost, usize::from(list[i]), best);
    }
}

// The greatest of the keys of rings 1 to last.
pub(crate) fn greatest(best: &[usize], last: usize) -> usize
    requires rings { length best.now ≡ most_rings }
    requires last { (1 ≤ last) × (last ≤ deepest) }
    ensures { Topped best.now (last + 1) result }
{
    let mut top = 0;
    for k in 1..last + 1 {
        top = top.max(best[k]);
    }
    top
}
