// Backing out: to the path's last cell by the reverse of that cell's own route, or staying where there is no path.
ghost use Rattle.std.specs.Prelude.{◌≡◌, List, ℕ, ◌-◌, ◌<◌, ◌≤◌, length, get_or};
ghost use Rattle.model.specs.Checks.{deepest};
ghost use Rattle.model.specs.Lookahead.{seen, highest_new};
ghost use Rattle.model.specs.Decision as model;
ghost use Rattle.lookahead.specs.Contract.{Asked, Used, Seen};
ghost use Rattle.decision.specs.Laying.{Shown};
ghost use Rattle.decision.specs.Ready.{Ready, Acts};

use super::Acted;
use answers::{Answer, Job, State};
use lookahead::Scratch;

// Back to the path's last cell l, in the window that is seen from there. 8: the current cell is not on its last ring.
fn back_to(
    job: Job,
    floor: &[u8],
    state: State,
    l: usize,
    figure: usize,
    rise: usize,
    last: usize,
    table: &mut [u32],
    base: u32,
    mark: &[u32],
    cost: &[u16],
) -> Acted
    requires asked { Asked job floor.now l }
    requires seen { Seen job floor.now l base mark.now cost.now }
    requires last { (last ≡ (seen job floor.now l).last) × (last ≤ deepest) }
    requires path { 1 ≤ state.length }
    requires table { (state.current < length table.old) × (length table.old ≤ 4096) }
    requires risen { (figure ≤ highest_new) × (rise ≡ figure - get_or table.old state.current 0) }
    ensures acts { (path : List ℕ) → l ≡ get_or path (state.length - 1) 0 → Acts job floor.now state
        (model.go_back job floor.now state table.old path figure) result table.new path }
    ensures shown { (result.base ≡ base) × (result.state.length ≤ state.length) × Shown job floor.now state.current result.answer base mark.now cost.now }
{
    let x = state.current;
    if !lookahead::on_last(job, floor, l, base, mark, cost, last, x) {
        return super::refuse(state, 8, base);
    }
    let leg = lookahead::leg(job, floor, l, base, mark, cost, x);
    super::steps::store(table, x, figure);
    Acted {
        answer: Answer::BackedOut {
            target: l,
            rise,
            moves: 0,
        },
        state: State {
            current: l,
            learned: state.learned,
            length: state.length - 1,
        },
        rise,
        cost: leg,
        base,
    }
}

// Back out: with a path to its last cell, by a lookahead from there; with none the cart stays.
pub(crate) fn go_back(
    job: Job,
    floor: &[u8],
    state: State,
    figure: usize,
    rise: usize,
    table: &mut [u32],
    path: &[u16],
    base: u32,
    scratch: &mut Scratch,
) -> Acted
    requires ready { Ready job floor.now state table.old path.now }
    requires used { Used base scratch.old.mark scratch.old.cost scratch.old.list }
    requires risen { (figure ≤ highest_new) × (rise ≡ figure - get_or table.old state.current 0) }
    ensures acts { Acts job floor.now state (model.go_back job floor.now state table.old path.now figure)
        result table.new path.now }
    ensures used { Used result.base scratch.new.mark scratch.new.cost scratch.new.list × (result.state.length ≤ state.length)
        × Shown job floor.now state.current result.answer result.base scratch.new.mark scratch.new.cost }
{
    let length = state.length;
    if length == 0 {
        super::steps::store(table, state.current, figure);
        return Acted {
            answer: Answer::Stayed { rise },
            state,
            rise,
            cost: 0,
            base,
        };
    }
    let l = usize::from(path[length - 1]);
    let next = lookahead::renew(base, &mut scratch.mark);
    let Some(extent) = lookahead::look(
        job,
        floor,
        l,
        next,
        &mut scratch.mark,
        &mut scratch.cost,
        &mut scratch.list,
    ) else {
        return super::refuse(state, 8, next);
    };
    back_to(
        job,
        floor,
        state,
        l,
        figure,
        rise,
        extent.last,
        table,
        next,
        &scratch.mark,
        &scratch.cost,
    )
}
