// What a decision stores: the figure and the path's next cell. And going forward.
ghost use Rattle.std.specs.Prelude.{◌≡◌, ◌-◌, ◌<◌, ◌≤◌, length, get_or};
ghost use Rattle.model.specs.Lookahead.{seen, highest_new};
ghost use Rattle.model.specs.Decision as model;
ghost use Rattle.lookahead.specs.Contract.{Asked, Aimed};
ghost use Rattle.decision.specs.Ready.{Ready, Places, Acts};
ghost use Rattle.decision.specs.Inner.{Open, Extended};

use super::Acted;
use answers::{Answer, Job, State};
use lookahead::Ahead;

// The new figure is stored where it is greater than the cell's. It is at most the ceiling and what the way there adds.
pub(crate) fn store(table: &mut [u32], cell: usize, figure: usize)
    requires { (cell < length table.old) × (figure ≤ highest_new) }
    ensures { table.new ≡ model.stored table.old cell figure }
{
    if (table[cell] as usize) < figure {
        table[cell] = figure as u32;
    }
}

// The current cell is written after the path's last, and its place noted. Where the target is on the path, the path is cut there. The new length.
fn extend(path: &mut [u16], place: &mut [u16], n: usize, current: usize, target: usize) -> usize
    requires writable { Open path.old place.old n current }
    requires target { target < 4096 }
    ensures { Extended path.old n current target path.new place.new result }
{
    path[n] = current as u16;
    place[current] = n as u16;
    if super::held::noted(path, place, n + 1, target) {
        return usize::from(place[target]);
    }
    n + 1
}

// Forward to the target.
pub(crate) fn forward(
    job: Job,
    floor: &[u8],
    state: State,
    aim: Ahead,
    rise: usize,
    table: &mut [u32],
    path: &mut [u16],
    base: u32,
    place: &mut [u16],
) -> Acted
    requires ready { Ready job floor.now state table.old path.old }
    requires asked { Asked job floor.now state.current }
    requires aimed { Aimed job floor.now state.current table.old aim }
    requires risen { rise ≡ aim.figure - get_or table.old state.current 0 }
    requires places { Places place.old path.old state.length }
    ensures acts { Acts job floor.now state
        (model.forward job floor.now state (seen job floor.now state.current) table.old path.old aim.figure aim.target)
        result table.new path.new }
    ensures places { (result.base ≡ base) × (result.answer ≡ Answer.Forward aim.target rise 0) × Places place.new path.new result.state.length }
{
    let s = state.current;
    let n = state.length;
    let target = aim.target;
    let length = extend(path, place, n, s, target);
    store(table, s, aim.figure);
    Acted {
        answer: Answer::Forward {
            target,
            rise,
            moves: 0,
        },
        state: State {
            current: target,
            learned: state.learned + rise,
            length,
        },
        rise,
        cost: aim.leg,
        base,
    }
}
