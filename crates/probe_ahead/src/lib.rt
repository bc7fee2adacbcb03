// A lookahead exported for its bench, on plain numbers and lists. It stands alone, so that what is measured is compiled as a lookahead and nothing else.

#![tactic(auto)]

ghost use Rattle.std.specs.Prelude.{◌≤◌, length};
ghost use Rattle.model.specs.Lookahead.{most_moves};
ghost use Rattle.lookahead.specs.Contract.{Asked, Fresh, Figures};
ghost use Rattle.probe_ahead.specs.Plain.{plain};

use answers::{Goals, Job};

// With as many goals as the count says, one or two: the new figure times 2^20, the target times 256 and the number of moves; 0 where a ring is empty.
#[unsafe(no_mangle)]
pub extern "C" fn probe_plan(
    width: usize,
    height: usize,
    count: usize,
    goal: usize,
    other: usize,
    depth: usize,
    p: usize,
    floor: &[u8],
    s: usize,
    table: &[u32],
    base: u32,
    mark: &mut [u32],
    cost: &mut [u16],
    list: &mut [u16],
    out: &mut [u8],
) -> usize
    requires asked { Asked (plain width height count goal other depth p) floor.now s }
    requires fresh { Fresh base mark.old cost.old list.old }
    requires figures { Figures (plain width height count goal other depth p) floor.now table.now }
    requires room { most_moves ≤ length out.old }
{
    let goals = Goals {
        count,
        first: goal,
        second: other,
        third: 0,
        fourth: 0,
    };
    let job = Job {
        width,
        height,
        goals,
        depth,
        p,
        q: 16,
        quota: 0,
    };
    let Some(extent) = lookahead::look(job, floor, s, base, mark, cost, list) else {
        return 0;
    };
    let a = lookahead::aim(job, floor, s, table, base, mark, cost, list, extent);
    let moves = lookahead::trace(job, floor, s, base, mark, cost, a.target, out);
    packed(a.figure, a.target, moves)
}

fn packed(figure: usize, target: usize, moves: usize) -> usize {
    figure % 1048576 * 1048576 + target % 4096 * 256 + moves % 256
}
