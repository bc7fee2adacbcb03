// One decision: `judge` makes the checks ahead of the lookahead, `act` is the decision past them, `lay` lays its moves, and `decide` is the public call of all three.

#![tactic(auto)]

mod back;
mod held;
mod moves;
mod steps;

ghost use Rattle.std.specs.Prelude.{◌≡◌, ◌&&◌, ◌+◌, ◌≤◌, ltb, length, Ok};
ghost use Rattle.model.specs.Checks.{ceiling};
ghost use Rattle.model.specs.Decision as model;
ghost use Rattle.model.specs.Decision.{least_room};
ghost use Rattle.lookahead.specs.Contract.{Fresh, Used, Asked, Window};
ghost use Rattle.decision.specs.Ready.{Ready, Places, Judged, Acts, Serves, Decides};
ghost use Rattle.decision.specs.Inner.{refusing, learns};

use answers::{Answer, Decided, Job, Refusal, State};
use floor::CEILING;
use lookahead::{Extent, Scratch};
pub use moves::lay;

// How many places a decision needs for its moves.
pub const LEAST_ROOM: usize = 288;

// What a decision past the checks comes to: its answer, in which no move is counted yet, the state after it, its rise, what its moves cost, and the base of
// the marks that it leaves.
#[derive(Clone, Copy)]
pub struct Acted {
    pub answer: Answer,
    pub state: State,
    pub rise: usize,
    pub cost: usize,
    pub base: u32,
}

// 2: fewer than 288 places left for moves.
fn moves_room(room: usize, from: usize) -> Result<(), Refusal>
    ensures { result ≡ model.moves_room room from }
{
    if room < LEAST_ROOM || room - LEAST_ROOM < from {
        return Err(Refusal::numbered(2));
    }
    Ok(())
}

// The checks ahead of the lookahead, in their order; where they all pass, the path's places are noted.
fn judge(
    job: Job,
    floor: &[u8],
    state: State,
    table: &[u32],
    path: &[u16],
    room: usize,
    from: usize,
    place: &mut [u16],
) -> Result<(), Refusal>
    requires { length place.old ≡ 4096 }
    ensures { Judged job floor.now state table.now path.now room from place.new result }
{
    let floor = checks::sizes(job.width, job.height, floor, table.len())?;
    checks::path_room(table.len(), path.len())?;
    moves_room(room, from)?;
    checks::settings(job)?;
    checks::places(&floor, state.current, job.goals)?;
    checks::goals_hold(job.goals)?;
    checks::figures(table)?;
    held::state_holds(job, &floor, state, path, place)
}

// A decision past the checks that is refused after all: nothing changes.
fn refuse(state: State, number: usize, base: u32) -> Acted
    ensures { result ≡ refusing state number base }
{
    Acted {
        answer: Answer::Refused(Refusal::numbered(number)),
        state,
        rise: 0,
        cost: 0,
        base,
    }
}

// 10: whether a new figure is greater than the one stored, and passes the ceiling.
fn too_high(old: usize, figure: usize) -> bool
    ensures { result ≡ (ltb old figure && ltb ceiling figure) }
{
    old < figure && CEILING < figure
}

// In a window that is worked out: the new figure and the target, and by the quota forward or back.
fn learn(
    job: Job,
    floor: &[u8],
    state: State,
    extent: Extent,
    table: &mut [u32],
    path: &mut [u16],
    base: u32,
    scratch: &mut Scratch,
    place: &mut [u16],
) -> Acted
    requires ready { Ready job floor.now state table.old path.old }
    requires asked { Asked job floor.now state.current }
    requires window { Window job floor.now state.current base scratch.old.mark scratch.old.cost scratch.old.list extent.n extent.last }
    requires places { Places place.old path.old state.length }
    ensures acts { Acts job floor.now state (learns job floor.now state table.old path.old)
        result table.new path.new }
    ensures serves { Serves job floor.now state result scratch.new place.new path.new }
{
    let s = state.current;
    let aim = lookahead::aim(
        job,
        floor,
        s,
        table,
        base,
        &scratch.mark,
        &scratch.cost,
        &scratch.list,
        extent,
    );
    let old = table[s] as usize;
    if too_high(old, aim.figure) {
        return refuse(state, 10, base);
    }
    let rise = aim.figure.saturating_sub(old);
    if state.learned + rise <= job.q * job.quota {
        return steps::forward(job, floor, state, aim, rise, table, path, base, place);
    }
    back::go_back(
        job, floor, state, aim.figure, rise, table, path, base, scratch,
    )
}

// Away from any goal: the lookahead, and number 9.
fn go(
    job: Job,
    floor: &[u8],
    state: State,
    table: &mut [u32],
    path: &mut [u16],
    base: u32,
    scratch: &mut Scratch,
    place: &mut [u16],
) -> Acted
    requires ready { Ready job floor.now state table.old path.old }
    requires asked { Asked job floor.now state.current }
    requires fresh { Fresh base scratch.old.mark scratch.old.cost scratch.old.list }
    requires places { Places place.old path.old state.length }
    ensures acts { Acts job floor.now state (model.act job floor.now state table.old path.old)
        result table.new path.new }
    ensures serves { Serves job floor.now state result scratch.new place.new path.new }
{
    let Some(extent) = lookahead::look(
        job,
        floor,
        state.current,
        base,
        &mut scratch.mark,
        &mut scratch.cost,
        &mut scratch.list,
    ) else {
        return refuse(state, 9, base);
    };
    learn(job, floor, state, extent, table, path, base, scratch, place)
}

// A decision past the checks. Scratch is lent: `scratch` is the lookahead's, and `place` has the path's places.
// Its moves can be laid after it, by `lay`, from what it leaves there.
pub fn act(
    job: Job,
    floor: &[u8],
    state: State,
    table: &mut [u32],
    path: &mut [u16],
    base: u32,
    scratch: &mut Scratch,
    place: &mut [u16],
) -> Acted
    requires ready { Ready job floor.now state table.old path.old }
    requires used { Used base scratch.old.mark scratch.old.cost scratch.old.list }
    requires places { Places place.old path.old state.length }
    ensures acts { Acts job floor.now state (model.act job floor.now state table.old path.old)
        result table.new path.new }
    ensures serves { Serves job floor.now state result scratch.new place.new path.new }
{
    if floor::is_goal(job.goals, state.current) {
        return Acted {
            answer: Answer::Arrived,
            state,
            rise: 0,
            cost: 0,
            base,
        };
    }
    let next = lookahead::renew(base, &mut scratch.mark);
    go(job, floor, state, table, path, next, scratch, place)
}

// A decision that was let through and its moves, with the lookahead's scratch in its frame.
fn decide_past(
    job: Job,
    floor: &[u8],
    state: State,
    table: &mut [u32],
    path: &mut [u16],
    moves: &mut [u8],
    from: usize,
    place: &mut [u16],
) -> Decided
    requires ready { Ready job floor.now state table.old path.old }
    requires room { from + least_room ≤ length moves.old }
    requires places { Places place.old path.old state.length }
    ensures { Decides (model.outcome_of (Ok tt) (model.act job floor.now state table.old path.old) state
        table.old path.old moves.old from) result table.new path.new moves.new }
{
    let mut scratch = Scratch::new();
    let acted = act(job, floor, state, table, path, 1, &mut scratch, place);
    let n = lay(
        job,
        floor,
        state.current,
        acted.answer,
        acted.base,
        &scratch.mark,
        &scratch.cost,
        moves,
        from,
    );
    Decided {
        answer: moves::count(acted.answer, n),
        state: acted.state,
    }
}

// One decision: the checks, then the decision past them and its moves. A refused call changes nothing.
pub fn decide(
    job: Job,
    floor: &[u8],
    state: State,
    table: &mut [u32],
    path: &mut [u16],
    moves: &mut [u8],
    from: usize,
) -> Decided
    ensures { Decides (model.decide job floor.now state table.old path.old moves.old from)
        result table.new path.new moves.new }
{
    let mut place = [0u16; 4096];
    let room = moves.len();
    match judge(job, floor, state, table, path, room, from, &mut place) {
        Ok(()) => decide_past(job, floor, state, table, path, moves, from, &mut place),
        Err(r) => Decided {
            answer: Answer::Refused(r),
            state,
        },
    }
}
