// Number 8, its first part: the state's check, in one pass over the path.
// The scratch `place` is never cleared: under a cell's number stands its place on the path, and it counts only where that place holds the cell.
ghost use Rattle.std.specs.Prelude.{◌≡◌, ◌<◌, ◌≤◌, length};
ghost use Rattle.model.specs.Floor.{Sized, size};
ghost use Rattle.model.specs.Checks.{floor_of};
ghost use Rattle.model.proofs.Accepted.{Settings};
ghost use Rattle.decision.specs.Ready.{Places};
ghost use Rattle.decision.specs.Inner.{is_noted, Stands, Walked, Checked};

use answers::{Job, Refusal, State};
use floor::Floor;

// Whether the cell c is noted among the path's first n.
#[tactic(auto, unfolding(crate::specs::Inner::is_noted))]
pub(crate) fn noted(path: &[u16], place: &[u16], n: usize, c: usize) -> bool
    requires on_path { n ≤ length path.now }
    requires cell { c < length place.now }
    ensures { result ≡ is_noted path.now place.now n c }
{
    let k = usize::from(place[c]);
    k < n && usize::from(path[k]) == c
}

// Whether the path's cell at i is free, no goal, not the current one and not noted yet; then its place is noted.
fn stands(
    job: Job,
    floor: &Floor,
    current: usize,
    path: &[u16],
    i: usize,
    place: &mut [u16],
) -> bool
    requires sized { Sized floor.now }
    requires measured { floor.now ≡ floor_of job floor.now.bytes }
    requires on_path { (i < length path.now) × (i < 4096) }
    requires places { Places place.old path.now i }
    ensures { Stands job floor.now.bytes current path.now i place.new result }
{
    let c = usize::from(path[i]);
    if !floor.is_free(c) || floor::is_goal(job.goals, c) || c == current {
        return false;
    }
    if noted(path, place, i, c) {
        return false;
    }
    place[c] = i as u16;
    true
}

// Whether the path's first n cells can be a path that leads to the current cell; then their places are noted.
fn path_holds(
    job: Job,
    floor: &Floor,
    current: usize,
    path: &[u16],
    n: usize,
    place: &mut [u16],
) -> bool
    requires sized { Sized floor.now }
    requires measured { floor.now ≡ floor_of job floor.now.bytes }
    requires on_path { (n ≤ length path.now) × (n ≤ 4096) }
    requires room { length place.old ≡ 4096 }
    ensures { Walked job floor.now.bytes current path.now n place.new result }
{
    for i in 0..n {
        if !stands(job, floor, current, path, i, place) {
            return false;
        }
    }
    true
}

// 8: u above q × T; path longer than width × height; a path cell off the floor, blocked, a goal, repeated or equal to the current one.
pub(crate) fn state_holds(
    job: Job,
    floor: &Floor,
    state: State,
    path: &[u16],
    place: &mut [u16],
) -> Result<(), Refusal>
    requires measured { floor.now ≡ floor_of job floor.now.bytes }
    requires settings { Settings job }
    requires wide { size floor.now ≤ length path.now }
    requires room { length place.old ≡ 4096 }
    ensures { Checked job floor.now.bytes state path.now place.new result }
{
    let n = state.length;
    if job.q * job.quota < state.learned || floor.cells() < n {
        return Err(Refusal::numbered(8));
    }
    if !path_holds(job, floor, state.current, path, n, place) {
        return Err(Refusal::numbered(8));
    }
    Ok(())
}
