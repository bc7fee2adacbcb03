// Opening a job: the checks 1 to 7 and 27, of which 6 and 7 are judged by the true distances, and the table of opening figures.

#![tactic(auto)]

mod search;

ghost use Rattle.std.specs.Prelude.{◌≡◌, List, ℕ, ◌*◌, ◌≤◌, ◌<◌, length, get_or};
ghost use Rattle.model.specs.Basics.{naming};
ghost use Rattle.model.specs.Floor.{size, opening_table, goals_of};
ghost use Rattle.model.specs.Checks.{finest, floor_of, Benched};
ghost use Rattle.model.specs.Opening.{soundness, accepts, open_job, open_trial, reports_room, trials_hold, open_run, open_table};
ghost use Rattle.model.specs.Line.{job_in};
ghost use Rattle.floor.specs.Moves.{flat};
ghost use Rattle.opening.specs.Distances.{above, judged, Openable};
ghost use Rattle.floor.specs.Let.{LetsThrough};
ghost use Rattle.opening.specs.Promise.{Answers, Fills, run_settings, line_holds};

use answers::{Goals, Job, Place, Refusal, Settings};
use floor::Floor;
use search::FAR;
pub use search::find_distances;

// Whether a figure is above the true figure of a cell at distance d, which can reach a goal.
fn is_above(q: usize, d: u32, figure: u32) -> bool
    requires { q ≤ finest }
    ensures { result ≡ above q d figure }
{
    d < FAR && q * (d as usize) < figure as usize
}

// 7: a cell that can reach a goal is above its true figure; names the lowest.
fn unsound(q: usize, dist: &[u32], table: &[u32]) -> Result<(), Refusal>
    requires { (q ≤ finest) × (length dist.now ≡ length table.now) }
    ensures { result ≡ naming (length table.now) (λ x. above q (get_or dist.now x 0) (get_or table.now x 0)) 7 }
{
    for (x, figure) in table.iter().enumerate() {
        if is_above(q, dist[x], *figure) {
            return Err(Refusal {
                number: 7,
                place: Place::Cell(x),
            });
        }
    }
    Ok(())
}

// 6 and 7 by the true distances.
fn judge_distances(q: usize, start: usize, dist: &[u32], table: &[u32]) -> Result<(), Refusal>
    requires { (q ≤ finest) × (length dist.now ≡ length table.now) × (start < length table.now) }
    ensures { result ≡ judged q start dist.now table.now }
{
    if FAR <= dist[start] {
        return Err(Refusal::numbered(6));
    }
    unsound(q, dist, table)
}

// 6: no walk from start to a goal exists. 7: a figure that the true distances refuse. The list for those has a place for each cell of the largest floor.
fn soundness(job: Job, floor: &Floor, start: usize, table: &[u32]) -> Result<(), Refusal>
    requires { Openable job floor.now start table.now }
    ensures { result ≡ soundness job floor.now.bytes start table.now }
{
    let mut room = [0u32; 4096];
    let dist = &mut room[..floor.cells()];
    find_distances(floor, job.goals, dist);
    judge_distances(job.q, start, dist, table)
}

// 4, 27 and 5 to 7, which every opening ends with.
fn accepts(job: Job, floor: &Floor, start: usize, table: &[u32]) -> Result<(), Refusal>
    requires fine { job.q ≤ finest }
    requires its_floor { floor.now ≡ floor_of job floor.now.bytes }
    requires long { length table.now ≡ size floor.now }
    ensures { result ≡ accepts job floor.now.bytes start table.now }
{
    checks::places(floor, start, job.goals)?;
    checks::goals_hold(job.goals)?;
    checks::figures(table)?;
    soundness(job, floor, start, table)
}

// 2: reports shorter than trials.
fn reports_room(trials: usize, records: usize) -> Result<(), Refusal>
    ensures { result ≡ reports_room trials records }
{
    if records < trials {
        return Err(Refusal::numbered(2));
    }
    Ok(())
}

// 3: trials 1 to 1,000.
pub fn trials_hold(trials: usize) -> Result<(), Refusal>
    ensures { result ≡ trials_hold trials }
{
    if trials < 1 || 1000 < trials {
        return Err(Refusal::numbered(3));
    }
    Ok(())
}

// 3: the settings of a run: those of its job, and how many trials it has.
fn run_settings(job: Job, trials: usize) -> Result<(), Refusal>
    ensures { result ≡ run_settings job trials }
{
    checks::settings(job)?;
    trials_hold(trials)
}

// The job that a line asks for, on a floor of these sizes: its one goal is all that it names.
pub fn job_in(s: Settings, width: usize, height: usize) -> Job
    ensures { result ≡ job_in s width height }
{
    Job {
        width,
        height,
        goals: floor::one_goal(s.goal),
        depth: s.depth,
        p: s.p,
        q: s.q,
        quota: s.quota,
    }
}

// 3: the line's settings, before the floor text is looked at: the sizes of a floor are no part of them.
pub fn settings_hold(s: Settings) -> Result<(), Refusal>
    ensures { result ≡ line_holds s }
{
    run_settings(job_in(s, 1, 1), s.trials)
}

// The opening of a run: also its path list, its reports and its trials.
pub fn open_run(
    job: Job,
    floor: &[u8],
    start: usize,
    table: &[u32],
    path: usize,
    trials: usize,
    records: usize,
) -> Result<(), Refusal>
    ensures { (places : List ℕ) → length places ≡ path → result ≡ open_run job floor.now start table.now places trials records }
{
    let floor = checks::sizes(job.width, job.height, floor, table.len())?;
    checks::path_room(table.len(), path)?;
    reports_room(trials, records)?;
    run_settings(job, trials)?;
    accepts(job, &floor, start, table)
}

// The opening of a trial, whose path list has so many places: that of a run of one trial with room for its report.
pub fn open_trial(
    job: Job,
    floor: &[u8],
    start: usize,
    table: &[u32],
    path: usize,
) -> Result<(), Refusal>
    ensures { (places : List ℕ) → length places ≡ path → result ≡ open_trial job floor.now start table.now places }
{
    open_run(job, floor, start, table, path, 1, 1)
}

// Opening a job: what the checks 1 and 3 to 7 say. A path list with a place for each figure would never be refused.
pub fn open(job: Job, floor: &[u8], start: usize, table: &[u32]) -> Result<(), Refusal>
    ensures { Answers result (open_job job floor.now start table.now) }
{
    open_trial(job, floor, start, table, table.len())
}

// 1, 3, 4 and 27 as the calls on a table alone judge them. It answers the floor.
pub fn open_table<'a>(
    width: usize,
    height: usize,
    goals: Goals,
    q: usize,
    floor: &'a [u8],
    figures: usize,
) -> Result<Floor<'a>, Refusal>
    ensures { LetsThrough (flat width height floor.now) (open_table (flat width height floor.now) q goals figures) result }
{
    let floor = checks::sizes(width, height, floor, figures)?;
    checks::scale(q)?;
    checks::benches(&floor, goals)?;
    checks::goals_hold(goals)?;
    Ok(floor)
}

// Fills a table with opening figures.
pub fn fill_figures(width: usize, height: usize, goals: Goals, q: usize, table: &mut [u32])
    requires { (1 ≤ width) × (width ≤ 64) × (height ≤ 64) × (q ≤ finest) × Benched (width * height) (goals_of goals) × (length table.old ≡ width * height) }
    ensures { (bytes : List ℕ) → table.new ≡ opening_table (flat width height bytes) q (goals_of goals) }
{
    for x in 0..table.len() {
        table[x] = floor::opening(width, height, goals, q, x) as u32;
    }
}

// The table of opening figures: what the checks 1, 3, 4 and 27 say, and a table that they refuse stays as it is.
pub fn fill_opening(
    width: usize,
    height: usize,
    goals: Goals,
    q: usize,
    floor: &[u8],
    table: &mut [u32],
) -> Result<(), Refusal>
    ensures { Fills (flat width height floor.now) q goals table.old result table.new }
{
    open_table(width, height, goals, q, floor, table.len())?;
    fill_figures(width, height, goals, q, table);
    Ok(())
}
