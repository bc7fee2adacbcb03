// Trial and run: decisions until a goal is reached, and trials until one learns nothing.

#![tactic(auto)]

mod counts;

ghost use Rattle.std.specs.Prelude.{◌≡◌, ◌<◌, length, set, Ok};
ghost use Rattle.model.specs.Opening.{open_trial};
ghost use Rattle.model.specs.Ride.{ride, trial, run};
ghost use Rattle.model.specs.Basics.{member};
ghost use Rattle.model.specs.Floor.{goals_of};
ghost use Rattle.model.specs.Decision.{act};
ghost use Rattle.lookahead.specs.Contract.{Used};
ghost use Rattle.decision.specs.Ready.{Places};
ghost use Rattle.run.specs.Stands.{set_out, tallied_of, Onward, Went, Left};
ghost use Rattle.run.specs.Trials.{Fits, noted, Cleared, Rode, IsTrial, IsRun, limit_after};

use answers::{Answer, Job, Made, Refusal, Report, State};
pub use counts::{report_at, run_counts};
use lookahead::Scratch;

// One record is stored.
pub fn store_report(reports: &mut [Report], at: usize, r: Report)
    requires { at < length reports.old }
    ensures { reports.new ≡ set reports.old at r }
{
    reports[at] = r;
}

// The costs of the legs up to the places of the path: where a decision adds a cell, what they come to there is noted.
pub fn note_leg(along: &mut [u32], before: usize, after: usize, leg: usize)
    requires { Fits along.old before after leg }
    ensures { along.new ≡ noted along.old before after leg }
{
    if before < after {
        along[after] = along[before] + leg as u32;
    }
}

// What a trial works on: the lookahead's scratch, the places of the cells on the path, and what the legs up to each place of the path come to.
#[derive(Drop)]
pub struct Workspace {
    pub scratch: Scratch,
    pub place: [u16; 4096],
    pub along: [u32; 4096],
}

// What a trial carries from one decision to the next: its state and its counts, the marks' base, and what its last decision answered, in which no move is
// counted.
#[derive(Clone, Copy)]
pub struct Stand {
    pub state: State,
    pub decisions: u64,
    pub learned: u64,
    pub travel: u64,
    pub base: u32,
    pub answer: Answer,
}

impl Stand {
    // A trial before its first decision: as if it had stayed.
    pub fn set_out(start: usize) -> Stand
        ensures { result ≡ set_out start }
    {
        Stand {
            state: State {
                current: start,
                learned: 0,
                length: 0,
            },
            decisions: 0,
            learned: 0,
            travel: 0,
            base: 1,
            answer: Answer::Stayed { rise: 0 },
        }
    }

    // Whether a trial is over: it stands on a goal.
    pub fn arrived(self, job: Job) -> bool
        ensures { result ≡ member self.state.current (goals_of job.goals) }
    {
        floor::is_goal(job.goals, self.state.current)
    }

    // One decision of a trial: it is made, its leg is noted, and it is counted.
    pub fn onward(
        self,
        job: Job,
        floor: &[u8],
        table: &mut [u32],
        path: &mut [u16],
        lists: &mut Workspace,
    ) -> Stand
        requires ready { Onward job floor.now self table.old path.old lists.old.along }
        requires used { Used self.base lists.old.scratch.mark lists.old.scratch.cost lists.old.scratch.list }
        requires places { Places lists.old.place path.old self.state.length }
        ensures went { Went (act job floor.now self.state table.old path.old) self lists.old.along result table.new path.new lists.new.along }
        ensures left { Left job floor.now (act job floor.now self.state table.old path.old) self result lists.new path.new }
    {
        let before = self.state;
        let acted = decision::act(
            job,
            floor,
            before,
            table,
            path,
            self.base,
            &mut lists.scratch,
            &mut lists.place,
        );
        let after = acted.state;
        note_leg(&mut lists.along, before.length, after.length, acted.cost);
        Stand {
            state: after,
            decisions: self.decisions + 1,
            learned: self.learned + acted.rise as u64,
            travel: self.travel + acted.cost as u64,
            base: acted.base,
            answer: acted.answer,
        }
    }

    // The record of a trial that is over. The sum at the path's end is the kept cost: cells cut off lie past it.
    pub fn tally(self, along: &[u32]) -> Report
        requires { (length along.now ≡ 4096) × (self.state.length < 4096) }
        ensures { result ≡ tallied_of self along.now }
    {
        Report {
            decisions: self.decisions,
            learned: self.learned,
            kept: u64::from(along[self.state.length]),
            travel: self.travel,
        }
    }
}

impl Workspace {
    // Lists as no decision has left them anything.
    pub fn new() -> Workspace
        ensures { Cleared result }
    {
        Workspace {
            scratch: Scratch::new(),
            place: [0; 4096],
            along: [0; 4096],
        }
    }
}

// One trial of a job that is opened: decisions until a goal. The lists that it works on stand in its frame.
fn ride(job: Job, floor: &[u8], start: usize, table: &mut [u32], path: &mut [u16]) -> Report
    requires { open_trial job floor.now start table.old path.old ≡ Ok tt }
    ensures { Rode job floor.now (ride job floor.now start table.old path.old) result table.new path.new }
{
    let mut lists = Workspace::new();
    let mut stand = Stand::set_out(start);
    while !stand.arrived(job) {
        stand = stand.onward(job, floor, table, path, &mut lists);
    }
    stand.tally(&lists.along)
}

// A trial: the opening's checks, then decisions until done. A refused call changes nothing.
pub fn trial(
    job: Job,
    floor: &[u8],
    start: usize,
    table: &mut [u32],
    path: &mut [u16],
) -> Result<Report, Refusal>
    ensures { IsTrial (trial job floor.now start table.old path.old) result table.new path.new }
{
    opening::open_trial(job, floor, start, table, path.len())?;
    Ok(ride(job, floor, start, table, path))
}

// The limit after a trial, for whoever makes trials himself by one: 0 where it learned nothing.
pub fn limit_after(limit: usize, r: Report) -> usize
    ensures { result ≡ limit_after limit r }
{
    if r.learned == 0 { 0 } else { limit }
}

// A run: trials until one learns nothing or the number asked for is used. The record of each is stored as it ends.
pub fn run(
    job: Job,
    floor: &[u8],
    start: usize,
    trials: usize,
    table: &mut [u32],
    path: &mut [u16],
    reports: &mut [Report],
) -> Result<Made, Refusal>
    ensures { IsRun (run job floor.now start trials table.old path.old reports.old) result table.new path.new reports.new }
{
    opening::open_run(job, floor, start, table, path.len(), trials, reports.len())?;
    for i in 0..trials {
        let report = ride(job, floor, start, table, path);
        store_report(reports, i, report);
        if report.learned == 0 {
            return Ok(Made {
                trials: i + 1,
                settled: true,
            });
        }
    }
    Ok(Made {
        trials,
        settled: false,
    })
}
