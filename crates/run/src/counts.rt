// A run for callers that can lend no list of records, as one in another language cannot: its records are numbers, four for each.
ghost use Rattle.std.specs.Prelude.{◌≡◌, ◌<◌, ◌≤◌, ◌+◌, ◌*◌, ◌++◌, length, take, drop};
ghost use Rattle.model.specs.Ride.{run};
ghost use Rattle.run.specs.Numbers.{record_at, records, put, numbers, Counted, IsCounted};

use answers::{Job, Made, Refusal, Report};

// The most records that are lent: one more than a run has trials at most.
const MOST: usize = 1001;

// The i-th record of a list of numbers, four for each.
pub fn report_at(counts: &[u64], i: usize) -> Report
    requires { (i * 4 + 4 ≤ length counts.now) × (i < 1001) }
    ensures { result ≡ record_at counts.now i }
{
    let at = i * 4;
    Report {
        decisions: counts[at],
        learned: counts[at + 1],
        kept: counts[at + 2],
        travel: counts[at + 3],
    }
}

// The first n records of a list of numbers. (They go into a list that is lent, so that the stack holds one of it.)
fn read_reports(counts: &[u64], n: usize, reports: &mut [Report])
    requires counted { Counted n counts.now }
    requires room { n ≤ length reports.old }
    ensures { take n reports.new ≡ records counts.now n }
{
    for i in 0..n {
        reports[i] = report_at(counts, i);
    }
}

// The numbers of one record, in their places.
fn put_counts(counts: &mut [u64], i: usize, r: Report)
    requires { (i * 4 + 4 ≤ length counts.old) × (i < 1001) }
    ensures { counts.new ≡ put counts.old i r }
{
    let at = i * 4;
    counts[at] = r.decisions;
    counts[at + 1] = r.learned;
    counts[at + 2] = r.kept;
    counts[at + 3] = r.travel;
}

// The numbers of each record.
fn put_all(counts: &mut [u64], reports: &[Report])
    requires { Counted (length reports.now) counts.old }
    ensures { counts.new ≡ numbers reports.now ++ drop (length reports.now * 4) counts.old }
{
    for (i, report) in reports.iter().enumerate() {
        put_counts(counts, i, *report);
    }
}

// A run whose reports are given and handed back as numbers, four for each: it goes through `run`.
pub fn run_counts(
    job: Job,
    floor: &[u8],
    start: usize,
    trials: usize,
    table: &mut [u32],
    path: &mut [u16],
    counts: &mut [u64],
    n: usize,
) -> Result<Made, Refusal>
    requires { Counted n counts.old }
    ensures { IsCounted (run job floor.now start trials table.old path.old (records counts.old n)) n counts.old result table.new path.new counts.new }
{
    let none = Report {
        decisions: 0,
        learned: 0,
        kept: 0,
        travel: 0,
    };
    let mut reports = [none; MOST];
    read_reports(counts, n, &mut reports);
    let answer = crate::run(job, floor, start, trials, table, path, &mut reports[..n]);
    put_all(counts, &reports[..n]);
    answer
}
