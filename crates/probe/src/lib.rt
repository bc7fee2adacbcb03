// Each public call for a caller in another language, on plain numbers and lists: what the benches measure.

#![tactic(auto)]

ghost use Rattle.run.specs.Numbers.{Counted};

use answers::{Goals, Job, Refusal, State};

// The number that opening a job answers.
#[unsafe(no_mangle)]
pub extern "C" fn probe_open(
    width: usize,
    height: usize,
    start: usize,
    count: usize,
    goal: usize,
    q: usize,
    floor: &[u8],
    table: &[u32],
) -> usize {
    let job = job_of(width, height, count, goal, 1, 1, q, 0);
    number(opening::open(job, floor, start, table))
}

// The number that reading a table file answers.
#[unsafe(no_mangle)]
pub extern "C" fn probe_read(
    width: usize,
    height: usize,
    count: usize,
    goal: usize,
    q: usize,
    floor: &[u8],
    file: &[u8],
    table: &mut [u32],
) -> usize {
    number(table_file::read_table(width, height, goals_of(count, goal), q, floor, file, table))
}

// The length of the table file that is written; 0 where it is refused.
#[unsafe(no_mangle)]
pub extern "C" fn probe_write(
    width: usize,
    height: usize,
    count: usize,
    goal: usize,
    q: usize,
    floor: &[u8],
    table: &[u32],
    buffer: &mut [u8],
) -> usize {
    table_file::write_table(
        width,
        height,
        goals_of(count, goal),
        q,
        floor,
        table,
        buffer,
    )
    .unwrap_or(0)
}

// So many goals, of which the first is told; four stand side by side where its number is a multiple of 4.
fn goals_of(count: usize, goal: usize) -> Goals {
    Goals {
        count,
        first: goal,
        second: goal | 1,
        third: goal | 2,
        fourth: goal | 3,
    }
}

fn job_of(
    width: usize,
    height: usize,
    count: usize,
    goal: usize,
    depth: usize,
    p: usize,
    q: usize,
    quota: usize,
) -> Job {
    Job {
        width,
        height,
        goals: goals_of(count, goal),
        depth,
        p,
        q,
        quota,
    }
}

// Nothing: what a call costs that does nothing.
#[unsafe(no_mangle)]
pub extern "C" fn probe_nothing() -> usize {
    0
}

// The cell where a decision leaves the cart.
#[unsafe(no_mangle)]
pub extern "C" fn probe_decide(
    width: usize,
    height: usize,
    current: usize,
    learned: usize,
    length: usize,
    count: usize,
    goal: usize,
    depth: usize,
    p: usize,
    q: usize,
    quota: usize,
    floor: &[u8],
    table: &mut [u32],
    path: &mut [u16],
    moves: &mut [u8],
) -> usize {
    let job = job_of(width, height, count, goal, depth, p, q, quota);
    let state = State {
        current,
        learned,
        length,
    };
    let d = decision::decide(job, floor, state, table, path, moves, 0);
    d.state.current
}

// The decisions of a trial; 0 where it is refused.
#[unsafe(no_mangle)]
pub extern "C" fn probe_trial(
    width: usize,
    height: usize,
    start: usize,
    count: usize,
    goal: usize,
    depth: usize,
    p: usize,
    q: usize,
    quota: usize,
    floor: &[u8],
    table: &mut [u32],
    path: &mut [u16],
) -> usize {
    let job = job_of(width, height, count, goal, depth, p, q, quota);
    match run::trial(job, floor, start, table, path) {
        Ok(r) => r.decisions as usize,
        Err(_) => 0,
    }
}

// The trials of a run, its records as numbers, four for each; 0 where it is refused.
#[unsafe(no_mangle)]
pub extern "C" fn probe_run(
    width: usize,
    height: usize,
    start: usize,
    count: usize,
    goal: usize,
    depth: usize,
    p: usize,
    q: usize,
    quota: usize,
    trials: usize,
    floor: &[u8],
    table: &mut [u32],
    path: &mut [u16],
    counts: &mut [u64],
    n: usize,
) -> usize
    requires { Counted n counts.old }
{
    let job = job_of(width, height, count, goal, depth, p, q, quota);
    match run::run_counts(job, floor, start, trials, table, path, counts, n) {
        Ok(made) => made.trials,
        Err(_) => 0,
    }
}

// The width of a floor text; 0 where it is refused.
#[unsafe(no_mangle)]
pub extern "C" fn probe_floor(text: &[u8], buffer: &mut [u8]) -> usize {
    match floor_text::read_floor(text, buffer) {
        Ok(sizes) => sizes.width,
        Err(_) => 0,
    }
}

// The length of the floor text that is written; 0 where it is refused.
#[unsafe(no_mangle)]
pub extern "C" fn probe_write_floor(
    width: usize,
    height: usize,
    floor: &[u8],
    buffer: &mut [u8],
) -> usize {
    floor_text::write_floor(width, height, floor, buffer).unwrap_or(0)
}

// The length of a table file that is renewed; 0 where it is refused.
#[unsafe(no_mangle)]
pub extern "C" fn probe_renew(file: &[u8], buffer: &mut [u8]) -> usize {
    table_file::renew_file(file, buffer).unwrap_or(0)
}

// The length of a line with its depth; 0 where it is refused.
#[unsafe(no_mangle)]
pub extern "C" fn probe_depth(line: &[u8], buffer: &mut [u8]) -> usize {
    line::with_depth(line, buffer).unwrap_or(0)
}

// How many bytes of a table file are records.
#[unsafe(no_mangle)]
pub extern "C" fn probe_find(file: &[u8]) -> usize {
    table_file::find_records(file).len()
}

// The number that the trailer's check answers.
#[unsafe(no_mangle)]
pub extern "C" fn probe_trailer(file: &[u8]) -> usize {
    number(table_file::check_trailer(file))
}

// The number that filling a table with opening figures answers.
#[unsafe(no_mangle)]
pub extern "C" fn probe_fill(
    width: usize,
    height: usize,
    count: usize,
    goal: usize,
    q: usize,
    floor: &[u8],
    table: &mut [u32],
) -> usize {
    number(opening::fill_opening(width, height, goals_of(count, goal), q, floor, table))
}

fn number(v: Result<(), Refusal>) -> usize {
    match v {
        Ok(()) => 0,
        Err(r) => r.number,
    }
}
