// The reader of a table file: it judges everything before it stores.
ghost use Rattle.std.specs.Prelude.{◌≡◌, true, ◌/◌, ◌≤◌, ◌<◌, length, set, MatchOption};
ghost use Rattle.model.specs.Floor.{goals_of};
ghost use Rattle.model.specs.TableFile.{first_long, second_long, trailer_holds, first_names, places_named, second_names, named, same_job, record_fault, judge_records, applied, read_verdict, read_table};
ghost use Rattle.floor.specs.Moves.{flat};
ghost use Rattle.table_file.specs.Site.{goals_at};
ghost use Rattle.table_file.specs.Promises.{Judges, Reads};

use super::site::{OpenSite, Site};
use super::trailer::{
    FIRST_LONG, SECOND_LONG, back_in, check_trailer, edition_in, find_records, goal_place,
    scale_in, trailer_of,
};
use answers::{Goals, Place, Refusal};
use floor::{CEILING, MOST_GOALS};
use notation::bytes::{half_at, word_at};

// How many goals a trailer of edition 1 names.
const FIRST_GOALS: usize = 1;

// Whether the site that a trailer names is this one: of edition 1, which names one goal,
fn first_names(site: &OpenSite, t: &[u8]) -> bool
    requires { length t.now ≡ first_long }
    ensures { result ≡ first_names site.now.floor (goals_at site.now) t.now }
{
    let goals = site.goals;
    if usize::from(t[0]) != site.floor.width
        || usize::from(t[1]) != site.floor.height
        || floor::goals_in(goals) != FIRST_GOALS
    {
        return false;
    }
    half_at(t, 2) == goals.first
}

// and of edition 2, which has a place for each of four.
fn places_named(goals: Goals, t: &[u8]) -> bool
    requires { length t.now ≡ second_long }
    ensures { result ≡ places_named (goals_of goals) t.now }
{
    for i in 0..MOST_GOALS {
        if half_at(t, 4 + 2 * i) != goal_place(goals, i) {
            return false;
        }
    }
    true
}

fn second_names(site: &OpenSite, t: &[u8]) -> bool
    requires { length t.now ≡ second_long }
    ensures { result ≡ second_names site.now.floor (goals_at site.now) t.now }
{
    if usize::from(t[0]) != site.floor.width
        || usize::from(t[1]) != site.floor.height
        || usize::from(t[2]) != floor::goals_in(site.goals)
    {
        return false;
    }
    places_named(site.goals, t)
}

// By the trailer's edition.
fn names(site: &OpenSite, file: &[u8]) -> bool
    requires { trailer_holds file.now ≡ true }
    ensures { result ≡ named site.now.floor (goals_at site.now) file.now }
{
    if edition_in(file) == 1 {
        return first_names(site, trailer_of(file, FIRST_LONG));
    }
    second_names(site, trailer_of(file, SECOND_LONG))
}

// 14: width, height, q or a goal not this job's.
fn same_job(site: &OpenSite, file: &[u8]) -> Result<(), Refusal>
    requires { trailer_holds file.now ≡ true }
    ensures { result ≡ same_job site.now.floor site.now.q (goals_at site.now) file.now }
{
    if !names(site, file) || usize::from(scale_in(file)) != site.q {
        return Err(Refusal::numbered(14));
    }
    Ok(())
}

// 18 to 22: the number of a record's first fault. `low` is one more than the cell before.
fn record_fault(site: &OpenSite, low: usize, part: &[u8]) -> Option<usize>
    requires { length part.now ≡ 6 }
    ensures { let fault = record_fault site.now.floor site.now.q (goals_at site.now) low part.now in
        MatchOption result (fault ≡ 0) (λ number. (fault ≡ number) × (1 ≤ number)) }
{
    let cell = half_at(part, 0);
    if site.floor.cells() <= cell {
        return Some(18);
    }
    if !site.floor.is_free(cell) {
        return Some(19);
    }
    if cell < low {
        return Some(20);
    }
    let figure = word_at(part, 2);
    if figure <= site.opening(cell) {
        return Some(21);
    }
    if CEILING < figure {
        return Some(22);
    }
    None
}

// The records, one after another: names the first faulty one. The remaining part is passed on at each record.
fn judge_records(site: &OpenSite, records: &[u8]) -> Result<(), Refusal>
    ensures { result ≡ judge_records site.now.floor site.now.q (goals_at site.now) (length records.now / 6) 0 0 records.now }
{
    let mut left = records;
    let mut low = 0;
    for i in 0..records.len() / 6 {
        let (record, rest) = left.split_at(6);
        if let Some(number) = record_fault(site, low, record) {
            return Err(Refusal {
                number,
                place: Place::Record(i),
            });
        }
        low = half_at(record, 0) + 1;
        left = rest;
    }
    Ok(())
}

// One figure into a table, where the cell is one of its.
fn put_figure(table: &mut [u32], cell: usize, figure: usize)
    requires { figure < 4294967296 }
    ensures { table.new ≡ set table.old cell figure }
{
    if cell < table.len() {
        table[cell] = figure as u32;
    }
}

// The records' figures, put into a table. The remaining part is passed on at each record.
fn apply_records(records: &[u8], table: &mut [u32])
    ensures { table.new ≡ applied (length records.now / 6) records.now table.old }
{
    let mut left = records;
    while 6 <= left.len() {
        let (record, rest) = left.split_at(6);
        put_figure(table, half_at(record, 0), word_at(record, 2));
        left = rest;
    }
}

// 13, 28, 14 and 18 to 22. It answers the records.
fn judge_file<'a>(site: &OpenSite, file: &'a [u8]) -> Result<&'a [u8], Refusal>
    ensures { Judges site.now.floor site.now.q (goals_at site.now) file.now result }
{
    check_trailer(file)?;
    if back_in(file) < file.len() {
        return Err(Refusal::numbered(28));
    }
    same_job(site, file)?;
    let records = find_records(file);
    judge_records(site, records)?;
    Ok(records)
}

// The reader: 1, 3, 4, 27, then the file's own faults. Every cell without a record gets its opening figure. A refusal leaves the table as lent.
pub fn read_table(
    width: usize,
    height: usize,
    goals: Goals,
    q: usize,
    floor: &[u8],
    file: &[u8],
    table: &mut [u32],
) -> Result<(), Refusal>
    ensures { Reads (read_verdict (flat width height floor.now) q goals file.now (length table.old))
        (read_table (flat width height floor.now) q goals file.now table.old) result table.new }
{
    let site = Site {
        width,
        height,
        goals,
        q,
    };
    let site = site.open(floor, table.len())?;
    let records = judge_file(&site, file)?;
    opening::fill_figures(width, height, goals, q, table);
    apply_records(records, table);
    Ok(())
}
