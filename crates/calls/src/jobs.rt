// Calls 1 and 10: opening a job, and its table of opening figures; and what a call tells of its job, or of the site of a table.
ghost use Rattle.notation.specs.Prints.{HasRoom};
ghost use Rattle.calls.specs.Printing.{Answers};
ghost use Rattle.calls.specs.Reading.{Stays};

use crate::rooms::{CELLS, LONGEST};
use crate::show;
use learner::{Goals, Job, Sizes};
use notation::lists::filled;
use notation::print::Printer;
use numbers::Reader;

// Width height.
pub fn sizes_told(reader: &mut Reader) -> Option<Sizes>
    ensures within { Stays reader.old reader.new }
{
    let width = reader.length()?;
    let height = reader.length()?;
    Some(Sizes { width, height })
}

// Goals: eight can be told, twice as many as a job may name; the first four are kept.
fn goals_told(reader: &mut Reader) -> Option<Goals>
    ensures within { Stays reader.old reader.new }
{
    let mut told = [0usize; 8];
    let count = reader.list(&mut told)?;
    let [first, second, third, fourth, ..] = told;
    Some(Goals {
        count,
        first,
        second,
        third,
        fourth,
    })
}

// The rest of a job, after its sizes and where it stands: goals, depth p q quota.
pub fn job_told(reader: &mut Reader, sizes: Sizes) -> Option<Job>
    ensures within { Stays reader.old reader.new }
{
    let goals = goals_told(reader)?;
    let depth = reader.length()?;
    let p = reader.length()?;
    let q = reader.length()?;
    let quota = reader.length()?;
    Some(Job {
        width: sizes.width,
        height: sizes.height,
        goals,
        depth,
        p,
        q,
        quota,
    })
}

// Call 1: width height start, goals, depth p q quota, floor, table. Prints the refusal.
pub fn open(reader: &mut Reader, out: &mut Printer) -> Option<()>
    requires { HasRoom out.old LONGEST }
    ensures answers { Answers result out.old out.new }
    ensures within { Stays reader.old reader.new }
{
    let mut floor = filled::<u8, CELLS>(0);
    let mut table = filled::<u32, CELLS>(0);
    let sizes = sizes_told(reader)?;
    let start = reader.length()?;
    let job = job_told(reader, sizes)?;
    let cells = reader.list(&mut floor)?;
    let figures = reader.list(&mut table)?;
    if !reader.ended() {
        return None;
    }
    let verdict = learner::open(job, &floor[..cells], start, &table[..figures]);
    show::verdict(out, verdict);
    Some(())
}

// What a call on a table alone tells: the floor's sizes, the goals and q.
#[derive(Clone, Copy)]
pub struct Site {
    pub width: usize,
    pub height: usize,
    pub goals: Goals,
    pub q: usize,
}

// Width height, goals, q.
pub fn site_told(reader: &mut Reader) -> Option<Site>
    ensures within { Stays reader.old reader.new }
{
    let Sizes { width, height } = sizes_told(reader)?;
    let goals = goals_told(reader)?;
    let q = reader.length()?;
    Some(Site {
        width,
        height,
        goals,
        q,
    })
}

// Call 10: width height, goals, q, floor, table. Prints the refusal, then the table.
pub fn fill_opening(reader: &mut Reader, out: &mut Printer) -> Option<()>
    requires { HasRoom out.old LONGEST }
    ensures answers { Answers result out.old out.new }
    ensures within { Stays reader.old reader.new }
{
    let mut floor = filled::<u8, CELLS>(0);
    let mut table = filled::<u32, CELLS>(0);
    let site = site_told(reader)?;
    let cells = reader.list(&mut floor)?;
    let figures = reader.list(&mut table)?;
    if !reader.ended() {
        return None;
    }
    let table = &mut table[..figures];
    let verdict = learner::fill_opening(
        site.width,
        site.height,
        site.goals,
        site.q,
        &floor[..cells],
        table,
    );
    show::verdict(out, verdict);
    show::list(out, table);
    Some(())
}
