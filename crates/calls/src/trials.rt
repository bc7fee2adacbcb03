// Call 3: a trial.
ghost use Rattle.notation.specs.Prints.{HasRoom};
ghost use Rattle.calls.specs.Printing.{Answers};
ghost use Rattle.calls.specs.Reading.{Stays};

use crate::rooms::{CELLS, LONGEST};
use crate::{jobs, show};
use notation::lists::filled;
use notation::print::Printer;
use numbers::Reader;

// Call 3: width height start, goals, depth p q quota, floor, table, path.
// Prints the refusal, decisions, learned, kept, travel, then table and path.
pub fn trial(reader: &mut Reader, out: &mut Printer) -> Option<()>
    requires { HasRoom out.old LONGEST }
    ensures answers { Answers result out.old out.new }
    ensures within { Stays reader.old reader.new }
{
    let mut floor = filled::<u8, CELLS>(0);
    let mut table = filled::<u32, CELLS>(0);
    let mut path = filled::<u16, CELLS>(0);
    let sizes = jobs::sizes_told(reader)?;
    let start = reader.length()?;
    let job = jobs::job_told(reader, sizes)?;
    let cells = reader.list(&mut floor)?;
    let figures = reader.list(&mut table)?;
    let places = reader.list(&mut path)?;
    if !reader.ended() {
        return None;
    }
    let table = &mut table[..figures];
    let path = &mut path[..places];
    let made = learner::trial(job, &floor[..cells], start, table, path);
    show::answer(
        out,
        made.map(|r| [r.decisions, r.learned, r.kept, r.travel]),
    );
    show::list(out, table);
    show::list(out, path);
    Some(())
}
