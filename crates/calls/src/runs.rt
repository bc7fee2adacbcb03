// Call 4: a run.
ghost use Rattle.notation.specs.Prints.{HasRoom};
ghost use Rattle.calls.specs.Printing.{Answers};
ghost use Rattle.calls.specs.Reading.{Stays};

use crate::rooms::{CELLS, COUNTS, LONGEST};
use crate::{jobs, show};
use notation::lists::filled;
use notation::print::Printer;
use numbers::Reader;

// Call 4: width height start, goals, depth p q quota trials, floor, table, path, n and 4 × n counts of reports as lent.
// Prints the refusal, trials made, settled (0 or 1), then table and path, then n and the reports.
pub fn run(reader: &mut Reader, out: &mut Printer) -> Option<()>
    requires { HasRoom out.old LONGEST }
    ensures answers { Answers result out.old out.new }
    ensures within { Stays reader.old reader.new }
{
    let mut floor = filled::<u8, CELLS>(0);
    let mut table = filled::<u32, CELLS>(0);
    let mut path = filled::<u16, CELLS>(0);
    let mut counts = filled::<u64, COUNTS>(0);
    let sizes = jobs::sizes_told(reader)?;
    let start = reader.length()?;
    let job = jobs::job_told(reader, sizes)?;
    let trials = reader.length()?;
    let cells = reader.list(&mut floor)?;
    let figures = reader.list(&mut table)?;
    let places = reader.list(&mut path)?;
    let reports = reader.number(COUNTS / 4)?;
    reader.several(4 * reports, &mut counts)?;
    if !reader.ended() {
        return None;
    }
    let table = &mut table[..figures];
    let path = &mut path[..places];
    let counts = &mut counts[..4 * reports];
    let made = run::run_counts(
        job,
        &floor[..cells],
        start,
        trials,
        table,
        path,
        counts,
        reports,
    );
    show::answer(
        out,
        made.map(|made| [made.trials, usize::from(made.settled)]),
    );
    show::list(out, table);
    show::list(out, path);
    show::reports(out, counts);
    Some(())
}
