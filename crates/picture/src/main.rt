// Reads what the program `aisle` reads, and draws what the cart learned: one SVG on standard output.
//
// Where `aisle` refuses, `picture` writes the same line, `refused`, the number and any place, and nothing else: that is no SVG, so a script
// can tell.

#![tactic(auto)]

ghost use Rattle.std.specs.Prelude.{◌≤◌};
ghost use Rattle.picture.specs.Pages.{Stays};

mod figures;
mod ground;
mod legend;
mod marks;
mod runs;
mod shades;
mod sheet;
mod sides;
mod ways;

use drawing::Page;
use learner::Refusal;
use line::print::{self, Printer};
use notation::lists;
use runs::{Outcome, Task};
use shades::{Learned, Scale};
use sheet::Sheet;

// Standard input.
const STDIN_FILENO: i32 = 0;

// The line of a refusal.
fn refuse(page: &mut Page, r: Refusal)
    ensures { page.new.at ≤ 65536 }
{
    let mut line = [0; 64];
    let mut out = Printer {
        out: &mut line,
        at: 0,
    };
    print::refusal_line(&mut out, r);
    let end = out.at;
    page.words(&line[..end]);
}

// The floor with what was learned and the ways, and all that explains it.
fn explain(page: &mut Page, s: &Sheet, task: &Task, learned: &Learned)
    ensures on_page { Stays page.old page.new }
{
    s.on_floor(page);
    ground::draw(page, s, learned);
    ways::draw(page, s);
    s.off_floor(page);
    figures::draw(page, s, learned);
    marks::draw(page, s, task.start, task.job.goals.first);
    legend::draw(page, s, task.job, task.start, learned.scale);
}

// The drawing of a run that is made: its last trial is made again on a table as it stood before it.
fn draw_run(
    page: &mut Page,
    task: &Task,
    o: Outcome,
    opening: &[u32],
    table: &mut [u32],
    path: &mut [u16],
)
    ensures { page.new.at ≤ 65536 }
{
    let s = Sheet::of(task.job.width, task.job.height, task.floor);
    s.begin(page);
    ways::define(page, &s, task, o.last.decisions, table, path);
    sides::above(page, task);
    let learned = Learned {
        floor: task.floor,
        table,
        opening,
        scale: Scale::of(table, opening),
    };
    explain(page, &s, task, &learned);
    sides::below(page, &s, o);
    page.words(b"</svg>\n");
}

// All that is drawn of an input; or its refusal, and then nothing is drawn. A place on the page stays on it, so `finish` passes nothing over.
fn draw(page: &mut Page, input: &[u8]) -> Result<(), Refusal>
    ensures on_page { Stays page.old page.new }
{
    let asked = line::read_line(input).ok_or(Refusal::numbered(3))?;
    let settings = asked.settings;
    opening::settings_hold(settings)?;
    let mut floor: [u8; 4096] = lists::filled(0);
    let sizes = learner::read_floor(&input[asked.text..], &mut floor)?;
    let n = sheet::cells(sizes.width, sizes.height);
    let task = Task {
        job: opening::job_in(settings, sizes.width, sizes.height),
        floor: &floor[..n],
        start: settings.start,
        trials: settings.trials,
    };
    // The tables and the path list have a place for each cell.
    let mut first: [u32; 4096] = lists::filled(0);
    let mut table: [u32; 4096] = lists::filled(0);
    let mut path: [u16; 4096] = lists::filled(0);
    task.open(&mut first[..n])?;
    let outcome = task.run(task.trials, &mut table[..n], &mut path[..n])?;
    task.before_last(outcome.made, &mut table[..n], &mut path[..n])?;
    draw_run(
        page,
        &task,
        outcome,
        &first[..n],
        &mut table[..n],
        &mut path[..n],
    );
    Ok(())
}

// What decides stands in the first 4,252 bytes of any input.
fn main() {
    let mut input = [0u8; 8192];
    let mut page = Page::new();
    let got = io::read_full(STDIN_FILENO, &mut input);
    if let Err(r) = draw(&mut page, &input[..got]) {
        refuse(&mut page, r);
    }
    page.finish();
}
