// Reads a line and a floor text from standard input, and prints the trials of the job that they ask for.

#![tactic(auto)]

ghost use Rattle.std.specs.Prelude.{◌≡◌, ◌*◌, Ok, replicate};
ghost use Rattle.model.specs.Line.{aisle, job_in, judge_aisle, printed};
ghost use Rattle.opening.specs.Promise.{line_holds};
ghost use Rattle.journey.specs.Telling.{Room};
ghost use Rattle.aisle.specs.Answers.{opened_lines, Readied, Lent, Says, Answered};

use answers::{Job, Refusal, Settings, Sizes};
use line::Asked;
use line::print::{self, Printer};

// Standard input.
const STDIN_FILENO: i32 = 0;

// The rest of the checks on the opening table, and the trials.
fn opened(
    job: Job,
    floor: &[u8],
    start: usize,
    trials: usize,
    table: &mut [u32],
    path: &mut [u16],
    out: &mut Printer,
) -> Result<(), Refusal>
    requires readied { Readied job floor.now trials }
    requires lent { Lent job floor.now table.old path.old }
    requires room { Room out.old }
    ensures { Says (opened_lines job floor.now start trials path.old) result out.old out.new }
{
    opening::fill_opening(job.width, job.height, job.goals, job.q, floor, table)?;
    opening::open_trial(job, floor, start, table, path.len())?;
    journey::tell_all(job, floor, start, trials, table, path, out);
    Ok(())
}

// On a floor that is read: the table and the path list have a place for each cell.
fn on_floor(s: Settings, sizes: Sizes, floor: &[u8], out: &mut Printer) -> Result<(), Refusal>
    requires readied { Readied (job_in s sizes.width sizes.height) floor.now s.trials }
    requires room { Room out.old }
    ensures { Says (opened_lines (job_in s sizes.width sizes.height) floor.now s.start s.trials (replicate (sizes.width * sizes.height) 0)) result out.old out.new }
{
    let n = floor.len();
    let mut table = [0u32; 4096];
    let mut path = [0u16; 4096];
    opened(
        opening::job_in(s, sizes.width, sizes.height),
        floor,
        s.start,
        s.trials,
        &mut table[..n],
        &mut path[..n],
        out,
    )
}

// With settings that hold: the floor text, then the rest.
fn with_text(s: Settings, text: &[u8], out: &mut Printer) -> Result<(), Refusal>
    requires holds { line_holds s ≡ Ok tt }
    requires room { Room out.old }
    ensures { Says (printed (judge_aisle s text.now) s text.now) result out.old out.new }
{
    let mut floor = [0u8; 4096];
    let sizes = floor_text::read_floor(text, &mut floor)?;
    on_floor(s, sizes, &floor[..sizes.width * sizes.height], out)
}

// What a line that is read asks for, with the text after it.
fn asked(s: Settings, text: &[u8], out: &mut Printer) -> Result<(), Refusal>
    requires { Room out.old }
    ensures { Says (printed (judge_aisle s text.now) s text.now) result out.old out.new }
{
    opening::settings_hold(s)?;
    with_text(s, text, out)
}

// What the input asks for, or its refusal.
fn told(input: &[u8], out: &mut Printer) -> Result<(), Refusal>
    requires { Room out.old }
    ensures { Says (aisle input.now) result out.old out.new }
{
    let Some(Asked { settings, text }) = line::read_line(input) else {
        return Err(Refusal::numbered(3));
    };
    asked(settings, &input[text..], out)
}

// All that is told of an input: what is not written out yet stands in the printer.
fn answer(input: &[u8], out: &mut Printer)
    requires { Room out.old }
    ensures { Answered input.now out.old out.new }
{
    if let Err(refusal) = told(input, out) {
        print::refusal_line(out, refusal);
    }
}

// What decides stands in the first 4,252 bytes of any input, so what is told of the first 8,192 is told of the whole.
fn main() {
    let mut input = [0u8; 8192];
    let mut list = io::large_buffer();
    let got = io::read_full(STDIN_FILENO, &mut input);
    let mut out = Printer {
        out: &mut list,
        at: 0,
    };
    answer(&input[..got], &mut out);
    let end = out.at;
    journey::write_out(&list, end);
}
