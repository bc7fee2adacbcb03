// A trial told as it is made: its moves while its decisions are made, its counts when it is over.
//
// What is told goes into a printer's list of 65,536 places. Where few places are left, all that stands there is written to standard output and the list is
// filled from its front again, so nothing grows with a trial.

#![tactic(auto)]

ghost use Rattle.std.specs.Prelude.{◌≡◌, ◌++◌, ℕ, ◌+◌, ◌≤◌, ◌<◌, length, get_or, Ok};
ghost use Rattle.model.specs.Opening.{open_trial};
ghost use Rattle.model.specs.Ride.{ride, course_from};
ghost use Rattle.model.specs.Line.{course_lines};
ghost use Rattle.model.specs.Lookahead.{most_moves};
ghost use Rattle.notation.specs.Prints.{Prints, HasRoom};
ghost use Rattle.line.specs.Printing.{move_digits, count_fields};
ghost use Rattle.journey.specs.Telling.{Front, Room, Spilt, Told, Ended, dash, Trips};

use answers::{Job, Report};
use decision::LEAST_ROOM;
use line::print::{self, Printer};
use run::{Stand, Workspace};

// Standard output.
const STDOUT_FILENO: i32 = 1;

// A part is handed to the C library to write: on standard output, and only the first bytes of the list; how many.
fn hand_out(fd: i32, part: &[u8], out: &[u8]) -> usize
    requires { Front fd part.now out.now }
    ensures { result ≡ length part.now }
{
    io::write_all(fd, part);
    part.len()
}

// All that stands before a place is written out; how many bytes are handed out.
pub fn write_out(out: &[u8], at: usize) -> usize
    requires { at ≤ length out.now }
    ensures { result ≡ at }
{
    hand_out(STDOUT_FILENO, &out[..at], out)
}

// The same of all that a printer has printed.
fn write_printed(out: &Printer) -> usize
    requires { out.now.at ≤ length out.now.out.now }
    ensures { result ≡ out.now.at }
{
    write_out(out.out, out.at)
}

// Where fewer than 512 of the list's 65,536 places are left, what is printed is written out. What is told at once, the moves of a decision or the counts of a
// trial, needs fewer. The place falls by what is handed out, so nothing is passed over.
fn spill(out: &mut Printer)
    requires { out.old.at ≤ length out.old.out.now }
    ensures { Spilt out.old out.new }
{
    if 65024 < out.at {
        out.at -= write_printed(out);
    }
}

// Moves, a digit each.
fn say_moves(out: &mut Printer, moves: &[u8])
    requires room { Room out.old }
    requires few { length moves.now ≤ most_moves }
    requires digits { (i : ℕ) → i < length moves.now → get_or moves.now i 0 < 8 }
    ensures { Told out.old (move_digits moves.now) out.new }
{
    print::moves(out, moves);
    spill(out);
}

// What a trial line says where there was no move.
fn say_none(out: &mut Printer, moved: bool)
    requires { HasRoom out.old 1 }
    ensures printed { Prints out.old (dash moved) out.new }
    ensures short { out.new.at ≤ out.old.at + 1 }
{
    if !moved {
        out.byte(b'-');
    }
}

// A trial line after its moves.
fn say_counts(out: &mut Printer, moved: bool, report: Report)
    requires { Room out.old }
    ensures { Told out.old (dash moved ++ count_fields report) out.new }
{
    say_none(out, moved);
    print::counts(out, report);
    spill(out);
}

// A trial of a job that is opened, and its line: the moves of each decision as it is made, and the counts. The lists that it works on stand in its frame.
pub fn tell(
    job: Job,
    floor: &[u8],
    start: usize,
    table: &mut [u32],
    path: &mut [u16],
    out: &mut Printer,
) -> Report
    requires opened { open_trial job floor.now start table.old path.old ≡ Ok tt }
    requires room { Room out.old }
    ensures { Trips job floor.now (ride job floor.now start table.old path.old) result table.new path.new out.old out.new }
{
    let mut moves = [0u8; LEAST_ROOM];
    let mut lists = Workspace::new();
    let mut stand = Stand::set_out(start);
    let mut moved = false;
    while !stand.arrived(job) {
        let from = stand.state.current;
        stand = stand.onward(job, floor, table, path, &mut lists);
        let n = decision::lay(
            job,
            floor,
            from,
            stand.answer,
            stand.base,
            &lists.scratch.mark,
            &lists.scratch.cost,
            &mut moves,
            0,
        );
        say_moves(out, &moves[..n]);
        moved |= 0 < n;
    }
    let report = stand.tally(&lists.along);
    say_counts(out, moved, report);
    report
}

// Trials until one learns nothing or the number asked for is used, a line each, and the last line.
pub fn tell_all(
    job: Job,
    floor: &[u8],
    start: usize,
    trials: usize,
    table: &mut [u32],
    path: &mut [u16],
    out: &mut Printer,
)
    requires opened { open_trial job floor.now start table.old path.old ≡ Ok tt }
    requires room { Room out.old }
    ensures { Ended out.old (course_lines job floor.now (course_from job floor.now start trials table.old path.old)) out.new }
{
    for i in 0..trials {
        let report = tell(job, floor, start, table, path, out);
        if report.learned == 0 {
            print::last_line(out, true, i + 1);
            return;
        }
    }
    print::last_line(out, false, trials);
}
