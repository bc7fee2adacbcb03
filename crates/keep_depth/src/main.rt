// Copies the lines of standard input to standard output, and writes the old depth into those that leave it out.
//
// The input may be of any length: only a part of it is kept. The first malformed line is told by one line on standard error, and nothing is written from it on.

#![tactic(auto)]

mod lines;

ghost use Rattle.std.specs.Prelude.{◌≡◌, Ok, Err, ◌≤◌, length};
ghost use Rattle.keep_depth.specs.Parts.{at_once, kept_room, copies_room, Room, Stepped, Ended};

use answers::{Place, Refusal};
use notation::lists;
use notation::print::Printer;
use std::io::{Read, Stdin};

// The longest line that is of the form. A line of which so many bytes are there without an LF is malformed.
const LONGEST_LINE: usize = 56;

// More parts than any input has.
const TURNS: u64 = 140737488355328;

// What came of a part: how many bytes are to be written, the number of the next line, and how many bytes of it are held; `None` where that line is malformed.
#[derive(Clone, Copy)]
struct Step {
    wrote: usize,
    line: usize,
    held: Option<usize>,
}

// Why not all of standard input was copied.
#[derive(Clone, Copy)]
enum Fault {
    Refused(Refusal),
    Unread,
    Unwritten,
}

// Copies the lines of one part more, which stands behind what is held of a line. What is left of the last line is held then.
fn copy_part(kept: &mut [u8], held: usize, part: &[u8], line: usize, out: &mut [u8]) -> Step
    requires { Room kept.old held part.now line out.old }
    ensures { Stepped kept.old held part.now line result kept.new out.new }
{
    let mut input = Printer {
        out: kept,
        at: held,
    };
    input.bytes(part);
    let n = input.at;
    let reach = lines::copy_lines(&kept[..n], line, out);
    let held = match reach.done {
        Ok(done) if n - done < LONGEST_LINE => {
            stream::to_front(kept, done, n - done);
            Some(n - done)
        }
        _ => None,
    };
    Step {
        wrote: reach.wrote,
        line: reach.line,
        held,
    }
}

// A malformed line, by its number.
fn malformed(line: usize) -> Fault
    ensures { result ≡ Fault.Refused (record { number = 3; place = Place.Line line }) }
{
    Fault::Refused(Refusal {
        number: 3,
        place: Place::Line(line),
    })
}

// What the end of the input says: a line without its LF is malformed.
fn at_end(held: usize, line: usize) -> Result<(), Fault>
    ensures whole { held ≡ 0 → result ≡ Ok tt }
    ensures left { 1 ≤ held → result ≡ Err (Fault.Refused (record { number = 3; place = Place.Line line })) }
{
    if held == 0 {
        Ok(())
    } else {
        Err(malformed(line))
    }
}

// Copies standard input to its end. A loop has to end and nothing says that an input does, so the turns are counted: more than any input uses up.
fn copy_all(
    input: &mut Stdin,
    kept: &mut [u8],
    part: &mut [u8],
    out: &mut [u8],
) -> Result<(), Fault>
    requires { (length kept.old ≡ kept_room) × (length part.old ≡ at_once) × (length out.old ≡ copies_room) }
    ensures { Ended result }
{
    let mut held = 0;
    let mut line = 1;
    for _ in 0..TURNS {
        let Ok(got) = input.read(part) else {
            return Err(Fault::Unread);
        };
        if got == 0 {
            return at_end(held, line);
        }
        let step = copy_part(kept, held, &part[..got], line, out);
        if !stream::write(&out[..step.wrote]) {
            return Err(Fault::Unwritten);
        }
        line = step.line;
        held = step.held.ok_or(malformed(line))?;
    }
    Err(Fault::Unread)
}

fn main(rt: HostRuntime) {
    let mut input = rt.stdin();
    // A part of the input behind the line that the part before it ended in, which has fewer than 56 bytes.
    let mut kept = lists::filled::<u8, 65592>(0);
    let mut part = io::large_buffer();
    // What is written of these: a line has one byte at least and gets two more at most.
    let mut copies = lists::filled::<u8, 196776>(0);
    match copy_all(&mut input, &mut kept, &mut part, &mut copies) {
        Ok(()) => {}
        Err(Fault::Refused(r)) => stream::refuse(r),
        Err(Fault::Unread) => stream::say(b"keep_depth: standard input could not be read\n"),
        Err(Fault::Unwritten) => stream::say(b"keep_depth: standard output could not be written\n"),
    }
}
