// One public call, as told on standard input: the program reads its numbers, makes the call, and prints what it answered and left behind.

#![tactic(auto)]

mod decisions;
mod files;
mod jobs;
mod rewrites;
mod rooms;
mod runs;
mod show;
mod texts;
mod trials;

ghost use Rattle.notation.specs.Prints.{HasRoom};
ghost use Rattle.calls.specs.Printing.{Answers};

use notation::lists::filled;
use notation::print::Printer;
use numbers::Reader;
use rooms::LONGEST;

const STDIN_FILENO: i32 = 0;

const STDOUT_FILENO: i32 = 1;

// The most bytes that are read of an input, and one more.
const MOST_INPUT: usize = 262144;

const INPUT: usize = MOST_INPUT + 1;

// The longest line, with its LF.
const LINE: usize = LONGEST + 1;

// Prints what answers an input, but for its LF; nothing where the input is none of a call.
fn answer(input: &[u8], out: &mut Printer) -> Option<()>
    requires { HasRoom out.old LONGEST }
    ensures { Answers result out.old out.new }
{
    if MOST_INPUT < input.len() {
        return None;
    }
    let mut reader = Reader::new(input);
    match reader.length()? {
        1 => jobs::open(&mut reader, out),
        2 => decisions::decide(&mut reader, out),
        3 => trials::trial(&mut reader, out),
        4 => runs::run(&mut reader, out),
        5 => texts::read_floor(&mut reader, out),
        6 => files::write_table(&mut reader, out),
        7 => files::read_table(&mut reader, out),
        8 => files::find_records(&mut reader, out),
        9 => files::check_trailer(&mut reader, out),
        10 => jobs::fill_opening(&mut reader, out),
        11 => texts::write_floor(&mut reader, out),
        12 => rewrites::rewrite(
            |old, buffer| learner::renew_file(old, buffer),
            &mut reader,
            out,
        ),
        16 => rewrites::rewrite(
            |old, buffer| learner::with_depth(old, buffer),
            &mut reader,
            out,
        ),
        _ => None,
    }
}

fn main() {
    let mut line = filled::<u8, LINE>(0);
    let mut input = filled::<u8, INPUT>(0);
    let got = io::read_full(STDIN_FILENO, &mut input);
    let mut out = Printer {
        out: &mut line,
        at: 0,
    };
    if answer(&input[..got], &mut out).is_none() {
        out.bytes(b" malformed");
    }
    out.byte(b'\n');
    let end = out.at;
    // Each number comes after a space, and the first one's is left out.
    io::write_all(STDOUT_FILENO, &line[1..end]);
}
