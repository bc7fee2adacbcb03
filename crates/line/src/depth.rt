// A stored line with its depth: the old one is written into a line that leaves it out, and any other line is copied.
ghost use Rattle.std.specs.Prelude.{◌≡◌, List, ℕ, ◌≤◌, leb, length, IfNone, IfSome};
ghost use Rattle.model.specs.Line.{settings_of};
ghost use Rattle.model.specs.KeepDepth.{is_asked, numbers_given, with_old_depth, with_depth};
ghost use Rattle.model.specs.Writing.{Writes};
ghost use Rattle.notation.specs.Prints.{Prints, HasRoom};
ghost use Rattle.line.specs.Depths.{NoLine, FirstLine, Gives};

use super::word_at;
use answers::Refusal;
use notation::print::Printer;

// Whether a line of the form may have so many numbers.
fn formed(count: usize) -> bool
    ensures { (ns : List ℕ) → length ns ≡ count → result ≡ is_asked (settings_of ns) }
{
    matches!(count, 2 | 3 | 5..=7)
}

// The line from a place on: how many numbers it has, and the place after its LF.
#[derive(Clone, Copy)]
pub struct First {
    pub given: usize,
    pub end: usize,
}

// By `aisle`'s own rule of form; no range is judged.
pub fn first_line(bytes: &[u8], from: usize) -> Option<First>
    requires { from ≤ length bytes.now }
    ensures malformed { IfNone result (NoLine bytes.now from) }
    ensures formed { IfSome result (FirstLine bytes.now from) }
{
    let mut given = 0;
    let mut at = from;
    // Each number says where the next one begins.
    while at < bytes.len() {
        let word = word_at(bytes, at)?;
        given += 1;
        at = word.next;
        if word.last {
            return formed(given).then_some(First { given, end: at });
        }
    }
    None
}

// How many numbers a line by itself has, its LF being its last byte.
fn numbers_given(line: &[u8]) -> Option<usize>
    ensures malformed { IfNone result (numbers_given line.now ≡ 0) }
    ensures formed { IfSome result (Gives line.now) }
{
    let first = first_line(line, 0)?;
    if first.end < line.len() {
        return None;
    }
    Some(first.given)
}

// Whether there is room for the line with its depth, two bytes more where it leaves it out.
fn has_room(line: &[u8], given: usize, room: usize) -> bool
    requires { Gives line.now given }
    ensures { result ≡ leb (length (with_old_depth line.now)) room }
{
    line.len() <= room && (given != 2 || 2 <= room - line.len())
}

// The line with its depth.
pub fn put_line(line: &[u8], given: usize, out: &mut Printer)
    requires given { Gives line.now given }
    requires room { HasRoom out.old (length (with_old_depth line.now)) }
    ensures { Prints out.old (with_old_depth line.now) out.new }
{
    if given == 2 {
        out.bytes(&line[..line.len() - 1]);
        out.bytes(b" 1\n");
    } else {
        out.bytes(line);
    }
}

// The line with its depth from the first byte on; the length. A refusal, 3 or 17, leaves the buffer as lent.
pub fn with_depth(line: &[u8], buffer: &mut [u8]) -> Result<usize, Refusal>
    ensures { Writes (with_depth line.now buffer.old) result buffer.new }
{
    let Some(given) = numbers_given(line) else {
        return Err(Refusal::numbered(3));
    };
    if !has_room(line, given, buffer.len()) {
        return Err(Refusal::numbered(17));
    }
    let mut out = Printer { out: buffer, at: 0 };
    put_line(line, given, &mut out);
    Ok(out.at)
}
