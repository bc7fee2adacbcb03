// The lines of a part of a list, each with its depth, one after another.
ghost use Rattle.std.specs.Prelude.{◌≤◌, length};
ghost use Rattle.keep_depth.specs.Lines.{Fits, Copies};

use line::depth::{self, First};
use notation::print::Printer;

// How far a part is copied: how many bytes are written, the number of the next line, and how many bytes stand before it, an `Err` where that line is malformed.
#[derive(Clone, Copy)]
pub struct Reach {
    pub wrote: usize,
    pub line: usize,
    pub done: Result<usize, usize>,
}

// The whole lines of a part, from its first byte up to its last LF or a malformed line; the first has that number.
pub fn copy_lines(bytes: &[u8], first: usize, out: &mut [u8]) -> Reach
    requires { Fits bytes.now first out.old }
    ensures { Copies bytes.now first result out.new }
{
    let mut copies = Printer { out, at: 0 };
    let mut done = 0;
    let mut line = first;
    while let Some(First { given, end }) = depth::first_line(bytes, done) {
        depth::put_line(&bytes[done..end], given, &mut copies);
        done = end;
        line += 1;
    }
    // With its LF it is a malformed line; without, the rest of it may follow.
    let malformed = bytes[done..].contains(&b'\n');
    Reach {
        wrote: copies.at,
        line,
        done: if malformed { Err(done) } else { Ok(done) },
    }
}
