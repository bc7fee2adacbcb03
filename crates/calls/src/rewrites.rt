// Calls 12 and 16: bytes written anew into a buffer, a table file renewed or a line with its depth.
ghost use Rattle.notation.specs.Prints.{HasRoom};
ghost use Rattle.calls.specs.Printing.{Answers};
ghost use Rattle.calls.specs.Reading.{Stays};

use crate::rooms::{BYTES, LONGEST};
use crate::show;
use learner::Refusal;
use notation::lists::filled;
use notation::print::Printer;
use numbers::Reader;

// The file or the line, and the buffer. Prints the refusal, the length, then the buffer.
pub fn rewrite<F: Fn(&[u8], &mut [u8]) -> Result<usize, Refusal>>(
    call: F,
    reader: &mut Reader,
    out: &mut Printer,
) -> Option<()>
    requires callable { F.IsAlwaysCallable call }
    requires room { HasRoom out.old LONGEST }
    ensures answers { Answers result out.old out.new }
    ensures within { Stays reader.old reader.new }
{
    let mut old = filled::<u8, BYTES>(0);
    let mut buffer = filled::<u8, BYTES>(0);
    let bytes = reader.list(&mut old)?;
    let room = reader.list(&mut buffer)?;
    if !reader.ended() {
        return None;
    }
    let buffer = &mut buffer[..room];
    let written = call(&old[..bytes], buffer);
    show::written(out, written, buffer);
    Some(())
}
