// Calls 5 and 11: floor text, read and written.
ghost use Rattle.notation.specs.Prints.{HasRoom};
ghost use Rattle.calls.specs.Printing.{Answers};
ghost use Rattle.calls.specs.Reading.{Stays};

use crate::rooms::{BYTES, CELLS, LONGEST};
use crate::{jobs, show};
use notation::lists::filled;
use notation::print::Printer;
use numbers::Reader;

// Call 5: text, buffer. Prints the refusal, width, height, then the buffer.
pub fn read_floor(reader: &mut Reader, out: &mut Printer) -> Option<()>
    requires { HasRoom out.old LONGEST }
    ensures answers { Answers result out.old out.new }
    ensures within { Stays reader.old reader.new }
{
    let mut text = filled::<u8, BYTES>(0);
    let mut buffer = filled::<u8, BYTES>(0);
    let bytes = reader.list(&mut text)?;
    let room = reader.list(&mut buffer)?;
    if !reader.ended() {
        return None;
    }
    let buffer = &mut buffer[..room];
    let read = learner::read_floor(&text[..bytes], buffer);
    show::answer(out, read.map(|sizes| [sizes.width, sizes.height]));
    show::list(out, buffer);
    Some(())
}

// Call 11: width height, floor, buffer. Prints the refusal, the length, then the buffer.
pub fn write_floor(reader: &mut Reader, out: &mut Printer) -> Option<()>
    requires { HasRoom out.old LONGEST }
    ensures answers { Answers result out.old out.new }
    ensures within { Stays reader.old reader.new }
{
    let mut floor = filled::<u8, CELLS>(0);
    let mut buffer = filled::<u8, BYTES>(0);
    let sizes = jobs::sizes_told(reader)?;
    let cells = reader.list(&mut floor)?;
    let room = reader.list(&mut buffer)?;
    if !reader.ended() {
        return None;
    }
    let buffer = &mut buffer[..room];
    let written = learner::write_floor(sizes.width, sizes.height, &floor[..cells], buffer);
    show::written(out, written, buffer);
    Some(())
}
