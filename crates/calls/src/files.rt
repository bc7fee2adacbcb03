// Calls 6 to 9: the table file, written, read and looked into.
ghost use Rattle.notation.specs.Prints.{HasRoom};
ghost use Rattle.calls.specs.Printing.{Answers};
ghost use Rattle.calls.specs.Reading.{Stays};

use crate::rooms::{BYTES, CELLS, LONGEST};
use crate::{jobs, show};
use notation::lists::filled;
use notation::print::Printer;
use numbers::Reader;

// Call 6: width height, goals, q, floor, table, buffer. Prints the refusal, the length, then the buffer.
pub fn write_table(reader: &mut Reader, out: &mut Printer) -> Option<()>
    requires { HasRoom out.old LONGEST }
    ensures answers { Answers result out.old out.new }
    ensures within { Stays reader.old reader.new }
{
    let mut floor = filled::<u8, CELLS>(0);
    let mut table = filled::<u32, CELLS>(0);
    let mut buffer = filled::<u8, BYTES>(0);
    let site = jobs::site_told(reader)?;
    let cells = reader.list(&mut floor)?;
    let figures = reader.list(&mut table)?;
    let room = reader.list(&mut buffer)?;
    if !reader.ended() {
        return None;
    }
    let buffer = &mut buffer[..room];
    let written = learner::write_table(
        site.width,
        site.height,
        site.goals,
        site.q,
        &floor[..cells],
        &table[..figures],
        buffer,
    );
    show::written(out, written, buffer);
    Some(())
}

// Call 7: width height, goals, q, floor, file, table. Prints the refusal, then the table.
pub fn read_table(reader: &mut Reader, out: &mut Printer) -> Option<()>
    requires { HasRoom out.old LONGEST }
    ensures answers { Answers result out.old out.new }
    ensures within { Stays reader.old reader.new }
{
    let mut floor = filled::<u8, CELLS>(0);
    let mut file = filled::<u8, BYTES>(0);
    let mut table = filled::<u32, CELLS>(0);
    let site = jobs::site_told(reader)?;
    let cells = reader.list(&mut floor)?;
    let bytes = reader.list(&mut file)?;
    let figures = reader.list(&mut table)?;
    if !reader.ended() {
        return None;
    }
    let table = &mut table[..figures];
    let read = learner::read_table(
        site.width,
        site.height,
        site.goals,
        site.q,
        &floor[..cells],
        &file[..bytes],
        table,
    );
    show::verdict(out, read);
    show::list(out, table);
    Some(())
}

// Call 8: file. Prints the records' part of it.
pub fn find_records(reader: &mut Reader, out: &mut Printer) -> Option<()>
    requires { HasRoom out.old LONGEST }
    ensures answers { Answers result out.old out.new }
    ensures within { Stays reader.old reader.new }
{
    let mut file = filled::<u8, BYTES>(0);
    let bytes = reader.list(&mut file)?;
    if !reader.ended() {
        return None;
    }
    let part = learner::find_records(&file[..bytes]);
    show::list(out, part);
    Some(())
}

// Call 9: file. Prints the refusal.
pub fn check_trailer(reader: &mut Reader, out: &mut Printer) -> Option<()>
    requires { HasRoom out.old LONGEST }
    ensures answers { Answers result out.old out.new }
    ensures within { Stays reader.old reader.new }
{
    let mut file = filled::<u8, BYTES>(0);
    let bytes = reader.list(&mut file)?;
    if !reader.ended() {
        return None;
    }
    show::verdict(out, learner::check_trailer(&file[..bytes]));
    Some(())
}
