// The writer of a table file: it judges everything before it stores.
ghost use Rattle.std.specs.Prelude.{◌≡◌, ◌*◌, ◌≤◌, ◌<◌, length};
ghost use Rattle.model.specs.Basics.{naming};
ghost use Rattle.model.specs.Floor.{size, goals_of};
ghost use Rattle.model.specs.TableFile.{second_long, records_of, unlike, write_table};
ghost use Rattle.model.specs.Writing.{Writes};
ghost use Rattle.floor.specs.Moves.{flat};
ghost use Rattle.notation.specs.Prints.{Prints, HasRoom};
ghost use Rattle.table_file.specs.Site.{goals_at, changed_at, table_verdict};
ghost use Rattle.table_file.specs.Trailer.{places_to, job_of, back_of, trailer_at};

use super::site::{Named, OpenSite, Site};
use super::trailer::{LETTERS, SECOND_LONG, goal_place};
use answers::{Goals, Place, Refusal};
use floor::MOST_GOALS;
use notation::print::Printer;

// Whether a free cell is below its opening figure, or a blocked one unlike it.
fn is_unlike(site: &OpenSite, table: &[u32], x: usize) -> bool
    requires on_floor { x < size site.now.floor }
    requires long { length table.now ≡ size site.now.floor }
    ensures { result ≡ unlike site.now.floor site.now.q (goals_at site.now) table.now x }
{
    let figure = table[x] as usize;
    let least = site.opening(x);
    if site.floor.is_free(x) {
        figure < least
    } else {
        figure != least
    }
}

// 16: names the lowest such cell.
fn judge_unlike(site: &OpenSite, table: &[u32]) -> Result<(), Refusal>
    requires { length table.now ≡ size site.now.floor }
    ensures { result ≡ naming (size site.now.floor) (unlike site.now.floor site.now.q (goals_at site.now) table.now) 16 }
{
    for x in 0..table.len() {
        if is_unlike(site, table, x) {
            return Err(Refusal {
                number: 16,
                place: Place::Cell(x),
            });
        }
    }
    Ok(())
}

// How many cells have a figure that differs from the opening figure.
fn count_changed(site: &OpenSite, table: &[u32]) -> usize
    requires { length table.now ≡ size site.now.floor }
    ensures { (result ≡ length (changed_at site.now table.now)) × (result ≤ 4096) }
{
    let mut n = 0;
    for (x, figure) in table.iter().enumerate() {
        if *figure as usize != site.opening(x) {
            n += 1;
        }
    }
    n
}

// A record of each such cell.
fn put_records(out: &mut Printer, site: &OpenSite, table: &[u32])
    requires long { length table.now ≡ size site.now.floor }
    requires room { HasRoom out.old (6 * length (changed_at site.now table.now)) }
    ensures { Prints out.old (records_of table.now (changed_at site.now table.now)) out.new }
{
    for (x, figure) in table.iter().enumerate() {
        let figure = *figure as usize;
        if figure != site.opening(x) {
            out.half(x);
            out.word(figure);
        }
    }
}

// The trailer's goal places, 8 bytes.
fn put_places(out: &mut Printer, goals: Goals)
    requires { HasRoom out.old 8 }
    ensures { Prints out.old (places_to (goals_of goals) 4) out.new }
{
    for i in 0..MOST_GOALS {
        out.half(goal_place(goals, i));
    }
}

// The trailer's job, 14 bytes: width, height, goal count, a zero byte, the goal places, q and the edition;
fn put_job(out: &mut Printer, named: Named)
    requires { HasRoom out.old 14 }
    ensures { Prints out.old (job_of named) out.new }
{
    out.bytes(&[
        named.width,
        named.height,
        floor::goals_in(named.goals) as u8,
        0,
    ]);
    put_places(out, named.goals);
    out.bytes(&[named.q, 2]);
}

// and what points back, 10 bytes: count, back and the letters.
fn put_back(out: &mut Printer, count: usize)
    requires room { HasRoom out.old 10 }
    requires fits { count < 65536 }
    ensures { Prints out.old (back_of count) out.new }
{
    out.half(count);
    out.word(SECOND_LONG + 6 * count);
    out.bytes(LETTERS);
}

// The trailer of edition 2, 24 bytes.
pub fn put_trailer(out: &mut Printer, named: Named, count: usize)
    requires room { HasRoom out.old second_long }
    requires fits { count < 65536 }
    ensures { Prints out.old (trailer_at named count) out.new }
{
    put_job(out, named);
    put_back(out, count);
}

// 5, 16 and 17.
fn judge_table(site: &OpenSite, table: &[u32], room: usize) -> Result<(), Refusal>
    requires { length table.now ≡ size site.now.floor }
    ensures { result ≡ table_verdict site.now table.now room }
{
    checks::figures(table)?;
    judge_unlike(site, table)?;
    // Room for a record of every cell needs no count.
    if SECOND_LONG + 6 * table.len() <= room {
        return Ok(());
    }
    let count = count_changed(site, table);
    if room < SECOND_LONG + 6 * count {
        return Err(Refusal::numbered(17));
    }
    Ok(())
}

// The writer: 1, 3, 4, 27, 5, 16 and 17. It fills the buffer from the first byte and answers the length. A refusal leaves the buffer as lent.
pub fn write_table(
    width: usize,
    height: usize,
    goals: Goals,
    q: usize,
    floor: &[u8],
    table: &[u32],
    buffer: &mut [u8],
) -> Result<usize, Refusal>
    ensures { Writes (write_table (flat width height floor.now) q goals table.now buffer.old) result buffer.new }
{
    let site = Site {
        width,
        height,
        goals,
        q,
    };
    let site = site.open(floor, table.len())?;
    judge_table(&site, table, buffer.len())?;
    let mut out = Printer { out: buffer, at: 0 };
    put_records(&mut out, &site, table);
    let count = out.at / 6;
    put_trailer(&mut out, site.named(), count);
    Ok(out.at)
}
