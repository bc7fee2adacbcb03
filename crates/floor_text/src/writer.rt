// The writer of floor text: it judges everything before it stores.
ghost use Rattle.std.specs.Prelude.{◌≡◌, [], ◌∷◌, ◌++◌, map, ◌+◌, ◌≤◌, length};
ghost use Rattle.model.specs.FloorText.{LF, size_bytes};
ghost use Rattle.model.specs.FloorWritten.{letter_of, rows_of, size_line, text_of, text_verdict, write_floor};
ghost use Rattle.model.specs.Writing.{Writes};
ghost use Rattle.floor.specs.Moves.{flat};
ghost use Rattle.notation.specs.Prints.{Prints, HasRoom};
ghost use Rattle.floor_text.specs.Heads.{head_of, Judges};

use answers::Refusal;
use floor::Floor;
use notation::print::Printer;

// A byte's letter.
fn letter_of(b: u8) -> u8
    ensures { result ≡ letter_of b }
{
    match b {
        floor::PLAIN => b'.',
        floor::SLOW => b'S',
        _ => b'@',
    }
}

// A row's letters and its LF.
fn put_row(out: &mut Printer, cells: &[u8])
    requires { HasRoom out.old (length cells.now + 1) }
    ensures { Prints out.old (map letter_of cells.now ++ (LF ∷ [])) out.new }
{
    for cell in cells {
        out.byte(letter_of(*cell));
    }
    out.byte(b'\n');
}

// The rows of a floor.
fn put_rows(out: &mut Printer, floor: &Floor)
    requires { HasRoom out.old (length (rows_of floor.now.width floor.now.height floor.now.bytes)) }
    ensures { Prints out.old (rows_of floor.now.width floor.now.height floor.now.bytes) out.new }
{
    for cells in floor.bytes.chunks_exact(floor.width) {
        put_row(out, cells);
    }
}

// A word, a size and the LF.
fn put_line(out: &mut Printer, word: &[u8], n: usize)
    requires { HasRoom out.old (length word.now + length (size_line n)) }
    ensures { Prints out.old (word.now ++ size_line n) out.new }
{
    out.bytes(word);
    out.decimal(n);
    out.byte(b'\n');
}

// The header.
fn put_header(out: &mut Printer, width: usize, height: usize)
    requires { HasRoom out.old (length (head_of width height)) }
    ensures { Prints out.old (head_of width height) out.new }
{
    put_line(out, b"type octile\nheight ", height);
    put_line(out, b"width ", width);
    out.bytes(b"map\n");
}

// How many bytes a size and its LF take.
fn size_bytes(n: usize) -> usize
    ensures { (result ≡ size_bytes n) × (result ≤ 3) }
{
    if n <= 9 { 2 } else { 3 }
}

// How many bytes a floor's text takes.
fn text_bytes(floor: &Floor) -> usize
    ensures { result ≡ length (text_of floor.now) }
{
    29 + size_bytes(floor.height) + size_bytes(floor.width) + floor.height * (floor.width + 1)
}

// 1 and 17. Past them the floor is one by its type.
fn judge_text<'a>(
    width: usize,
    height: usize,
    bytes: &'a [u8],
    room: usize,
) -> Result<Floor<'a>, Refusal>
    ensures { Judges (flat width height bytes.now) room result }
{
    let floor = checks::sizes(width, height, bytes, bytes.len())?;
    if room < text_bytes(&floor) {
        return Err(Refusal::numbered(17));
    }
    Ok(floor)
}

// Writes a floor's text into a lent buffer, from the first byte on, and answers its length: 1, then 17. A refusal leaves the buffer as lent.
pub fn write_floor(
    width: usize,
    height: usize,
    floor: &[u8],
    buffer: &mut [u8],
) -> Result<usize, Refusal>
    ensures { Writes (write_floor (flat width height floor.now) buffer.old) result buffer.new }
{
    let floor = judge_text(width, height, floor, buffer.len())?;
    let mut out = Printer { out: buffer, at: 0 };
    put_header(&mut out, width, height);
    put_rows(&mut out, &floor);
    Ok(out.at)
}
