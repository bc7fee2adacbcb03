// Reads and writes floor text by the octile grid benchmark format. Everything is judged before the first byte is stored.

#![tactic(auto)]

mod writer;

ghost use Rattle.std.specs.Prelude.{◌≡◌, ◌++◌, map, ◌+◌, ◌*◌, ◌≤◌, length, drop, MatchOption};
ghost use Rattle.model.specs.FloorText.{size_in, is_letter, byte_of, row_holds, rows, cells_of, read_floor};
ghost use Rattle.floor_text.specs.Reads.{Stands, Sound, NoHeader, Reads};

use answers::{Place, Refusal, Sizes};
use notation::digits;
pub use writer::write_floor;

// A size and its LF at the front of a text, and the text after them.
fn size_in(text: &[u8]) -> Option<(usize, &[u8])>
    ensures { MatchOption result (size_in text.now ≡ 0) (λ p. Stands text.now p.0 p.1.now) }
{
    if text.starts_with(b"0") {
        return None;
    }
    let run = digits::read(text, 0, 64);
    if 2 < run.after || run.value < 1 || 64 < run.value {
        return None;
    }
    let rest = text[run.after..].strip_prefix(b"\n")?;
    Some((run.value, rest))
}

// The sizes that the header says, and the rows after it.
fn read_header(text: &[u8]) -> Option<(Sizes, &[u8])>
    ensures { MatchOption result (NoHeader text.now) (λ p. Sound text.now p.0.width p.0.height p.1.now) }
{
    let (height, rest) = size_in(text.strip_prefix(b"type octile\nheight ")?)?;
    let (width, rest) = size_in(rest.strip_prefix(b"width ")?)?;
    let rows = rest.strip_prefix(b"map\n")?;
    Some((Sizes { width, height }, rows))
}

// Whether a byte is a letter of a floor.
fn is_letter(b: u8) -> bool
    ensures { result ≡ is_letter b }
{
    matches!(b, b'.' | b'G' | b'S' | b'@' | b'O' | b'T')
}

// A letter's floor byte.
fn byte_of(b: u8) -> u8
    ensures { result ≡ byte_of b }
{
    match b {
        b'.' | b'G' => floor::PLAIN,
        b'S' => floor::SLOW,
        _ => floor::BLOCKED,
    }
}

// Whether a row stands at the front of a text: its letters and its LF.
fn row_holds(width: usize, text: &[u8]) -> bool
    ensures { result ≡ row_holds width text.now }
{
    width < text.len() && text[width] == b'\n' && text[..width].iter().all(|b| is_letter(*b))
}

// n rows and nothing after them: names the first faulty line. (What is left is passed on: a text that ends within a row is named by that line.)
fn judge_rows(width: usize, height: usize, text: &[u8]) -> Result<(), Refusal>
    requires { (width ≤ 64) × (height ≤ 64) }
    ensures { result ≡ rows width height 5 text.now }
{
    let mut left = text;
    for row in 0..height {
        if !row_holds(width, left) {
            return Err(Refusal {
                number: 12,
                place: Place::Line(5 + row),
            });
        }
        left = &left[width + 1..];
    }
    if left.is_empty() {
        return Ok(());
    }
    Err(Refusal {
        number: 12,
        place: Place::Line(5 + height),
    })
}

// The bytes of a row's letters.
fn store_row(letters: &[u8], part: &mut [u8])
    requires { length part.old ≡ length letters.now }
    ensures { part.new ≡ map byte_of letters.now }
{
    for (i, letter) in letters.iter().enumerate() {
        part[i] = byte_of(*letter);
    }
}

// The bytes of n rows that were judged. (What is left is passed on, each row to its own part of the buffer.)
fn store_rows(width: usize, height: usize, text: &[u8], buffer: &mut [u8])
    requires small { (width ≤ 64) × (height ≤ 64) }
    requires room { width * height ≤ length buffer.old }
    requires judged { height * (width + 1) ≤ length text.now }
    ensures { buffer.new ≡ cells_of width height text.now ++ drop (width * height) buffer.old }
{
    let mut left = text;
    for row in 0..height {
        let at = row * width;
        store_row(&left[..width], &mut buffer[at..at + width]);
        left = &left[width + 1..];
    }
}

// Reads a floor text into a lent buffer: 11, then 2, then 12. A refusal leaves the buffer as lent.
pub fn read_floor(text: &[u8], buffer: &mut [u8]) -> Result<Sizes, Refusal>
    ensures { Reads (read_floor text.now buffer.old) result buffer.new }
{
    let (sizes, rows) = read_header(text).ok_or(Refusal::numbered(11))?;
    let Sizes { width, height } = sizes;
    if buffer.len() < width * height {
        return Err(Refusal::numbered(2));
    }
    judge_rows(width, height, rows)?;
    store_rows(width, height, rows, buffer);
    Ok(sizes)
}
