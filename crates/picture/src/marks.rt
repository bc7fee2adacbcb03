// The marks of the start and the bench: a circle with an S, a square with a B, large enough to be read on any floor.
ghost use Rattle.std.specs.Prelude.{◌≤◌, length};
ghost use Rattle.picture.specs.Pages.{Stays};

use crate::sheet::Sheet;
use drawing::Page;

// Where a mark stands, and half its side.
#[derive(Clone, Copy)]
pub struct Spot {
    pub x: usize,
    pub y: usize,
    pub half: usize,
    ghost on_sheet: { (half ≤ x) × (half ≤ y) × (y ≤ 8000) × (half ≤ 20) },
}

// Letters in the middle of a mark.
fn letters(page: &mut Page, at: Spot, s: &[u8])
    requires { length s.now ≤ 512 }
    ensures on_page { Stays page.old page.new }
{
    let size = at.half + 4;
    page.words(b"<g font-weight='bold' text-anchor='middle'");
    page.attribute(b"font-size", size);
    page.words(b">\n");
    page.caption(at.x, at.y + (size + 1) / 3, s);
    page.words(b"</g>\n");
}

// The start's mark around a place.
pub(crate) fn circle(page: &mut Page, at: Spot)
    ensures on_page { Stays page.old page.new }
{
    page.circle(
        at.x,
        at.y,
        at.half,
        b" fill='#ffffff' stroke='#000000' stroke-width='2'",
    );
    letters(page, at, b"S");
}

// The bench's mark around a place, with its letters.
pub(crate) fn square(page: &mut Page, at: Spot, s: &[u8])
    requires { length s.now ≤ 512 }
    ensures on_page { Stays page.old page.new }
{
    page.rectangle(
        at.x - at.half,
        at.y - at.half,
        2 * at.half,
        2 * at.half,
        b" fill='#ffffff' stroke='#000000' stroke-width='2'",
    );
    letters(page, at, s);
}

// Where a cell's mark stands: in its middle, and half the mark's side is a third of the cell's, held between 8 and 16 points.
// No cell is smaller than 10, so its middle lies 5 points or more from where the floor begins, at 20 and 50.
fn spot_of(s: &Sheet, cell: usize) -> Spot
    ensures { (25 ≤ result.x) × (55 ≤ result.y) × (result.y ≤ 8000) × (result.half ≤ 16) }
{
    let middle = s.cell / 2;
    Spot {
        x: 20 + s.reach(cell % s.columns) + middle,
        y: 50 + s.reach(cell / s.columns) + middle,
        half: (s.cell / 3).clamp(8, 16),
    }
}

// Both marks: a start that is the bench has the two letters in one square.
pub(crate) fn draw(page: &mut Page, s: &Sheet, start: usize, goal: usize)
    ensures on_page { Stays page.old page.new }
{
    if start == goal {
        square(page, spot_of(s, goal), b"SB");
    } else {
        circle(page, spot_of(s, start));
        square(page, spot_of(s, goal), b"B");
    }
}
