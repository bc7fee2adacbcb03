// The floor's cells: of each shade one path, in which cells side by side are one oblong; slow cells hatched; and thin lines between the cells.
ghost use Rattle.std.specs.Prelude.{◌≤◌, ◌<◌, length};
ghost use Rattle.picture.specs.Pages.{Stays};

use crate::shades::{self, Learned};
use crate::sheet::{self, Sheet};
use drawing::Page;
use notation::lists;

// Where the cells from x on stop to be of one kind, or the row stops.
fn stretch_end(s: &Sheet, kinds: &[u8], x: usize) -> usize
    requires { x < length kinds.now }
    ensures { (x < result) × (result ≤ length kinds.now) }
{
    for end in x + 1..kinds.len() {
        if end % s.columns == 0 || kinds[end] != kinds[x] {
            return end;
        }
    }
    kinds.len()
}

// The oblong of n cells from x on.
fn oblong(page: &mut Page, s: &Sheet, x: usize, n: usize)
    ensures on_page { Stays page.old page.new }
{
    page.said(b"M", x % s.columns);
    page.said(b" ", x / s.columns);
    page.said(b"h", n);
    page.said(b"v1h-", n);
    page.words(b"z");
}

// The oblongs of the cells of one kind: a shade, or a byte of the floor.
fn oblongs(page: &mut Page, s: &Sheet, kinds: &[u8], which: u8)
    ensures on_page { Stays page.old page.new }
{
    let mut x = 0;
    // Each stretch of cells says where the next one begins.
    while x < kinds.len() {
        let end = stretch_end(s, kinds, x);
        if kinds[x] == which {
            oblong(page, s, x, end - x);
        }
        x = end;
    }
}

// The cells of one shade.
fn of_shade(page: &mut Page, s: &Sheet, shades: &[u8], which: u8)
    ensures on_page { Stays page.old page.new }
{
    page.words(b"<path fill='");
    shades::colour(page, usize::from(which));
    page.words(b"' d='");
    oblongs(page, s, shades, which);
    page.words(b"'/>\n");
}

// Each cell in its shade; 0 is the sheet's own.
fn shaded(page: &mut Page, s: &Sheet, learned: &Learned)
    ensures on_page { Stays page.old page.new }
{
    let n = sheet::cells(s.columns, s.rows);
    let mut room: [u8; 4096] = lists::filled(0);
    let shades = &mut room[..n];
    learned.fill(shades);
    page.words(b"<g shape-rendering='crispEdges'>\n");
    for which in 1..8 {
        of_shade(page, s, shades, which);
    }
    page.words(b"</g>\n");
}

// Slow cells hatched over their shades, where there are any: each dark line has a white one beside it, so that one of the two is seen on any
// shade. The lines are 8 points apart, in the legend and on the floor, whose unit is a cell.
fn hatched(page: &mut Page, s: &Sheet, floor: &[u8])
    ensures on_page { Stays page.old page.new }
{
    if !s.slow {
        return;
    }
    page.words(
        b"<pattern id='hatch' width='8' height='8' patternUnits='userSpaceOnUse'><path d='M-2 2L2-2M0 8L8 0M6 10L10 6' stroke='#000000' stroke-opacity='0.6'/><path d='M-1 3L3-1M1 9L9 1' stroke='#ffffff'/></pattern>\n",
    );
    page.words(b"<pattern id='slow' xlink:href='#hatch' patternTransform='scale(");
    s.points(page, 1);
    page.words(b")'/>\n<path fill='url(#slow)' d='");
    oblongs(page, s, floor, floor::SLOW);
    page.words(b"'/>\n");
}

// Thin lines at the left and upper edge of each cell.
fn grid(page: &mut Page, s: &Sheet)
    ensures on_page { Stays page.old page.new }
{
    page.words(
        b"<pattern id='grid' width='1' height='1' patternUnits='userSpaceOnUse'><path d='M1 0H0V1' fill='none' stroke='#000000' stroke-opacity='0.25' stroke-width='",
    );
    s.points(page, 1);
    page.words(b"'/></pattern>\n");
    page.rectangle(0, 0, s.columns, s.rows, b" fill='url(#grid)'");
}

// A frame around the floor.
fn frame(page: &mut Page, s: &Sheet)
    ensures on_page { Stays page.old page.new }
{
    page.words(b"<g fill='none' stroke='#000000' stroke-width='");
    s.points(page, 2);
    page.words(b"'>\n");
    page.rectangle(0, 0, s.columns, s.rows, b"");
    page.words(b"</g>\n");
}

// The floor, each cell in the shade of what was learned of it, slow ones hatched.
pub(crate) fn draw(page: &mut Page, s: &Sheet, learned: &Learned)
    ensures on_page { Stays page.old page.new }
{
    shaded(page, s, learned);
    hatched(page, s, learned.floor);
    grid(page, s);
    frame(page, s);
}
