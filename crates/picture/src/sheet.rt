// The sheet that a floor is drawn on: how large its cells are, and where on it things stand, in points from its upper left corner.
ghost use Rattle.std.specs.Prelude.{◌≤◌};
ghost use Rattle.picture.specs.Pages.{Stays};

use drawing::Page;

// The floor's sizes, the side of a cell, and whether some cell is slow, for which the legend has a row more. The floor stands 20 points from
// the left and 50 from the top, the legend to its right.
#[derive(Clone, Copy)]
pub struct Sheet {
    pub columns: usize,
    pub rows: usize,
    pub cell: usize,
    pub slow: bool,
    ghost drawn: { (1 ≤ columns) × (10 ≤ cell) × (cell ≤ 96) },
}

// How many cells a floor has: no floor has more than 64 in a row or a column.
pub(crate) fn cells(columns: usize, rows: usize) -> usize
    ensures { result ≤ 4096 }
{
    if 64 < columns || 64 < rows {
        return 0;
    }
    columns * rows
}

// The legend's rows stand 22 points apart, the first beside the floor's upper edge.
pub(crate) fn legend_y(row: usize) -> usize
    requires { row ≤ 13 }
    ensures { (60 ≤ result) × (result ≤ 346) }
{
    60 + 22 * row
}

impl Sheet {
    // A floor's longer side gets 480 points, but a cell no fewer than 10 and no more than 96.
    pub(crate) fn of(columns: usize, rows: usize, floor: &[u8]) -> Self {
        let columns = columns.max(1);
        Sheet {
            columns,
            rows,
            cell: (480 / columns.max(rows)).clamp(10, 96),
            slow: floor::kinds_on(floor) == floor::KINDS,
        }
    }

    // How far n cells reach.
    pub(crate) fn reach(&self, n: usize) -> usize
        ensures { result ≤ 6144 }
    {
        self.cell * n.min(64)
    }

    // Where the legend begins.
    pub(crate) fn legend_x(&self) -> usize
        ensures { result ≤ 6188 }
    {
        44 + self.reach(self.columns)
    }

    // The legend's row where what was learned begins: below that of slow cells, where there is one.
    pub(crate) fn learned_row(&self) -> usize
        ensures { (5 ≤ result) × (result ≤ 6) }
    {
        if self.slow { 6 } else { 5 }
    }

    // Where the counts stand: below the floor and the legend's rows, whichever ends lower.
    pub(crate) fn counts_y(&self) -> usize
        ensures { (366 ≤ result) × (result ≤ 6224) }
    {
        let legend = 22 * (8 + self.learned_row());
        80 + legend.max(self.reach(self.rows))
    }

    // The sheet's own sizes: wide enough for a line of counts.
    fn width(&self) -> usize {
        (self.legend_x() + 236).max(680)
    }

    fn height(&self) -> usize {
        self.counts_y() + 42
    }

    // So many points as a share of a cell's side, in thousandths: less than the whole, since no cell has fewer than 10.
    pub(crate) fn points(&self, page: &mut Page, n: usize)
        requires { n ≤ 9 }
        ensures on_page { Stays page.old page.new }
    {
        let share = n * 1000 / self.cell;
        if share < 100 {
            page.said(b"0.0", share);
        } else {
            page.said(b"0.", share);
        }
    }

    // The drawing's first lines: a white sheet.
    pub(crate) fn begin(&self, page: &mut Page)
        ensures on_page { Stays page.old page.new }
    {
        page.words(
            b"<svg xmlns='http://www.w3.org/2000/svg' xmlns:xlink='http://www.w3.org/1999/xlink' version='1.1'",
        );
        page.attribute(b"width", self.width());
        page.attribute(b"height", self.height());
        page.said(b" viewBox='0 0 ", self.width());
        page.said(b" ", self.height());
        page.words(b"' font-family='sans-serif' font-size='13'>\n");
        page.said(b"<title>What a cart learned on a floor of ", self.columns);
        page.said(b" by ", self.rows);
        page.words(b" cells</title>\n");
        page.rectangle(0, 0, self.width(), self.height(), b" fill='#ffffff'");
    }

    // What follows is told in cells: the floor's upper left corner is 0 0, and a cell's side is 1.
    pub(crate) fn on_floor(&self, page: &mut Page)
        ensures on_page { Stays page.old page.new }
    {
        page.said(b"<g transform='translate(20 50) scale(", self.cell);
        page.words(b")'>\n");
    }

    pub(crate) fn off_floor(&self, page: &mut Page)
        ensures on_page { Stays page.old page.new }
    {
        page.words(b"</g>\n");
    }
}
