// The legend: what each mark, line and shade stands for.
ghost use Rattle.std.specs.Prelude.{◌≤◌, length};
ghost use Rattle.picture.specs.Pages.{Stays};

use crate::marks::{self, Spot};
use crate::shades::{self, Scale};
use crate::sheet::{self, Sheet};
use drawing::Page;
use learner::Job;

// Where its rows begin.
#[derive(Clone, Copy)]
struct Legend {
    x: usize,
    ghost on_sheet: { x ≤ 6188 },
}

impl Legend {
    // The front of a row's words.
    fn caption_from(&self, page: &mut Page, row: usize)
        requires { row ≤ 13 }
        ensures on_page { Stays page.old page.new }
    {
        page.caption_from(self.x + 38, sheet::legend_y(row) + 5);
    }

    // A row's words.
    fn caption(&self, page: &mut Page, row: usize, s: &[u8])
        requires row { row ≤ 13 }
        requires short { length s.now ≤ 512 }
        ensures on_page { Stays page.old page.new }
    {
        self.caption_from(page, row);
        page.words(s);
        page.caption_end();
    }

    // A row's words and the number that they introduce.
    fn said(&self, page: &mut Page, row: usize, s: &[u8], n: usize)
        requires row { row ≤ 13 }
        requires short { length s.now ≤ 512 }
        ensures on_page { Stays page.old page.new }
    {
        self.caption_from(page, row);
        page.said(s, n);
        page.caption_end();
    }

    // Where a row's mark stands.
    fn spot(&self, row: usize) -> Spot
        requires { row ≤ 13 }
    {
        Spot {
            x: self.x + 14,
            y: sheet::legend_y(row),
            half: 8,
        }
    }

    // A row's line, in the style of `style`.
    fn line(&self, page: &mut Page, row: usize, style: &[u8])
        requires row { row ≤ 13 }
        requires short { length style.now ≤ 512 }
        ensures on_page { Stays page.old page.new }
    {
        page.level(self.x, self.x + 28, sheet::legend_y(row), style);
    }

    // A row's box, in the style of `style`.
    fn box_of(&self, page: &mut Page, row: usize, style: &[u8])
        requires row { row ≤ 13 }
        requires short { length style.now ≤ 512 }
        ensures on_page { Stays page.old page.new }
    {
        page.rectangle(self.x, sheet::legend_y(row) - 8, 28, 16, style);
    }

    // Start and bench, with the cells' numbers.
    fn places(&self, page: &mut Page, start: usize, goal: usize)
        ensures on_page { Stays page.old page.new }
    {
        marks::circle(page, self.spot(0));
        self.said(page, 0, b"start, cell ", start);
        marks::square(page, self.spot(1), b"B");
        self.said(page, 1, b"bench, cell ", goal);
    }

    // The two ways, as wide as they are drawn.
    fn ways(&self, page: &mut Page)
        ensures on_page { Stays page.old page.new }
    {
        self.line(page, 2, b" stroke='#000000' stroke-width='6'");
        self.caption(page, 2, b"kept way");
        self.line(
            page,
            3,
            b" stroke='#ff8c1a' stroke-opacity='0.85' stroke-width='3'",
        );
        self.caption(page, 3, b"way of the last trial");
    }

    // A box of a shade.
    fn sample(&self, page: &mut Page, row: usize, shade: usize)
        requires { row ≤ 13 }
        ensures on_page { Stays page.old page.new }
    {
        page.words(b"<g stroke='#000000' stroke-opacity='0.5' fill='");
        shades::colour(page, shade);
        page.words(b"'>\n");
        self.box_of(page, row, b"");
        page.words(b"</g>\n");
    }

    // Slow cells.
    fn slow(&self, page: &mut Page)
        ensures on_page { Stays page.old page.new }
    {
        self.sample(page, 5, 0);
        self.box_of(page, 5, b" fill='url(#hatch)'");
        self.caption(page, 5, b"slow, moves cost double");
    }

    // What the shades measure; figures count in units of 1/q.
    fn heading(&self, page: &mut Page, row: usize, q: usize)
        requires { row ≤ 6 }
        ensures on_page { Stays page.old page.new }
    {
        page.caption_from(self.x, sheet::legend_y(row) + 5);
        page.words(b"Learned above the opening");
        if q != 1 {
            page.said(b", in 1/", q);
        }
        page.caption_end();
    }

    // The rises of a step, so many rows below a row.
    fn range(&self, page: &mut Page, row: usize, scale: Scale, step: usize)
        requires { (row ≤ 7) × (1 ≤ step) × (step ≤ 6) }
        ensures on_page { Stays page.old page.new }
    {
        let first = scale.bound(step - 1) + 1;
        let last = scale.bound(step);
        self.sample(page, row + step, scale.shade_of(step));
        self.caption_from(page, row + step);
        page.number(first);
        if first < last {
            page.said(b" to ", last);
        }
        page.caption_end();
    }

    // The shades with their ranges, from a row on.
    fn learned(&self, page: &mut Page, row: usize, q: usize, scale: Scale)
        requires { row ≤ 6 }
        ensures on_page { Stays page.old page.new }
    {
        self.heading(page, row, q);
        self.sample(page, row + 1, 0);
        self.caption(page, row + 1, b"nothing");
        for step in 1..=scale.steps() {
            self.range(page, row + 1, scale, step);
        }
    }
}

// Marks, ways, blocked and slow cells, and the shades.
pub(crate) fn draw(page: &mut Page, s: &Sheet, job: Job, start: usize, scale: Scale)
    ensures on_page { Stays page.old page.new }
{
    let legend = Legend { x: s.legend_x() };
    legend.places(page, start, job.goals.first);
    legend.ways(page);
    legend.sample(page, 4, 7);
    legend.caption(page, 4, b"blocked");
    if s.slow {
        legend.slow(page);
    }
    legend.learned(page, s.learned_row(), job.q, scale);
}
