// The figures themselves, on floors of at most five cells each way: each stands between the ways that may lead north and north-east.
ghost use Rattle.picture.specs.Pages.{Stays};

use crate::shades::Learned;
use crate::sheet::Sheet;
use drawing::Page;

// A colour that can be read on a shade.
fn ink(page: &mut Page, shade: u8)
    ensures on_page { Stays page.old page.new }
{
    if 4 < shade {
        page.words(b"<g fill='#ffffff'>");
    } else {
        page.words(b"<g fill='#000000'>");
    }
}

// The figure of a cell on its shade.
fn draw_figure(page: &mut Page, s: &Sheet, x: usize, shade: u8, figure: u32)
    ensures on_page { Stays page.old page.new }
{
    ink(page, shade);
    page.caption_from(s.reach(x % s.columns) + 80, s.reach(x / s.columns) + 67);
    page.number(figure as usize);
    page.caption_end();
    page.words(b"</g>\n");
}

// The figures of all free cells: a blocked one's never changes.
pub(crate) fn draw(page: &mut Page, s: &Sheet, learned: &Learned)
    ensures on_page { Stays page.old page.new }
{
    if s.cell < 96 {
        return;
    }
    page.words(b"<g font-size='12' text-anchor='middle'>\n");
    for (x, figure) in learned.table.iter().enumerate() {
        let shade = learned.shade_at(x);
        if shade != 7 {
            draw_figure(page, s, x, shade, *figure);
        }
    }
    page.words(b"</g>\n");
}
