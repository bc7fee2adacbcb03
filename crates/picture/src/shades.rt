// The shades: how far each figure has risen above its opening figure, in up to six steps of the largest rise.
//
// 0 is a free cell whose figure is as it was, 1 to 6 are the steps, light to dark, and 7 is a blocked cell.
ghost use Rattle.std.specs.Prelude.{◌≤◌, ◌<◌};
ghost use Rattle.picture.specs.Pages.{Stays};

use drawing::Page;

// The scale of the shades: the largest rise that they stand for.
#[derive(Clone, Copy)]
pub struct Scale {
    pub most: u32,
}

// What is shaded: a floor, its figures and the opening figures, and their scale.
#[derive(Clone, Copy)]
pub struct Learned<'a> {
    pub floor: &'a [u8],
    pub table: &'a [u32],
    pub opening: &'a [u32],
    pub scale: Scale,
}

impl Scale {
    // The largest rise of a table's figures.
    pub(crate) fn of(table: &[u32], opening: &[u32]) -> Self {
        Scale {
            most: table
                .iter()
                .zip(opening)
                .map(|(figure, first)| figure.saturating_sub(*first))
                .max()
                .unwrap_or(0),
        }
    }

    // How many steps are told apart: six, or each rise where fewer are possible.
    pub(crate) fn steps(&self) -> usize
        ensures { result ≤ 6 }
    {
        (self.most as usize).min(6)
    }

    // The largest rise that a step has: so many shares of the largest of all.
    pub(crate) fn bound(&self, step: usize) -> usize
        requires { step ≤ 6 }
        ensures { result < 25769803776 }
    {
        self.most as usize * step / self.steps().max(1)
    }

    // The shade of a step: the last is always the darkest.
    pub(crate) fn shade_of(&self, step: usize) -> usize
        requires { step ≤ 6 }
        ensures { result ≤ 6 }
    {
        6 - self.steps().saturating_sub(step)
    }

    // The step that a rise has: the first whose bound it does not pass.
    fn step_of(&self, rise: u32) -> usize
        ensures { result ≤ 6 }
    {
        let last = self.steps();
        (1..last)
            .find(|step| rise as usize <= self.bound(*step))
            .unwrap_or(last)
    }
}

impl<'a> Learned<'a> {
    // How far the figure of a cell has risen.
    fn rise(&self, x: usize) -> u32 {
        match (self.table.get(x), self.opening.get(x)) {
            (Some(figure), Some(first)) => figure.saturating_sub(*first),
            _ => 0,
        }
    }

    // The shade of a cell.
    pub(crate) fn shade_at(&self, x: usize) -> u8 {
        match self.floor.get(x) {
            Some(b) if floor::free_byte(*b) => {
                let rise = self.rise(x);
                if rise == 0 {
                    0
                } else {
                    self.scale.shade_of(self.scale.step_of(rise)) as u8
                }
            }
            _ => 7,
        }
    }

    // The shade of each cell.
    pub(crate) fn fill(&self, shades: &mut [u8]) {
        for (x, shade) in shades.iter_mut().enumerate() {
            *shade = self.shade_at(x);
        }
    }
}

// The colour of a shade: light yellow to dark blue, which tell apart by lightness alone.
pub(crate) fn colour(page: &mut Page, shade: usize)
    ensures on_page { Stays page.old page.new }
{
    match shade {
        0 => page.words(b"#ffffff"),
        1 => page.words(b"#ffffbf"),
        2 => page.words(b"#c7e9b4"),
        3 => page.words(b"#7fcdbb"),
        4 => page.words(b"#41b6c4"),
        5 => page.words(b"#2c7fb8"),
        6 => page.words(b"#253494"),
        _ => page.words(b"#4d4d4d"),
    }
}
