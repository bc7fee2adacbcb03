// The site that a table belongs to: its floor, its goals, and the q of its figures; and what a trailer names of it.
ghost use Rattle.std.specs.Prelude.{◌≡◌, ◌<◌, Ok, Err, MatchResult};
ghost use Rattle.model.specs.Floor.{size, goals_of};
ghost use Rattle.model.specs.Floor as model;
ghost use Rattle.model.specs.Opening.{open_table};
ghost use Rattle.floor.specs.Moves.{flat};
ghost use Rattle.table_file.specs.Promises.{Opened};

use answers::{Goals, Refusal};
use floor::Floor;

// What a table belongs to: the sizes of its floor, the goals, and the q of its figures.
#[derive(Clone, Copy)]
pub struct Site {
    pub width: usize,
    pub height: usize,
    pub goals: Goals,
    pub q: usize,
}

// A site with its floor, which 1, 3, 4 and 27 let through.
#[derive(Drop)]
pub struct OpenSite<'a> {
    pub floor: Floor<'a>,
    pub goals: Goals,
    pub q: usize,
    ghost opened: { Opened floor q (goals_of goals) },
}

// What a trailer names: the sizes of a floor, the goals, and the q of a table's figures.
#[derive(Clone, Copy)]
pub struct Named {
    pub width: u8,
    pub height: u8,
    pub goals: Goals,
    pub q: u8,
}

impl Site {
    // 1, 3, 4 and 27.
    pub fn open<'a>(self, floor: &'a [u8], figures: usize) -> Result<OpenSite<'a>, Refusal>
        ensures { let plan = flat self.width self.height floor.now in
            MatchResult result
            (λ s. (s.floor ≡ plan) × (s.goals ≡ self.goals) × (s.q ≡ self.q) × (open_table plan self.q self.goals figures ≡ Ok tt))
            (λ r. open_table plan self.q self.goals figures ≡ Err r) }
    {
        let floor = opening::open_table(
            self.width,
            self.height,
            self.goals,
            self.q,
            floor,
            figures,
        )?;
        Ok(OpenSite {
            floor,
            goals: self.goals,
            q: self.q,
        })
    }
}

impl<'a> OpenSite<'a> {
    // The opening figure of a cell. (Laid out where it is called: a call for each record takes an eighth of reading.)
    #[inline]
    pub fn opening(&self, cell: usize) -> usize
        requires { cell < size self.now.floor }
        ensures { (result ≡ model.opening self.now.floor self.now.q (goals_of self.now.goals) cell) × (result < 4294967296) }
    {
        self.floor.opening(self.goals, self.q, cell)
    }

    // What a trailer of its tables names.
    pub fn named(&self) -> Named
        ensures { let s = self.now in
            result ≡ record { width = s.floor.width; height = s.floor.height; goals = s.goals; q = s.q } }
    {
        Named {
            width: self.floor.width as u8,
            height: self.floor.height as u8,
            goals: self.goals,
            q: self.q as u8,
        }
    }
}
