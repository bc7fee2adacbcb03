// The goals of a job: how many there are and which, whether a cell is one, and the opening figure of a cell, the least over them.
ghost use Rattle.std.specs.Prelude.{◌≡◌, List, ℕ, ◌<◌, ◌≤◌, ◌*◌, length, get_or};
ghost use Rattle.model.specs.Basics.{member};
ghost use Rattle.model.specs.Checks.{finest, Benched};
ghost use Rattle.model.specs.Floor.{size, octile, goals_of, one_goal};
ghost use Rattle.model.specs.Floor as model;
ghost use Rattle.floor.specs.Moves.{flat};

use super::{DIAGONAL, Floor, STRAIGHT};
use answers::Goals;

// The most goals that a job may name.
pub const MOST_GOALS: usize = 4;

// Prices in more bits, for figures.
const STRAIGHTS: usize = STRAIGHT as usize;

const DIAGONALS: usize = DIAGONAL as usize;

// One goal alone.
pub fn one_goal(goal: usize) -> Goals
    ensures { result ≡ one_goal goal }
{
    Goals {
        count: 1,
        first: goal,
        second: 0,
        third: 0,
        fourth: 0,
    }
}

// How many goals there are: of more than four named, the first four.
pub fn goals_in(goals: Goals) -> usize
    ensures { result ≡ length (goals_of goals) }
{
    goals.count.min(MOST_GOALS)
}

// The goals in their order, the first at 0.
pub fn goal_at(goals: Goals, i: usize) -> usize
    requires { i < length (goals_of goals) }
    ensures { result ≡ get_or (goals_of goals) i 0 }
{
    match i {
        0 => goals.first,
        1 => goals.second,
        2 => goals.third,
        _ => goals.fourth,
    }
}

// Whether a cell is a goal.
pub fn is_goal(goals: Goals, cell: usize) -> bool
    ensures { result ≡ member cell (goals_of goals) }
{
    for i in 0..goals_in(goals) {
        if cell == goal_at(goals, i) {
            return true;
        }
    }
    false
}

// The figure of a cell to one goal, which does not depend on the floor's bytes.
fn octile(width: usize, height: usize, goal: usize, q: usize, cell: usize) -> usize
    requires wide { 1 ≤ width }
    requires narrow { width ≤ 64 }
    requires low { height ≤ 64 }
    requires fine { q ≤ finest }
    requires cells { (cell < width * height) × (goal < width * height) }
    ensures { (bytes : List ℕ) → result ≡ octile (flat width height bytes) q goal cell }
{
    let dx = (cell % width).abs_diff(goal % width);
    let dy = (cell / width).abs_diff(goal / width);
    q * (DIAGONALS * dx.min(dy) + STRAIGHTS * dx.abs_diff(dy))
}

// The opening figure of a cell, goal by goal. (The loop goes up to a number that is known to be small, and so is laid out without one.)
pub fn opening(width: usize, height: usize, goals: Goals, q: usize, cell: usize) -> usize
    requires wide { 1 ≤ width }
    requires narrow { width ≤ 64 }
    requires low { height ≤ 64 }
    requires fine { q ≤ finest }
    requires cells { (cell < width * height) × Benched (width * height) (goals_of goals) }
    ensures { (bytes : List ℕ) → result ≡ model.opening (flat width height bytes) q (goals_of goals) cell }
{
    let mut least = octile(width, height, goal_at(goals, 0), q, cell);
    for i in 1..goals_in(goals) {
        let figure = octile(width, height, goal_at(goals, i), q, cell);
        least = least.min(figure);
    }
    least
}

impl Floor<'_> {
    // The opening figure of a cell of this floor.
    pub fn opening(&self, goals: Goals, q: usize, cell: usize) -> usize
        requires fine { q ≤ finest }
        requires cell { cell < size self.now }
        requires benched { Benched (size self.now) (goals_of goals) }
        ensures { result ≡ model.opening self.now q (goals_of goals) cell }
    {
        opening(self.width, self.height, goals, q, cell)
    }
}
