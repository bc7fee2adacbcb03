// The ways: the last trial made again, drawn move by move, and of the way that it keeps the moves from each place of the path to the next.
ghost use Rattle.std.specs.Prelude.{◌≤◌, length};
ghost use Rattle.model.specs.Lookahead.{most_moves};
ghost use Rattle.picture.specs.Pages.{Stays};

use crate::runs::Task;
use crate::sheet::Sheet;
use decision::LEAST_ROOM;
use drawing::Page;
use learner::{Answer, State};
use lookahead::MOST_MOVES;
use notation::lists;

// The moves that lead on from a place of the path: the first so many.
#[derive(Clone, Copy)]
struct Leg {
    count: u8,
    moves: [u8; MOST_MOVES],
    ghost few: { count ≤ most_moves },
}

// Those of each place.
type Legs = [Leg; 4096];

// One move: from the middle of a cell to the middle of the next.
fn draw_move(page: &mut Page, m: u8)
    ensures on_page { Stays page.old page.new }
{
    match m {
        0 => page.words(b"v-1"),
        1 => page.words(b"l1-1"),
        2 => page.words(b"h1"),
        3 => page.words(b"l1 1"),
        4 => page.words(b"v1"),
        5 => page.words(b"l-1 1"),
        6 => page.words(b"h-1"),
        _ => page.words(b"l-1-1"),
    }
}

fn draw_moves(page: &mut Page, moves: &[u8])
    ensures on_page { Stays page.old page.new }
{
    for m in moves {
        draw_move(page, *m);
    }
}

// Moves noted as a leg.
fn leg_of(moves: &[u8]) -> Leg
    requires { length moves.now ≤ most_moves }
{
    let mut room = [0; MOST_MOVES];
    room[..moves.len()].copy_from_slice(moves);
    Leg {
        count: moves.len() as u8,
        moves: room,
    }
}

// How many moves an answer tells of.
fn moves_of(a: Answer) -> usize {
    match a {
        Answer::Forward { moves, .. } | Answer::BackedOut { moves, .. } => moves,
        Answer::Arrived | Answer::Stayed { .. } | Answer::Refused(_) => 0,
    }
}

// One decision, its moves drawn; where it adds a cell to the path, they are noted at the cell before.
fn go_on(
    page: &mut Page,
    task: &Task,
    before: State,
    table: &mut [u32],
    path: &mut [u16],
    legs: &mut Legs,
) -> State
    ensures on_page { Stays page.old page.new }
{
    let mut room: [u8; LEAST_ROOM] = lists::filled(0);
    let decided = learner::decide(task.job, task.floor, before, table, path, &mut room, 0);
    let after = decided.state;
    let n = moves_of(decided.answer).min(MOST_MOVES);
    let moves = &room[..n];
    if before.length < after.length && before.length < legs.len() {
        legs[before.length] = leg_of(moves);
    }
    draw_moves(page, moves);
    after
}

// So many decisions from the start on, drawn as a path's moves; the state after them.
fn draw_trial(
    page: &mut Page,
    task: &Task,
    decisions: u64,
    table: &mut [u32],
    path: &mut [u16],
    legs: &mut Legs,
) -> State
    ensures on_page { Stays page.old page.new }
{
    let mut state = State {
        current: task.start,
        learned: 0,
        length: 0,
    };
    for _ in 0..decisions {
        state = go_on(page, task, state, table, path, legs);
    }
    state
}

// The kept way: from place to place of the path, which has so many after its first.
fn draw_legs(page: &mut Page, legs: &Legs, length: usize)
    ensures on_page { Stays page.old page.new }
{
    for leg in legs.iter().take(length) {
        draw_moves(page, &leg.moves[..usize::from(leg.count)]);
    }
}

// The front of a way from the start on.
fn way_from(page: &mut Page, s: &Sheet, start: usize)
    ensures on_page { Stays page.old page.new }
{
    page.said(b" d='M", start % s.columns);
    page.said(b" ", start / s.columns);
}

// The last trial and what it keeps, to be drawn once the floor is.
pub(crate) fn define(
    page: &mut Page,
    s: &Sheet,
    task: &Task,
    decisions: u64,
    table: &mut [u32],
    path: &mut [u16],
)
    ensures on_page { Stays page.old page.new }
{
    let mut legs: Legs = lists::filled(leg_of(b""));
    page.words(b"<defs>\n<path id='last'");
    way_from(page, s, task.start);
    let end = draw_trial(page, task, decisions, table, path, &mut legs);
    page.words(b"'/>\n<path id='kept'");
    way_from(page, s, task.start);
    draw_legs(page, &legs, end.length);
    page.words(b"'/>\n</defs>\n");
}

// A way that is defined, so many points wide.
fn stroke(page: &mut Page, s: &Sheet, n: usize, way: &[u8])
    requires { (n ≤ 9) × (length way.now ≤ 512) }
    ensures on_page { Stays page.old page.new }
{
    page.words(b"<use stroke-width='");
    s.points(page, n);
    page.words(b"'");
    page.words(way);
    page.words(b"/>\n");
}

// The kept way dark on white, and the last trial's thin on top of it.
pub(crate) fn draw(page: &mut Page, s: &Sheet)
    ensures on_page { Stays page.old page.new }
{
    page.words(
        b"<g transform='translate(0.5 0.5)' fill='none' stroke-linejoin='round' stroke-linecap='round'>\n",
    );
    stroke(page, s, 9, b" stroke='#ffffff' xlink:href='#kept'");
    stroke(page, s, 6, b" stroke='#000000' xlink:href='#kept'");
    stroke(
        page,
        s,
        3,
        b" stroke='#ff8c1a' stroke-opacity='0.85' xlink:href='#last'",
    );
    page.words(b"</g>\n");
}
