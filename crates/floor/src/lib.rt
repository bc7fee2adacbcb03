// The floor that is lent: one move with its cost, and whether a cell is free; in `goals`, which cells are goals and the opening figure of a cell.

#![tactic(auto)]

mod goals;

ghost use Rattle.std.specs.Prelude.{◌≡◌, true, ◌||◌, ◌<◌, ◌≤◌, eqb, length, get_or};
ghost use Rattle.model.specs.Basics.{choose};
ghost use Rattle.model.specs.Floor.{Sized, size, plain_byte, slow_byte, free_byte, free, doubled, dearest_price};
ghost use Rattle.model.specs.Floor as model;
ghost use Rattle.model.proofs.Moves.{toll};
ghost use Rattle.floor.specs.Moves.{all_kinds, kinds, cost, can_cost, north_byte, west_byte, east_byte, south_byte, Placed, RowClear, ColumnClear, Unless, ahead_byte, step_of};

pub use goals::{MOST_GOALS, goal_at, goals_in, is_goal, one_goal, opening};
use std::marker::Model;

// A floor of 1 to 64 cells each way, whose bytes are lent: one a cell, row by row from the top left.
#[derive(Drop)]
pub struct Floor<'a> {
    pub width: usize,
    pub height: usize,
    pub bytes: &'a [u8],
}

// A contract sees the model's own floor.
impl<'a> Model for Floor<'a> {
    ghost use Rattle.model.specs.Floor.{Floor as Plan, Sized};

    ghost Value = { Plan };

    ghost view = { λ f. record { width = f.width; height = f.height; bytes = f.bytes.now } };

    ghost invariant = { λ f. Sized (record { width = f.width; height = f.height; bytes = f.bytes.now }) };
}

// Where a move leads: the cell moved into, and what the move costs.
#[derive(Clone, Copy)]
pub struct Step {
    pub cell: usize,
    pub cost: u16,
}

// A free cell's byte and those of the straight cells on its sides, blocked past the floor's edge: each is a way out of it where it is free. A diagonal
// move needs two of them free, those beside it.
#[derive(Clone, Copy)]
pub struct Spot {
    pub here: u8,
    pub north: u8,
    pub west: u8,
    pub east: u8,
    pub south: u8,
}

// The floor's bytes: free, blocked (as is every byte above 2), and slow and free.
pub const PLAIN: u8 = 0;

pub const BLOCKED: u8 = 1;

pub const SLOW: u8 = 2;

// A straight move costs 10, a diagonal one 14, and double where it begins or ends in a slow cell; the least and the dearest price of a move.
const STRAIGHT: u16 = 10;

const DIAGONAL: u16 = 14;

pub const LEAST_PRICE: u16 = STRAIGHT;

pub const DEAREST_PRICE: u16 = 2 * DIAGONAL;

// How many costs a move can have; on a floor without slow cells they are the first two.
pub const KINDS: usize = 4;

pub const PLAIN_KINDS: usize = 2;

// The same in more bits, for figures.
const DEAREST: usize = DEAREST_PRICE as usize;

// The greatest depth and the greatest q; and the ceiling for any figure.
pub const DEEPEST: usize = 8;

pub const FINEST: usize = 16;

pub const CEILING: usize = DEAREST * 4095 * FINEST;

// Whether a byte is that of a free cell, slow or not.
pub fn free_byte(b: u8) -> bool
    ensures { result ≡ free_byte b }
{
    if b == PLAIN {
        return true;
    }
    b == SLOW
}

// How far the move m goes east, counted so that 1 is not at all.
fn east(m: usize) -> usize
    requires { m < 8 }
    ensures { result ≡ model.east m }
{
    if m % 4 == 0 {
        return 1;
    }
    if m < 4 { 2 } else { 0 }
}

// How far the move m goes south, counted in the same way.
fn south(m: usize) -> usize
    requires { m < 8 }
    ensures { result ≡ model.south m }
{
    if m % 4 == 2 {
        return 1;
    }
    if m < 2 {
        return 0;
    }
    if m < 6 { 2 } else { 0 }
}

// What the move m costs between ordinary cells.
fn toll(m: usize) -> u16
    requires { m < 8 }
    ensures { result ≡ toll m }
{
    if m % 2 == 0 { STRAIGHT } else { DIAGONAL }
}

// How many of the costs the moves of a floor can have, n so far, after a byte.
fn kinds_after(n: usize, b: u8) -> usize
    ensures { result ≡ choose (eqb b slow_byte) all_kinds n }
{
    if b == SLOW { KINDS } else { n }
}

// And after all of them: with no return at the first slow one, many are looked at at a time.
pub fn kinds_on(floor: &[u8]) -> usize
    ensures { result ≡ kinds floor.now }
{
    let mut n = PLAIN_KINDS;
    for b in floor {
        n = kinds_after(n, *b);
    }
    n
}

// The k-th of the costs that a move can have. (A table of them would be copied at each look.)
pub fn cost_at(k: usize) -> u16
    requires { k < all_kinds }
    ensures { (result ≡ cost k) × (result ≤ dearest_price) }
{
    match k {
        0 => STRAIGHT,
        1 => DIAGONAL,
        2 => 2 * STRAIGHT,
        _ => 2 * DIAGONAL,
    }
}

// Whether the move m can have the k-th cost: straight moves have even numbers, and so have their costs.
pub fn can_cost(m: usize, k: usize) -> bool
    ensures { result ≡ can_cost m k }
{
    m % 2 == k % 2
}

// The side of a cell that a move goes to or passes on its way, and whether it is barred.
impl Spot {
    // Whether the move m needs the straight cell to the west or east, and that is not free; and so to the north or south.
    fn row_barred(self, m: usize) -> bool
        requires { m < 8 }
        ensures { Unless (RowClear self m) result }
    {
        let e = east(m);
        if e == 0 {
            return !free_byte(self.west);
        }
        if e == 2 {
            return !free_byte(self.east);
        }
        false
    }

    fn column_barred(self, m: usize) -> bool
        requires { m < 8 }
        ensures { Unless (ColumnClear self m) result }
    {
        let s = south(m);
        if s == 0 {
            return !free_byte(self.north);
        }
        if s == 2 {
            return !free_byte(self.south);
        }
        false
    }

    // The byte of the cell `to` that the move m leads to: of a straight move one of the four.
    fn byte_ahead(self, bytes: &[u8], to: usize, m: usize) -> u8
        requires { (to < length bytes.now) × (m < 8) }
        ensures { result ≡ ahead_byte self m (get_or bytes.now to 0) }
    {
        match m {
            0 => self.north,
            2 => self.east,
            4 => self.south,
            6 => self.west,
            _ => bytes[to],
        }
    }
}

// Of the bytes of two free cells that of the slower one: 2 where one of them is slow, else 0.
fn slower(here: u8, there: u8) -> u16
    requires { (free_byte here ≡ true) × (free_byte there ≡ true) }
    ensures { result ≡ choose (eqb here slow_byte || eqb there slow_byte) slow_byte plain_byte }
{
    u16::from(here | there)
}

// What the move m costs between free cells of these bytes: its toll, and half of it for each unit of the slower byte, so double where one is slow.
// (By a product, since a choice of two prices takes longer.)
fn price(here: u8, there: u8, m: usize) -> u16
    requires eight { m < 8 }
    requires free { (free_byte here ≡ true) × (free_byte there ≡ true) }
    ensures { result ≡ doubled (eqb here slow_byte || eqb there slow_byte) (toll m) }
{
    let once = toll(m);
    once + once / 2 * slower(here, there)
}

impl Floor<'_> {
    // How many cells there are.
    pub fn cells(&self) -> usize
        ensures sized { Sized self.now }
        ensures count { result ≡ size self.now }
    {
        self.bytes.len()
    }

    // Whether a cell is on the floor and free.
    pub fn is_free(&self, cell: usize) -> bool
        ensures { result ≡ free self.now cell }
    {
        cell < self.bytes.len() && free_byte(self.bytes[cell])
    }

    // The byte of the cell to the north of a cell, blocked past the edge; and so to the west, the east and the south.
    fn north_byte(&self, cell: usize) -> u8
        requires { cell < size self.now }
        ensures { result ≡ north_byte self.now cell }
    {
        if cell < self.width {
            return BLOCKED;
        }
        self.bytes[cell - self.width]
    }

    fn west_byte(&self, cell: usize, col: usize) -> u8
        requires { (cell < size self.now) × (col ≡ model.column self.now cell) }
        ensures { result ≡ west_byte self.now cell }
    {
        if col == 0 {
            return BLOCKED;
        }
        self.bytes[cell - 1]
    }

    fn east_byte(&self, cell: usize, col: usize) -> u8
        requires { (cell < size self.now) × (col ≡ model.column self.now cell) }
        ensures { result ≡ east_byte self.now cell }
    {
        if self.width <= col + 1 {
            return BLOCKED;
        }
        self.bytes[cell + 1]
    }

    fn south_byte(&self, cell: usize) -> u8
        requires { cell < size self.now }
        ensures { result ≡ south_byte self.now cell }
    {
        if self.bytes.len() <= cell + self.width {
            return BLOCKED;
        }
        self.bytes[cell + self.width]
    }

    // A free cell and the ways out of it.
    pub fn spot(&self, cell: usize) -> Spot
        requires { free self.now cell ≡ true }
        ensures { Placed self.now cell result }
    {
        let col = cell % self.width;
        Spot {
            here: self.bytes[cell],
            north: self.north_byte(cell),
            west: self.west_byte(cell, col),
            east: self.east_byte(cell, col),
            south: self.south_byte(cell),
        }
    }

    // The move m from a free cell, by the ways out of it: None where nothing may be moved into.
    pub fn step(&self, cell: usize, at: Spot, m: usize) -> Option<Step>
        requires placed { Placed self.now cell at }
        requires eight { m < 8 }
        ensures { result ≡ step_of self.now cell m }
    {
        let width = self.width;
        if at.row_barred(m) {
            return None;
        }
        if at.column_barred(m) {
            return None;
        }
        let to = cell + south(m) * width + east(m) - (width + 1);
        let there = at.byte_ahead(self.bytes, to, m);
        if !free_byte(there) {
            return None;
        }
        Some(Step {
            cell: to,
            cost: price(at.here, there, m),
        })
    }
}
