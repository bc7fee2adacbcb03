// Decimal numbers between blanks, read from an input one after another, alone or into a list; and printed, one space before each.

#![tactic(auto)]

pub mod print;

ghost use Rattle.std.specs.Prelude.{◌≡◌, ◌≤◌, ℕ, false, ◌&&◌, length, map, drop, position, not, IfSome, is_none};
ghost use Rattle.numbers.specs.Reading.{is_blank, greatest, digits_from, number_at, next_number, value_of, place_after, ended_at, Read, next_several, next_list};

use notation::digits::{self, Run};

// The greatest number that is read.
const GREATEST: usize = 4294967295;

// What the entries of a list may be: numbers, up to the greatest that is read into such a list.
pub trait Entry: Copy {
    ghost number: { Self → ℕ };

    ghost MOST: { ℕ };

    const MOST: usize;

    fn from_number(n: usize) -> Self
        requires { n ≤ MOST }
        ensures { number result ≡ n };

    fn number(self) -> usize
        ensures { result ≡ number self };
}

impl Entry for u8 {
    ghost number = { λ x. x };

    ghost MOST = { 255 };

    const MOST: usize = u8::MAX as usize;

    fn from_number(n: usize) -> u8 {
        n as u8
    }

    fn number(self) -> usize {
        usize::from(self)
    }
}

impl Entry for u16 {
    ghost number = { λ x. x };

    ghost MOST = { 65535 };

    const MOST: usize = u16::MAX as usize;

    fn from_number(n: usize) -> u16 {
        n as u16
    }

    fn number(self) -> usize {
        usize::from(self)
    }
}

impl Entry for u32 {
    ghost number = { λ x. x };

    ghost MOST = { 4294967295 };

    const MOST: usize = u32::MAX as usize;

    fn from_number(n: usize) -> u32 {
        n as u32
    }

    fn number(self) -> usize {
        self as usize
    }
}

impl Entry for u64 {
    ghost number = { λ x. x };

    ghost MOST = { 4294967295 };

    const MOST: usize = GREATEST;

    fn from_number(n: usize) -> u64 {
        n as u64
    }

    fn number(self) -> usize {
        self as usize
    }
}

impl Entry for usize {
    ghost number = { λ x. x };

    ghost MOST = { 4294967295 };

    const MOST: usize = GREATEST;

    fn from_number(n: usize) -> usize {
        n
    }

    fn number(self) -> usize {
        self
    }
}

// An input, read up to a place, and whether a reading failed: then no more is read.
#[derive(Clone, Copy)]
pub struct Reader<'a> {
    pub input: &'a [u8],
    pub at: usize,
    pub failed: bool,
}

// A space or LF.
fn is_blank(b: u8) -> bool
    ensures { result ≡ is_blank b }
{
    b == b' ' || b == b'\n'
}

// How many blanks stand ahead of anything else, if anything else is left.
fn blanks(rest: &[u8]) -> Option<usize>
    ensures { result ≡ position (λ b. not (is_blank b)) rest.now }
{
    rest.iter().position(|b| !is_blank(*b))
}

// The number whose first digit stands at a place. It ends at a blank or with the input.
#[tactic(auto, using(crate::proofs::Laws::digits_over, crate::proofs::Laws::digits_end, crate::proofs::Laws::digits_blank, crate::proofs::Laws::digits_bad))]
fn digits(input: &[u8], at: usize) -> Option<Run>
    ensures { result ≡ digits_from at 0 (drop at input.now) }
{
    let run = digits::read(input, at, GREATEST);
    if GREATEST < run.value {
        return None;
    }
    match input.get(run.after) {
        Some(b) if !is_blank(*b) => None,
        _ => Some(run),
    }
}

impl<'a> Reader<'a> {
    // At the front of an input.
    pub fn new(input: &'a [u8]) -> Self
        ensures input { result.input.now ≡ input.now }
        ensures front { result.at ≡ 0 }
        ensures sound { result.failed ≡ false }
    {
        Reader {
            input,
            at: 0,
            failed: false,
        }
    }

    // What is not read yet.
    fn rest(&self) -> &'a [u8]
        ensures { result.now ≡ drop self.now.at self.now.input.now }
    {
        self.input.get(self.at..).unwrap_or_default()
    }

    // The number that stands next, and the place after it.
    #[tactic(auto, using(crate::proofs::Laws::nothing_next, crate::proofs::Laws::something_next))]
    fn item(&self) -> Option<Run>
        ensures { result ≡ number_at self.now.input.now self.now.at }
    {
        let blanks = blanks(self.rest())?;
        digits(self.input, self.at + blanks)
    }

    // The number that stands next, at most `most`, and the place after it; none after a fault.
    #[tactic(auto, using(crate::proofs::Laws::inside), unfolding(crate::specs::Reading::number_in))]
    fn next(&self, most: usize) -> Option<Run>
        ensures value { result ≡ next_number self.now.failed most self.now.input.now self.now.at }
        ensures sound { IfSome result (λ r. self.now.failed ≡ false) }
        ensures within_most { IfSome result (λ r. r.value ≤ most) }
        ensures within { self.now.at ≤ length self.now.input.now → IfSome result (λ r. r.after ≤ length self.now.input.now) }
    {
        if self.failed {
            return None;
        }
        let run = self.item()?;
        if most < run.value {
            return None;
        }
        Some(run)
    }

    // The next number, which is to be at most `most`.
    pub fn number(&mut self, most: usize) -> Option<usize>
        ensures value { result ≡ value_of (next_number self.old.failed most self.old.input.now self.old.at) }
        ensures place { self.new.at ≡ place_after self.old.at (next_number self.old.failed most self.old.input.now self.old.at) }
        ensures failed { self.new.failed ≡ is_none result }
        ensures input { self.new.input ≡ self.old.input }
        ensures within_most { IfSome result (λ n. n ≤ most) }
        ensures within { self.old.at ≤ length self.old.input.now → self.new.at ≤ length self.old.input.now }
    {
        match self.next(most) {
            Some(run) => {
                self.at = run.after;
                Some(run.value)
            }
            None => {
                self.failed = true;
                None
            }
        }
    }

    // The next number, whatever it is: it may be the length of a list.
    pub fn length(&mut self) -> Option<usize>
        ensures value { result ≡ value_of (next_number self.old.failed greatest self.old.input.now self.old.at) }
        ensures place { self.new.at ≡ place_after self.old.at (next_number self.old.failed greatest self.old.input.now self.old.at) }
        ensures failed { self.new.failed ≡ is_none result }
        ensures input { self.new.input ≡ self.old.input }
        ensures within { self.old.at ≤ length self.old.input.now → self.new.at ≤ length self.old.input.now }
    {
        self.number(GREATEST)
    }

    // Whether nothing but blanks is left.
    fn spent(&self) -> bool
        ensures { result ≡ ended_at self.now.input.now self.now.at }
    {
        self.rest().iter().all(|b| is_blank(*b))
    }

    // Whether all was well and nothing but blanks is left.
    pub fn ended(&self) -> bool
        ensures { result ≡ (not self.now.failed && ended_at self.now.input.now self.now.at) }
    {
        !self.failed && self.spent()
    }

    // n entries, from the front of a list on; how many.
    pub fn several<T: Entry>(&mut self, n: usize, list: &mut [T]) -> Option<usize>
        ensures read { Read (next_several self.old.failed T.MOST self.old.input.now self.old.at n (map T.number list.old)) result self.new.at (map T.number list.new) }
        ensures failed { self.new.failed ≡ is_none result }
        ensures input { self.new.input ≡ self.old.input }
        ensures fits { IfSome result (λ n. n ≤ length list.new) }
        ensures within { self.old.at ≤ length self.old.input.now → self.new.at ≤ length self.old.input.now }
    {
        if self.failed || list.len() < n {
            self.failed = true;
            return None;
        }
        for entry in &mut list[..n] {
            *entry = T::from_number(self.number(T::MOST)?);
        }
        Some(n)
    }

    // A list: its length, and its entries.
    pub fn list<T: Entry>(&mut self, list: &mut [T]) -> Option<usize>
        ensures read { Read (next_list self.old.failed T.MOST self.old.input.now self.old.at (map T.number list.old)) result self.new.at (map T.number list.new) }
        ensures failed { self.new.failed ≡ is_none result }
        ensures input { self.new.input ≡ self.old.input }
        ensures fits { IfSome result (λ n. n ≤ length list.new) }
        ensures within { self.old.at ≤ length self.old.input.now → self.new.at ≤ length self.old.input.now }
    {
        let n = self.length()?;
        self.several(n, list)
    }
}
