// The line that the program `aisle` reads: its numbers, and the settings that they ask for. `depth` writes the old depth into a stored line, `print` has the
// lines that programs print.

#![tactic(auto)]

pub mod depth;
pub mod print;

ghost use Rattle.std.specs.Prelude.{◌≡◌, IfNone, IfSome};
ghost use Rattle.model.specs.Line.{settings_of};
ghost use Rattle.line.specs.Reading.{NoNumbers, IsWord, TooMany, Scanned, said, Malformed, Asks};

use answers::Settings;
pub use depth::with_depth;
use notation::digits;

// What a line asks for: its settings, and where the text after it begins.
#[derive(Clone, Copy)]
pub struct Asked {
    pub settings: Settings,
    pub text: usize,
}

// A number of a line with the byte after it: whether that byte is the LF, and where the line goes on.
#[derive(Clone, Copy)]
struct Word {
    pub value: usize,
    pub last: bool,
    pub next: usize,
}

// The number at a place, of 1 to 7 digits, and the space or LF after it.
fn word_at(input: &[u8], from: usize) -> Option<Word>
    ensures none { IfNone result (NoNumbers input.now from) }
    ensures some { IfSome result (IsWord input.now from) }
{
    let run = digits::read(input, from, 9999999);
    let end = run.after;
    if end == from || 7 < end - from {
        return None;
    }
    let last = match *input.get(end)? {
        b'\n' => true,
        b' ' => false,
        _ => return None,
    };
    Some(Word {
        value: run.value,
        last,
        next: end + 1,
    })
}

// A line being read: the numbers so far, and the place after the byte that ended the last. (No heap, and there are seven at the most: an array and a count.)
#[derive(Clone, Copy)]
struct Reading {
    pub numbers: [usize; 7],
    pub count: usize,
    pub end: usize,
}

// The numbers of the line at the front of the input.
fn scan(input: &[u8]) -> Option<Reading>
    ensures none { IfNone result (TooMany input.now) }
    ensures some { IfSome result (Scanned input.now) }
{
    let mut line = Reading {
        numbers: [0; 7],
        count: 0,
        end: 0,
    };
    // Each number says where the next one begins.
    while line.end < input.len() {
        let word = word_at(input, line.end)?;
        if line.count == 7 {
            return None;
        }
        line.numbers[line.count] = word.value;
        line.count += 1;
        line.end = word.next;
        if word.last {
            return Some(line);
        }
    }
    None
}

// The depth of a line that leaves it out.
const DEFAULT_DEPTH: usize = 4;

// The settings of a line's numbers; what the line leaves out has its default.
fn settings(numbers: &[usize]) -> Option<Settings>
    ensures { said result ≡ settings_of numbers.now }
{
    let [start, goal, ref rest @ ..] = *numbers else {
        return None;
    };
    let defaults = Settings {
        start,
        goal,
        depth: DEFAULT_DEPTH,
        p: 1,
        q: 1,
        quota: 1000000,
        trials: 10,
    };
    match *rest {
        [] => Some(defaults),
        [depth] => Some(Settings { depth, ..defaults }),
        [depth, p, q] => Some(Settings {
            depth,
            p,
            q,
            ..defaults
        }),
        [depth, p, q, quota] => Some(Settings {
            depth,
            p,
            q,
            quota,
            ..defaults
        }),
        [depth, p, q, quota, trials] => Some(Settings {
            depth,
            p,
            q,
            quota,
            trials,
            ..defaults
        }),
        _ => None,
    }
}

// What the line at the front of the input asks for, and where the floor text begins.
pub fn read_line(input: &[u8]) -> Option<Asked>
    ensures malformed { IfNone result (Malformed input.now) }
    ensures asked { IfSome result (Asks input.now) }
{
    let line = scan(input)?;
    let settings = settings(&line.numbers[..line.count])?;
    Some(Asked {
        settings,
        text: line.end,
    })
}
