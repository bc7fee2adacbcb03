// Reads a table file of either edition from standard input, with whatever stands ahead of its last table, and writes that table alone, in edition 2, to standard output.
//
// The input may be of any length: only its last part is kept. A file that is no table is refused by one line on standard error, and nothing is written.

#![tactic(auto)]

mod last;

ghost use Rattle.std.specs.Prelude.{◌+◌, ◌≤◌, length, IfSome};
ghost use Rattle.model.specs.Renewal.{longest};
ghost use Rattle.io.specs.Counts.{IsPrefixLen};
ghost use Rattle.renew.specs.Kept.{Taken};
ghost use Rattle.renew.specs.Answers.{Answered};

use learner::Refusal;
use notation::lists;
use std::io::{Read, Stdin};

// Reads standard input to its end; how many of its last bytes are held, and `None` where it could not be read. A loop has to end and nothing says that an input does, so
// the turns are counted: more than any input uses up.
fn take_in(input: &mut Stdin, kept: &mut [u8], part: &mut [u8]) -> Option<usize>
    requires { longest + length part.old ≤ length kept.old }
    ensures taken { IfSome result (Taken kept.new) }
    ensures in_list { IfSome result (λ held. IsPrefixLen held kept.new) }
{
    let mut held = 0;
    for _ in 0..u64::MAX {
        let got = input.read(part).ok()?;
        if got == 0 {
            return Some(held);
        }
        held = last::keep(kept, held, &part[..got]);
    }
    None
}

// What all that went in gives, from the last part of it.
fn answer(last: &[u8], out: &mut [u8]) -> Result<usize, Refusal>
    ensures { Answered last.now out.old result out.new }
{
    learner::renew_file(last, out)
}

// The renewed file, or the refusal's line.
fn tell(last: &[u8], out: &mut [u8]) {
    match answer(last, out) {
        Ok(n) => {
            if !stream::write(&out[..n]) {
                stream::say(b"renew: standard output could not be written\n");
            }
        }
        Err(r) => stream::refuse(r),
    }
}

fn main(rt: HostRuntime) {
    let mut stdin = rt.stdin();
    // What is held of the input: more than twice the longest file, so that the oldest bytes go seldom.
    let mut kept = lists::filled::<u8, 1048576>(0);
    let mut part = io::large_buffer();
    // The renewed file, the longest that there is.
    let mut out = lists::filled::<u8, 393234>(0);
    match take_in(&mut stdin, &mut kept, &mut part) {
        Some(held) => tell(&kept[..held], &mut out),
        None => stream::say(b"renew: standard input could not be read\n"),
    }
}
