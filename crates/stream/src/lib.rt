// What programs share that stand between standard input and standard output: bytes moved to the front of the list that holds them, and what is said on either output.

#![tactic(auto)]

ghost use Rattle.std.specs.Prelude.{◌≡◌, ◌++◌, ◌+◌, ◌≤◌, length, take, drop};

use answers::Refusal;
use line::print;

// The two outputs, as the operating system numbers them.
const STDOUT: i32 = 1;

const STDERR: i32 = 2;

// Moves n bytes, from a place on, to the front.
pub fn to_front(list: &mut [u8], from: usize, n: usize)
    requires { from + n ≤ length list.old }
    ensures { list.new ≡ take n (drop from list.old) ++ drop n list.old }
{
    list.copy_within(from..from + n, 0);
}

// Bytes on standard output; whether they could be written.
pub fn write(bytes: &[u8]) -> bool {
    io::write_all(STDOUT, bytes)
}

// A line on standard error.
pub fn say(words: &[u8]) {
    io::write_all(STDERR, words);
}

// The one line of a refusal, on standard error.
pub fn refuse(r: Refusal) {
    let mut line = [0; 64];
    let mut out = print::Printer {
        out: &mut line,
        at: 0,
    };
    print::refusal_line(&mut out, r);
    let end = out.at;
    say(&line[..end]);
}
