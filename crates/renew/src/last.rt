// The last part of a stream, kept in a lent list: what goes in is put behind what is held, and where there is no room the oldest bytes go.
ghost use Rattle.std.specs.Prelude.{◌≡◌, List, ◌++◌, ℕ, ◌+◌, ◌≤◌, length};
ghost use Rattle.model.specs.Renewal.{longest};
ghost use Rattle.renew.specs.Kept.{Kept};

use notation::print::Printer;

// The longest that a file can be from its first record on: 24 bytes, and 6 for each of 65,535 records.
const LONGEST: usize = 393234;

// Takes in more of a stream; how many of the list's places hold its last bytes, which are all of it or as many as the longest file has.
pub fn keep(kept: &mut [u8], held: usize, more: &[u8]) -> usize
    requires { (held ≤ length kept.old) × (longest + length more.now ≤ length kept.old) }
    ensures last { (all : List ℕ) → Kept all kept.old held → Kept (all ++ more.now) kept.new result }
    ensures in_list { (result ≤ length kept.new) × (length kept.new ≡ length kept.old) }
{
    let stay = if kept.len() - held < more.len() {
        stream::to_front(kept, held - LONGEST, LONGEST);
        LONGEST
    } else {
        held
    };
    let mut last = Printer {
        out: kept,
        at: stay,
    };
    last.bytes(more);
    last.at
}
