// The entries of a list as fields, each a space and a number.
ghost use Rattle.std.specs.Prelude.{◌+◌, ◌*◌, ◌≤◌, length, map};
ghost use Rattle.notation.specs.Prints.{Prints, HasRoom};
ghost use Rattle.numbers.specs.Printing.{fields_of};

use crate::Entry;
use notation::print::Printer;

// A field is at most a space and 20 digits.
pub fn fields<T: Entry>(out: &mut Printer, list: &[T])
    requires { HasRoom out.old (21 * length list.now) }
    ensures printed { Prints out.old (fields_of (map T.number list.now)) out.new }
    ensures short { out.new.at ≤ out.old.at + 21 * length list.now }
{
    for entry in list {
        out.field(entry.number());
    }
}
