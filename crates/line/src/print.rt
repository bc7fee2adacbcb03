// The lines that programs print, one after another.
ghost use Rattle.std.specs.Prelude.{ℕ, ◌+◌, ◌≤◌, ◌<◌, length, get_or};
ghost use Rattle.model.specs.Line.{place_field, refusal_line, settled_word};
ghost use Rattle.notation.specs.Prints.{Prints, HasRoom};
ghost use Rattle.line.specs.Printing.{last_line, count_fields, move_digits};

use answers::{Place, Refusal, Report};
pub use notation::print::Printer;

// The place of a refusal, if it has one.
fn place(out: &mut Printer, p: Place)
    requires { HasRoom out.old 21 }
    ensures printed { Prints out.old (place_field p) out.new }
    ensures short { out.new.at ≤ out.old.at + 21 }
{
    match p {
        Place::Nowhere => {}
        Place::Cell(x) | Place::Line(x) | Place::Record(x) => out.field(x),
    }
}

// The one line of a refusal.
pub fn refusal_line(out: &mut Printer, r: Refusal)
    requires { HasRoom out.old 50 }
    ensures { Prints out.old (refusal_line r) out.new }
{
    out.bytes(b"refused");
    out.field(r.number);
    place(out, r.place);
    out.byte(b'\n');
}

// The last line of a run.
pub fn last_line(out: &mut Printer, settled: bool, trials: usize)
    requires { HasRoom out.old 31 }
    ensures { Prints out.old (last_line settled trials) out.new }
{
    said(out, settled);
    out.field(trials);
    out.byte(b'\n');
}

fn said(out: &mut Printer, settled: bool)
    requires { HasRoom out.old 9 }
    ensures printed { Prints out.old (settled_word settled) out.new }
    ensures short { out.new.at ≤ out.old.at + 9 }
{
    if settled {
        out.bytes(b"settled");
    } else {
        out.bytes(b"unsettled");
    }
}

// The four counts of a trial's record, and the end of its line.
pub fn counts(out: &mut Printer, r: Report)
    requires { HasRoom out.old 85 }
    ensures { Prints out.old (count_fields r) out.new }
{
    out.field(r.decisions as usize);
    out.field(r.learned as usize);
    out.field(r.kept as usize);
    out.field(r.travel as usize);
    out.byte(b'\n');
}

// Moves, a digit each.
pub fn moves(out: &mut Printer, ms: &[u8])
    requires digits { (i : ℕ) → i < length ms.now → get_or ms.now i 0 < 8 }
    requires room { HasRoom out.old (length ms.now) }
    ensures { Prints out.old (move_digits ms.now) out.new }
{
    for m in ms {
        out.byte(48 + *m);
    }
}
