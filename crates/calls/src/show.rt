// What calls print of their answers.
#![tactic(auto, using(notation::proofs::Prints::same_length))]

ghost use Rattle.std.specs.Prelude.{◌+◌, ◌*◌, length};
ghost use Rattle.notation.specs.Prints.{HasRoom};
ghost use Rattle.calls.specs.Printing.{PrintsFew};

use learner::{Place, Refusal};
use notation::print::Printer;
use numbers::Entry;
use numbers::print::fields;

// So many numbers.
pub fn row<T: Entry, const N: usize>(out: &mut Printer, numbers: &[T; N])
    requires { HasRoom out.old (21 * N) }
    ensures { PrintsFew (21 * N) out.old out.new }
{
    fields(out, numbers);
}

// A refusal: its number, the kind of its place and the place.
fn refusal(out: &mut Printer, r: Refusal)
    requires { HasRoom out.old 63 }
    ensures { PrintsFew 63 out.old out.new }
{
    let (kind, place) = match r.place {
        Place::Nowhere => (0, 0),
        Place::Cell(x) => (1, x),
        Place::Line(x) => (2, x),
        Place::Record(x) => (3, x),
    };
    row(out, &[r.number, kind, place]);
}

// The refusal, or three zeros where there is none; and the numbers that a call came to, or as many zeros.
pub fn answer<T: Entry, const N: usize>(out: &mut Printer, answer: Result<[T; N], Refusal>)
    requires { HasRoom out.old (63 + 21 * N) }
    ensures { PrintsFew (63 + 21 * N) out.old out.new }
{
    match answer {
        Ok(numbers) => {
            row(out, &[0usize; 3]);
            row(out, &numbers);
        }
        Err(r) => {
            refusal(out, r);
            row(out, &[T::from_number(0); N]);
        }
    }
}

// The refusal of a call that comes to no number.
pub fn verdict(out: &mut Printer, verdict: Result<(), Refusal>)
    requires { HasRoom out.old 63 }
    ensures { PrintsFew 63 out.old out.new }
{
    answer(out, verdict.map(|_| [0usize; 0]));
}

// A list: its length and its entries.
pub fn list<T: Entry>(out: &mut Printer, list: &[T])
    requires { HasRoom out.old (21 * length list.now + 21) }
    ensures { PrintsFew (21 * length list.now + 21) out.old out.new }
{
    row(out, &[list.len()]);
    fields(out, list);
}

// What a writer answers: the refusal and the length, then its buffer.
pub fn written(out: &mut Printer, written: Result<usize, Refusal>, buffer: &[u8])
    requires { HasRoom out.old (21 * length buffer.now + 105) }
    ensures { PrintsFew (21 * length buffer.now + 105) out.old out.new }
{
    answer(out, written.map(|length| [length]));
    list(out, buffer);
}

// Reports: how many, and four counts of each.
pub fn reports(out: &mut Printer, counts: &[u64])
    requires { HasRoom out.old (21 * length counts.now + 21) }
    ensures { PrintsFew (21 * length counts.now + 21) out.old out.new }
{
    row(out, &[counts.len() / 4]);
    fields(out, counts);
}
