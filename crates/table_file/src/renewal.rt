// A table file renewed: the last table alone, in edition 2, from a file of either edition with whatever stands ahead of it.
ghost use Rattle.std.specs.Prelude.{◌≡◌, true, ◌≤◌, length};
ghost use Rattle.model.specs.TableFile.{first_long, second_long, trailer_holds};
ghost use Rattle.model.specs.Renewal.{renewed_trailer, renew_verdict, renew_file};
ghost use Rattle.model.specs.Writing.{Writes};
ghost use Rattle.notation.specs.Prints.{Prints, HasRoom};
ghost use Rattle.table_file.specs.Trailer.{named_in};

use super::site::Named;
use super::trailer::{
    FIRST_LONG, SECOND_LONG, check_trailer, count_in, edition_in, find_records, scale_in,
    trailer_of,
};
use super::writer::put_trailer;
use answers::Refusal;
use notation::bytes::half_at;
use notation::print::Printer;

// What edition 1's trailer names.
fn named_in(file: &[u8]) -> Named
    requires { first_long ≤ length file.now }
    ensures { result ≡ named_in file.now }
{
    let t = trailer_of(file, FIRST_LONG);
    Named {
        width: t[0],
        height: t[1],
        goals: floor::one_goal(half_at(t, 2)),
        q: scale_in(file),
    }
}

// The trailer of edition 2: made from edition 1's, or copied.
fn put_renewed(out: &mut Printer, file: &[u8])
    requires sound { trailer_holds file.now ≡ true }
    requires room { HasRoom out.old second_long }
    ensures { Prints out.old (renewed_trailer file.now) out.new }
{
    if edition_in(file) == 1 {
        put_trailer(out, named_in(file), count_in(file));
    } else {
        out.bytes(trailer_of(file, SECOND_LONG));
    }
}

// 13 and 17.
fn judge_renew(file: &[u8], room: usize) -> Result<(), Refusal>
    ensures { result ≡ renew_verdict file.now room }
{
    check_trailer(file)?;
    if room < SECOND_LONG + 6 * count_in(file) {
        return Err(Refusal::numbered(17));
    }
    Ok(())
}

// The last table's records from the first byte on, then edition 2's trailer; the length. A refusal leaves the buffer as lent.
pub fn renew_file(file: &[u8], buffer: &mut [u8]) -> Result<usize, Refusal>
    ensures { Writes (renew_file file.now buffer.old) result buffer.new }
{
    judge_renew(file, buffer.len())?;
    let mut out = Printer { out: buffer, at: 0 };
    out.bytes(find_records(file));
    put_renewed(&mut out, file);
    Ok(out.at)
}
