// Call 2: one decision.
ghost use Rattle.notation.specs.Prints.{HasRoom};
ghost use Rattle.calls.specs.Printing.{Answers};
ghost use Rattle.calls.specs.Reading.{Stays};

use crate::rooms::{CELLS, LONGEST, MOVES};
use crate::{jobs, show};
use learner::{Answer, State};
use notation::lists::filled;
use notation::print::Printer;
use numbers::Reader;

// Call 2: width height current u length, goals, depth p q quota from, floor, table, path, moves.
// Prints kind, refusal, target, rise, number of moves, current, u, length, then table, path and moves.
pub fn decide(reader: &mut Reader, out: &mut Printer) -> Option<()>
    requires { HasRoom out.old LONGEST }
    ensures answers { Answers result out.old out.new }
    ensures within { Stays reader.old reader.new }
{
    let mut floor = filled::<u8, CELLS>(0);
    let mut table = filled::<u32, CELLS>(0);
    let mut path = filled::<u16, CELLS>(0);
    let mut moves = filled::<u8, MOVES>(0);
    let sizes = jobs::sizes_told(reader)?;
    let current = reader.length()?;
    let learned = reader.length()?;
    let length = reader.length()?;
    let job = jobs::job_told(reader, sizes)?;
    let from = reader.length()?;
    let cells = reader.list(&mut floor)?;
    let figures = reader.list(&mut table)?;
    let places = reader.list(&mut path)?;
    let bytes = reader.list(&mut moves)?;
    if !reader.ended() {
        return None;
    }
    let state = State {
        current,
        learned,
        length,
    };
    let table = &mut table[..figures];
    let path = &mut path[..places];
    let moves = &mut moves[..bytes];
    let decided = learner::decide(job, &floor[..cells], state, table, path, moves, from);
    let (kind, step) = match decided.answer {
        Answer::Arrived => (0usize, Ok([0, 0, 0])),
        Answer::Forward {
            target,
            rise,
            moves,
        } => (1, Ok([target, rise, moves])),
        Answer::BackedOut {
            target,
            rise,
            moves,
        } => (2, Ok([target, rise, moves])),
        Answer::Stayed { rise } => (3, Ok([0, rise, 0])),
        Answer::Refused(refusal) => (4, Err(refusal)),
    };
    let after = decided.state;
    show::row(out, &[kind]);
    show::answer(out, step);
    show::row(out, &[after.current, after.learned, after.length]);
    show::list(out, table);
    show::list(out, path);
    show::list(out, moves);
    Some(())
}
