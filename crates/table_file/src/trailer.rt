// The trailer, the last 16 bytes of a file in edition 1 and the last 24 in edition 2: its check, what it counts and points to, and the records found by it.
ghost use Rattle.std.specs.Prelude.{◌≡◌, ◌+◌, ◌≤◌, ◌<◌, length};
ghost use Rattle.model.specs.Floor.{goals_of};
ghost use Rattle.model.specs.TableFile.{trailer, ending, scale_in, edition_in, count_in, back_in, is_letters, holds_as, second_long, second_holds, trailer_holds, check_trailer, find_records, goal_place};
ghost use Rattle.opening.specs.Promise.{Answers};
ghost use Rattle.table_file.specs.Promises.{start_of};

use answers::{Goals, Refusal};
use notation::bytes::{half_at, word_at};

// How long a trailer is, by its edition; and how long the end of it that is the same in both.
pub const FIRST_LONG: usize = 16;

pub const SECOND_LONG: usize = 24;

const ENDING: usize = 12;

// What a trailer ends with.
pub const LETTERS: &[u8] = b"PDLT";

// What stands in a file at a goal place that is not used.
const UNUSED: usize = 65535;

// The last bytes, so many.
pub fn trailer_of(file: &[u8], long: usize) -> &[u8]
    requires { long ≤ length file.now }
    ensures { (result.now ≡ trailer long file.now) × (length result.now ≡ long) }
{
    &file[file.len() - long..]
}

// The last 12 bytes.
fn ending_of(file: &[u8]) -> &[u8]
    requires { 12 ≤ length file.now }
    ensures { (result.now ≡ ending file.now) × (length result.now ≡ 12) }
{
    trailer_of(file, ENDING)
}

// (Byte by byte: a comparison of slices is a call, twice in each check.)
fn is_letters(ending: &[u8]) -> bool
    requires { length ending.now ≡ 12 }
    ensures { result ≡ is_letters ending.now }
{
    ending[8] == b'P' && ending[9] == b'D' && ending[10] == b'L' && ending[11] == b'T'
}

// The trailer's q, its edition, how many records it counts, and how far back it points.
pub fn scale_in(file: &[u8]) -> u8
    requires { 12 ≤ length file.now }
    ensures { result ≡ scale_in file.now }
{
    ending_of(file)[0]
}

pub fn edition_in(file: &[u8]) -> u8
    requires { 12 ≤ length file.now }
    ensures { result ≡ edition_in file.now }
{
    ending_of(file)[1]
}

pub fn count_in(file: &[u8]) -> usize
    requires { 12 ≤ length file.now }
    ensures { (result ≡ count_in file.now) × (result < 65536) }
{
    half_at(ending_of(file), 2)
}

pub fn back_in(file: &[u8]) -> usize
    requires { 12 ≤ length file.now }
    ensures { result ≡ back_in file.now }
{
    word_at(ending_of(file), 4)
}

// Whether a trailer holds as one of this edition, which is so long.
fn holds_as(edition: u8, long: usize, file: &[u8]) -> bool
    requires { (12 ≤ long) × (long ≤ second_long) }
    ensures { result ≡ holds_as edition long file.now }
{
    if file.len() < long || !is_letters(ending_of(file)) || edition_in(file) != edition {
        return false;
    }
    let back = back_in(file);
    back == long + 6 * count_in(file) && back <= file.len()
}

// Edition 2 has a zero byte too.
fn second_holds(file: &[u8]) -> bool
    ensures { result ≡ second_holds file.now }
{
    holds_as(2, SECOND_LONG, file) && trailer_of(file, SECOND_LONG)[3] == 0
}

// Whether a trailer is sound: not faulty by 13.
fn trailer_holds(file: &[u8]) -> bool
    ensures { result ≡ trailer_holds file.now }
{
    holds_as(1, FIRST_LONG, file) || second_holds(file)
}

// 13: the trailer's check.
pub fn check_trailer(file: &[u8]) -> Result<(), Refusal>
    ensures { Answers result (check_trailer file.now) }
{
    if !trailer_holds(file) {
        return Err(Refusal::numbered(13));
    }
    Ok(())
}

// The records, trailer left off: that part of the caller's own bytes, and the empty part where the trailer is faulty.
pub fn find_records(file: &[u8]) -> &[u8]
    ensures part { result.now ≡ find_records file.now }
    ensures own { (result.ref_ptr.0 ≡ file.entry.ref_ptr.0) × (result.ref_ptr.1 ≡ start_of file.now + file.entry.ref_ptr.1) }
{
    if !trailer_holds(file) {
        return &file[..0];
    }
    let start = file.len() - back_in(file);
    let end = start + 6 * count_in(file);
    &file[start..end]
}

// What stands at a goal place of edition 2.
pub fn goal_place(goals: Goals, i: usize) -> usize
    ensures { result ≡ goal_place (goals_of goals) i }
{
    if i < floor::goals_in(goals) {
        floor::goal_at(goals, i)
    } else {
        UNUSED
    }
}
