// How numbers are written, whatever they count: `digits` reads them and `print` writes them in decimal, `bytes` does both big-endian, and `lists` makes lists
// to hold them.

#![tactic(auto)]

pub mod bytes;
pub mod digits;
pub mod lists;
pub mod print;
