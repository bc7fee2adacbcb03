// The program's room for the lists that a call is lent, and for the line that it prints.

// Floor, table and path.
pub const CELLS: usize = 4160;

pub const MOVES: usize = 1024;

// Reports, of four counts each.
pub const COUNTS: usize = 4004;

// Files, texts and the buffers for them.
pub const BYTES: usize = 32768;

// The longest line has 32,774 numbers, of a space and at most 20 digits each, ahead of its LF.
pub const LONGEST: usize = 688254;
