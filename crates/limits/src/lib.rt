// The sizes that document 01 limits, one constant each. The definitions have a name for each in specs/Limits.antt.
#![tactic(auto)]

// Blocks of a routine, and rows of its block table.
pub const MOST_BLOCKS: usize = 1024;

// Loops of a routine, and rows of its loop table.
pub const MOST_LOOPS: usize = 64;

// Loops around a header, loop 0 and its own counted.
pub const MOST_DEPTH: u32 = 16;

// Bytes of a field as written.
pub const MOST_FIELD_BYTES: usize = 64;

// Bytes of a text.
pub const MOST_TEXT_BYTES: usize = 65536;

// Blocks of a walk.
pub const LONGEST_WALK: usize = 1048576;
