// The rows of the two tables.

// What the successor column of a block with no successor holds.
pub const NO_SUCCESSOR: u16 = 65535;

// A row of a block table, without its number.
#[derive(Clone, Copy, PartialEq, Eq, Default)]
pub struct BlockRow {
    pub cost: u32,
    pub inner: u16,
    pub first: u16,
    pub second: u16,
    pub figure: i64,
}

// A row of a loop table, without its number.
#[derive(Clone, Copy, PartialEq, Eq, Default)]
pub struct LoopRow {
    pub parent: u16,
    pub header: u16,
    pub limit: u32,
    pub multiplier: u64,
}
