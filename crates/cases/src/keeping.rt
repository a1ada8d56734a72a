// What is lent for a call: what stands there before, and whether it holds afterwards what it should.
use std::alloc::{AllocError, Global};

// A number that columns and buffers hold, and what stands in each place of one that is lent.
pub trait Place: Copy + PartialEq + Drop {
    const BEFORE: Self;
}

impl Place for u8 {
    const BEFORE: u8 = 0xaa;
}

impl Place for u16 {
    const BEFORE: u16 = 0xaaaa;
}

impl Place for u32 {
    const BEFORE: u32 = 0xaaaa_aaaa;
}

impl Place for u64 {
    const BEFORE: u64 = 0xaaaa_aaaa_aaaa_aaaa;
}

impl Place for i64 {
    const BEFORE: i64 = -0x5555_5555_5555_5556;
}

// So many places to be lent.
pub fn lent<T: Place>(alloc: Global, places: usize) -> Result<Vec<T>, AllocError> {
    vec![in alloc; T::BEFORE; places]
}

// Whether all is as it was lent.
pub fn is_untouched<T: Place>(column: &[T]) -> bool {
    column.iter().all(|place| *place == T::BEFORE)
}

// Whether a column holds a cell of each row, and behind the rows what it held when it was lent.
pub fn holds<T: Place, R, F: Fn(&R) -> T>(column: &[T], rows: &[R], cell: F) -> bool
    requires { (f : F) (row : _) → F.pre f row }
{
    let (read, rest) = column.split_at(rows.len().min(column.len()));
    read.iter()
        .zip(rows)
        .all(|(place, row)| *place == cell(row))
        && is_untouched(rest)
}
