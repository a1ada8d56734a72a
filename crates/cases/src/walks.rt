// Walks, as the cases write them or give their length.
use crate::lines::with_digit;

// Puts the walk that a case writes, a blank behind each of its blocks, into lent places, as far as these go, and says how many blocks it has. A byte that is
// no digit sets a block's number to 0. A number that 16 bits do not hold is 65535, a block that no table has.
pub fn written(blocks: &[u8], places: &mut [u16]) -> usize {
    let mut count = 0usize;
    let mut block = 0usize;
    for &b in blocks {
        if b != b' ' {
            block = with_digit(block, b).unwrap_or_default();
            continue;
        }
        if count < places.len() {
            places[count] = u16::try_from(block).unwrap_or(u16::MAX);
        }
        count = count.saturating_add(1);
        block = 0;
    }
    count
}

// Fills lent places with the beginning of a walk of a length: block 0, at each index up to the last one the block `between`, and at the end the last one.
fn fill<F: Fn(usize) -> u16>(length: usize, places: &mut [u16], between: F, last: u16)
    requires { (f : F) (i : _) → F.pre f i }
{
    for (i, place) in places.iter_mut().enumerate() {
        *place = if i == 0 {
            0
        } else if length.checked_sub(1) == Some(i) {
            last
        } else {
            between(i)
        };
    }
}

// 0 1 1 .. 1 2
pub fn run(length: usize, places: &mut [u16]) {
    fill(length, places, |_| 1, 2);
}

// 0 1 2 1 2 .. 3
pub fn circle(length: usize, places: &mut [u16]) {
    fill(length, places, |i| if i % 2 == 0 { 2 } else { 1 }, 3);
}
