// Lists of numbers, as the cases write them: with commas between the numbers.
use crate::lines::number_of;
use crate::texts::{Table, make_text};
use pieces::room::Room;
use std::alloc::Global;
use std::num::ParseIntError;
use std::str::FromStr;
use std::{io, str};

// A number that a list has.
pub trait Number: Copy {
    // What an item says, 0 where that is none.
    fn of(item: &[u8]) -> Self;

    fn put(self, text: &mut Room<'_>);
}

impl Number for i64 {
    fn of(item: &[u8]) -> i64 {
        match item {
            [b'-', digits @ ..] => {
                let size = number_of(digits);
                0i64.checked_sub_unsigned(size as u64).unwrap_or_default()
            }
            digits => i64::try_from(number_of(digits)).unwrap_or_default(),
        }
    }

    // A number that does not lie between -2^62 and 2^62 is put as -2^62.
    fn put(self, text: &mut Room<'_>) {
        if matches!(self, -0x4000_0000_0000_0000..=0x3fff_ffff_ffff_ffff) {
            text.put(self);
        } else {
            text.put("-4611686018427387904");
        }
    }
}

impl Number for u64 {
    fn of(item: &[u8]) -> u64 {
        number_of(item) as u64
    }

    fn put(self, text: &mut Room<'_>) {
        text.put(self);
    }
}

impl Number for u32 {
    // The greatest one where 32 bits do not hold it.
    fn of(item: &[u8]) -> u32 {
        u32::try_from(number_of(item)).unwrap_or(u32::MAX)
    }

    fn put(self, text: &mut Room<'_>) {
        text.put(self);
    }
}

// Puts the numbers of a list into a column, as far as that goes, and says how many there are. One that is left out is 0, so that commas alone are a list
// of zeros; an empty list has none.
pub fn fill_numbers<T: Number>(list: &[u8], column: &mut [T]) -> usize {
    if list.is_empty() {
        return 0;
    }
    let mut count = 0usize;
    for item in list.split(|b| *b == b',') {
        if count < column.len() {
            column[count] = T::of(item);
        }
        count = count.saturating_add(1);
    }
    count
}

fn put_list<T: Number>(text: &mut Room<'_>, column: &[T]) {
    for (i, number) in column.iter().enumerate() {
        if i != 0 {
            text.push(b',');
        }
        number.put(text);
    }
}

// Puts two columns into lent places, as a case has them, and says how many bytes that are.
pub fn write<A: Number, B: Number>(first: &[A], second: &[B], places: &mut [u8]) -> usize {
    let mut text = Room::new(places);
    put_list(&mut text, first);
    text.push(b'|');
    put_list(&mut text, second);
    text.count()
}

// A list with its `%` written out: in 64 bytes, or in twice as many until it has room.
fn text_of(alloc: Global, written: &str) -> io::Result<Vec<u8>> {
    for bits in 6..63u32 {
        let mut text = vec![in alloc; 0u8; 1usize << bits]?;
        let count = make_text(written.as_bytes(), Table::Blocks, &mut text);
        if count <= text.len() {
            text.truncate(count);
            return Ok(text);
        }
    }
    Err(io::Error::from(io::ErrorKind::OutOfMemory))
}

// The numbers of a list, in which `%` repeats as in a text. One that is left out, or that is no number of the type, is 0; an empty list has none.
pub fn numbers<T: FromStr<Err = ParseIntError> + Default + Drop>(
    alloc: Global,
    written: &str,
) -> io::Result<Vec<T>> {
    let text = text_of(alloc, written)?;
    let list = str::from_utf8(&text).unwrap_or_default();
    let mut all = Vec::new(alloc);
    if !list.is_empty() {
        for item in list.split(',') {
            all.push(item.parse::<T>().unwrap_or_default())?;
        }
    }
    Ok(all)
}

// Whether a column is the one that a list says. What is no number of the column's type is none of its numbers.
pub fn is_written<T: FromStr<Err = ParseIntError> + PartialEq + Copy + Drop>(
    column: &[T],
    list: &str,
) -> bool {
    column
        .iter()
        .map(|number| Some(*number))
        .eq(list.split(',').map(|item| item.parse::<T>().ok()))
}
