// What a field says as a number, and the short way to find and read one: the field is taken to be the digits that stand there.
#![tactic(auto)]

ghost use Rattle.std.specs.Prelude.{◌≡◌, ◌-◌, ◌^◌, ◌≤◌, drop};
ghost use Rattle.csv_text.specs.Grammar.{size, limited};
ghost use Rattle.csv_text.specs.Place.{found_at};
ghost use Rattle.cells.specs.Cell.{greatest, unsigned, signed, cell_at, signed_cell_at};

use csv_text::{Ending, Found};
use digits::NotNumber;
use limits::MOST_FIELD_BYTES;

// The widths of numbers that 32 bits hold.
#[derive(Clone, Copy, PartialEq, Eq)]
pub enum Width {
    U16,
    Successor,
    U32,
}

impl Width {
    // The greatest number of the width.
    pub fn greatest(self) -> u32
        ensures { result ≡ greatest self }
    {
        match self {
            Width::U16 => 65535,
            Width::Successor => 65534,
            Width::U32 => u32::MAX,
        }
    }
}

// A field that is taken to be digits: what they say, and what follows them.
#[derive(Clone, Copy)]
pub struct Cell<N> {
    pub value: Result<N, NotNumber>,
    pub found: Found,
}

// What a field says at a width.
#[tactic(auto, using(crate::proofs::Fields::unsigned_law))]
pub fn number_of(w: &[u8], width: Width) -> Result<u32, NotNumber>
    ensures { result ≡ unsigned (greatest width) w.now }
{
    numbers::natural_of_ordered(csv_text::inner_part(w), width.greatest())
}

// What a field says, up to 2^64 - 1.
#[tactic(auto, using(crate::proofs::Fields::unsigned_law))]
pub fn u64_of(w: &[u8]) -> Result<u64, NotNumber>
    ensures { result ≡ unsigned (2 ^ 64 - 1) w.now }
{
    numbers::natural_of_ordered(csv_text::inner_part(w), u64::MAX)
}

// What a field says, from -2^63 to 2^63 - 1.
#[tactic(auto, using(crate::proofs::Fields::signed_law))]
pub fn i64_of(w: &[u8]) -> Result<i64, NotNumber>
    ensures { result ≡ signed w.now }
{
    numbers::integer_of(csv_text::inner_part(w))
}

// What follows a field that is taken to lie between `at` and `end`.
#[tactic(auto, using(crate::proofs::Short::found_long, crate::proofs::Short::found_short))]
fn found_after(text: &[u8], at: usize, end: usize) -> Found
    requires { at ≤ end }
    ensures { result ≡ found_at at (limited (drop at text.now) (size (end - at))) }
{
    if end - at > MOST_FIELD_BYTES {
        return Found::Broken;
    }
    csv_text::follow(text, end)
}

// The field at `at`, taken to be the digits that stand there, at a width that ends at `greatest`: one scan finds and reads it.
#[tactic(auto, using(crate::proofs::Short::run_from, crate::proofs::Short::run_inside, crate::proofs::Short::cell_over, crate::proofs::Short::cell_is))]
pub fn number_cell(text: &[u8], at: usize, greatest: u32) -> Cell<u32>
    ensures { result ≡ cell_at greatest at (drop at text.now) }
{
    if at >= text.len() {
        let found = Found::Ends(Ending::EndOfText, at);
        return Cell {
            value: Err(NotNumber::Missing),
            found,
        };
    }
    let run = digits::digit_run(text, at);
    let value = numbers::natural_by_ordered(&text[at..run.end], run.value, greatest);
    let found = found_after(text, at, run.end);
    Cell { value, found }
}

// The same with a minus sign allowed.
#[tactic(auto, using(crate::proofs::Short::signed_from, crate::proofs::Short::signed_inside, crate::proofs::Short::signed_over, crate::proofs::Short::signed_is))]
pub fn integer_cell(text: &[u8], at: usize) -> Cell<i64>
    ensures { result ≡ signed_cell_at at (drop at text.now) }
{
    if at >= text.len() {
        let found = Found::Ends(Ending::EndOfText, at);
        return Cell {
            value: Err(NotNumber::Missing),
            found,
        };
    }
    let start = numbers::digits_start(text, at);
    let magnitude = digits::digit_run(text, start);
    let value = numbers::integer_by(&text[at..magnitude.end], magnitude.value);
    let found = found_after(text, at, magnitude.end);
    Cell { value, found }
}
