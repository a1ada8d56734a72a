// Decimal numbers as plain bytes: what a whole text says as a number, and what digits say where their number is known.
#![tactic(auto)]

ghost use Rattle.std.specs.Prelude.{◌≡◌, ◌+◌, ◌-◌, ◌^◌, drop, leb};
ghost use Rattle.std.specs.Option.{option_map};
ghost use Rattle.numbers.specs.Number.{natural, plus, minus, integer};
ghost use Rattle.numbers.specs.Steps.{sign_count, leading_zero, at_width, natural_by, integer_by, in_type};

use digits::{NotNumber, Unsigned};

const MINUS: u8 = b'-';

// A type of unsigned numbers that are compared as they are: none of 32 bits is widened.
pub trait Ordered: Unsigned {
    fn is_at_most(self, greatest: Self) -> bool
        ensures { result ≡ leb (Self.number self) (Self.number greatest) };
}

impl Ordered for u32 {
    fn is_at_most(self, greatest: u32) -> bool {
        self <= greatest
    }
}

impl Ordered for u64 {
    fn is_at_most(self, greatest: u64) -> bool {
        self <= greatest
    }
}

// ---- what the digits of a field say

// Where the digits of a number at `at` start: after a minus sign, if one stands there.
#[tactic(auto, using(crate::proofs::Numbers::start_over, crate::proofs::Numbers::start_minus, crate::proofs::Numbers::start_plain))]
pub fn digits_start(text: &[u8], at: usize) -> usize
    ensures { result ≡ at + sign_count (drop at text.now) }
{
    if at < text.len() && text[at] == MINUS {
        at + 1
    } else {
        at
    }
}

// Whether digits have a leading zero other than 0 alone.
#[tactic(auto, using(crate::proofs::Numbers::short_no_zero, crate::proofs::Numbers::long_zero))]
fn has_leading_zero(written: &[u8]) -> bool
    ensures { result ≡ leading_zero written.now }
{
    written.len() > 1 && written[0] == b'0'
}

// What was gathered, at a width that ends at `greatest`.
fn at_width<T: Ordered>(value: Option<T>, greatest: T) -> Result<T, NotNumber>
    ensures { result ≡ at_width T.number (T.number greatest) value }
{
    let Some(n) = value else {
        return Err(NotNumber::Bad);
    };
    if n.is_at_most(greatest) {
        Ok(n)
    } else {
        Err(NotNumber::Bad)
    }
}

// What the digits `written` say at a width that ends at `greatest`, which is of the number's type; `value` is what `digit_run` gathered of them.
#[tactic(auto, using(crate::proofs::Numbers::by_none, crate::proofs::Numbers::by_zero, crate::proofs::Numbers::by_width))]
pub fn natural_by_ordered<T: Ordered>(
    written: &[u8],
    value: Option<T>,
    greatest: T,
) -> Result<T, NotNumber>
    ensures { result ≡ natural_by T.number (T.number greatest) written.now value }
{
    if written.is_empty() {
        return Err(NotNumber::Missing);
    }
    if has_leading_zero(written) {
        return Err(NotNumber::Bad);
    }
    at_width(value, greatest)
}

// What was gathered in any type, in 64 bits.
fn in_64_bits<T: Unsigned>(value: Option<T>) -> Option<u64>
    ensures { result ≡ option_map T.number value }
{
    value.map(|n| n.to_u64())
}

// What `natural_by_ordered` says, in any type: the number is compared in 64 bits. (`by_none` proves an early return for an empty text.)
#[tactic(auto, using(crate::proofs::Numbers::by_none))]
pub fn natural_by<T: Unsigned>(
    written: &[u8],
    value: Option<T>,
    greatest: u64,
) -> Result<T, NotNumber>
    ensures { result ≡ natural_by T.number greatest written.now value }
{
    natural_by_ordered(written, in_64_bits(value), greatest)?;
    value.ok_or(NotNumber::Bad)
}

// What digits say after a minus sign.
fn negative_by(digits: &[u8], value: Option<u64>) -> Result<i64, NotNumber>
    ensures { result ≡ minus (natural_by (λ n. n) (2 ^ 63) digits.now value) }
{
    let Ok(n) = natural_by_ordered(digits, value, 9223372036854775808) else {
        return Err(NotNumber::Bad);
    };
    if n == 0 {
        return Err(NotNumber::Bad);
    }
    let m = (n - 1) as i64;
    Ok(-1 - m)
}

// What digits say with no sign.
fn positive_by(digits: &[u8], value: Option<u64>) -> Result<i64, NotNumber>
    ensures { result ≡ plus (natural_by (λ n. n) (2 ^ 63 - 1) digits.now value) }
{
    let n = natural_by_ordered(digits, value, 9223372036854775807)?;
    Ok(n as i64)
}

// What the digits `written` say, with a minus sign allowed, where `value` is what `digit_run` gathered of the digits.
#[tactic(auto, using(crate::proofs::Numbers::integer_none, crate::proofs::Numbers::integer_minus, crate::proofs::Numbers::integer_plus))]
pub fn integer_by(written: &[u8], value: Option<u64>) -> Result<i64, NotNumber>
    ensures { result ≡ integer_by written.now value }
{
    if written.is_empty() {
        Err(NotNumber::Missing)
    } else if written[0] == MINUS {
        negative_by(&written[1..], value)
    } else {
        positive_by(written, value)
    }
}

// ---- what a whole text says

// What s says as a number of at most `greatest`, which is compared in its type.
pub fn natural_of_ordered<T: Ordered>(s: &[u8], greatest: T) -> Result<T, NotNumber>
    ensures { result ≡ in_type T.of (natural (T.number greatest) s.now) }
{
    let run = digits::digit_run(s, 0);
    // Its contract says that the type holds `greatest`; the result is not used.
    let _within = greatest.to_u64();
    if run.end < s.len() {
        return Err(NotNumber::Bad);
    }
    natural_by_ordered(s, run.value, greatest)
}

// What `natural_of_ordered` says, in any type: the number is compared in 64 bits.
pub fn natural_of<T: Unsigned>(s: &[u8], greatest: T) -> Result<T, NotNumber>
    ensures { result ≡ in_type T.of (natural (T.number greatest) s.now) }
{
    let found = digits::digit_run(s, 0);
    let greatest = greatest.to_u64();
    if found.end < s.len() {
        return Err(NotNumber::Bad);
    }
    natural_by(s, found.value, greatest)
}

// What s says as a number from -2^63 to 2^63 - 1.
#[tactic(auto, using(crate::proofs::Numbers::integer_other, crate::proofs::Numbers::integer_whole))]
pub fn integer_of(s: &[u8]) -> Result<i64, NotNumber>
    ensures { result ≡ integer s.now }
{
    let from = digits_start(s, 0);
    let run = digits::digit_run(s, from);
    if run.end < s.len() {
        return Err(NotNumber::Bad);
    }
    integer_by(s, run.value)
}

#[cfg(test)]
mod tests;
