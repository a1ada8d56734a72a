// Decimal digits as plain bytes: those that stand at a place of a text, gathered in 32 bits, or in 64 for multipliers and figures. The digits that write a
// number are defined in specs/ and have their laws in proofs/.
#![tactic(auto)]

ghost use Rattle.std.specs.Prelude.{◌≡◌, ℕ, ◌+◌, ◌-◌, ◌*◌, ◌^◌, ◌≤◌, drop, refl};
ghost use Rattle.digits.specs.Run.{digit_count, held, run_at};

// Why a text is no number: nothing is written, or something else.
#[derive(Clone, Copy, PartialEq, Eq)]
pub enum NotNumber {
    Missing,
    Bad,
}

// The digits at a place of a text: the number that they write, if its type holds it, and where they end.
#[derive(Clone, Copy)]
pub struct DigitRun<T> {
    pub value: Option<T>,
    pub end: usize,
}

// A type of unsigned numbers, in which digits are gathered. In clauses `of` makes a number one of the type, and `number` leads back.
pub trait Unsigned: Copy {
    // the greatest number that it holds
    ghost greatest: { ℕ };

    ghost of: { ℕ → Self };

    ghost number: { Self → ℕ };

    fn zero() -> Self
        ensures { result ≡ of 0 };

    // The number that the digit d writes after the digits of `self`, if the type holds it.
    fn with_digit(self, d: u8) -> Option<Self>
        requires { d ≤ 9 }
        ensures { result ≡ held of greatest (number self * 10 + d) };

    fn to_u64(self) -> u64
        ensures value { result ≡ number self }
        ensures within { number self ≤ greatest };

    ghost number_of: { (n : ℕ) → number (of n) ≡ n };

    ghost of_number: { (x : Self) → of (number x) ≡ x };
}

// A tenth of the greatest number of each width, whose last digit is 5.
const TENTH_OF_U32: u32 = 429496729;

const TENTH_OF_U64: u64 = 1844674407370955161;

// Overflow is tested before the digit is added. The usual case, at most 8 digits before it, is decided by one test. The two impls differ in their type and
// its constant alone: code that is generic in a type can neither multiply nor add its values.
impl Unsigned for u32 {
    ghost greatest = { 2 ^ 32 - 1 };

    ghost of = { λ n. n };

    ghost number = { λ n. n };

    fn zero() -> u32 {
        0
    }

    fn with_digit(self, d: u8) -> Option<u32> {
        if self >= TENTH_OF_U32 && (self > TENTH_OF_U32 || d > 5) {
            return None;
        }
        Some(self * 10 + u32::from(d))
    }

    fn to_u64(self) -> u64 {
        u64::from(self)
    }

    ghost number_of = { λ n. refl };

    ghost of_number = { λ n. refl };
}

// The same with at most 18 digits in the usual case.
impl Unsigned for u64 {
    ghost greatest = { 2 ^ 64 - 1 };

    ghost of = { λ n. n };

    ghost number = { λ n. n };

    fn zero() -> u64 {
        0
    }

    fn with_digit(self, d: u8) -> Option<u64> {
        if self >= TENTH_OF_U64 && (self > TENTH_OF_U64 || d > 5) {
            return None;
        }
        Some(self * 10 + u64::from(d))
    }

    fn to_u64(self) -> u64 {
        self
    }

    ghost number_of = { λ n. refl };

    ghost of_number = { λ n. refl };
}

// Where the digits that start at `at` end.
fn digits_end(text: &[u8], at: usize) -> usize
    ensures { result ≡ at + digit_count (drop at text.now) }
{
    for i in at..text.len() {
        if !text[i].is_ascii_digit() {
            return i;
        }
    }
    at.max(text.len())
}

// The digits that stand at `at`, gathered in a type.
pub fn digit_run<T: Unsigned>(text: &[u8], at: usize) -> DigitRun<T>
    ensures { result ≡ run_at T.of T.greatest at (drop at text.now) }
{
    let mut n = T::zero();
    for i in at..text.len() {
        let b = text[i];
        if !b.is_ascii_digit() {
            return DigitRun {
                value: Some(n),
                end: i,
            };
        }
        let Some(next) = n.with_digit(b - b'0') else {
            let end = digits_end(text, i);
            return DigitRun { value: None, end };
        };
        n = next;
    }
    DigitRun {
        value: Some(n),
        end: at.max(text.len()),
    }
}
