// A line of the cases: its fields, with a bar between them.

// What a line runs.
#[derive(Clone, Copy, PartialEq, Eq)]
pub enum Kind {
    Blocks,
    Loops,
    Tables,
    Walk,
    Run,
    Visits,
    Circle,
    Dump,
    Solve,
    Mps,
    Program,
    Sized,
    Shortest,
    Fastest,
}

impl Kind {
    // By the letter that tells it from the others. Any other letter stands for a pair of tables.
    fn with_letter(letter: u8) -> Kind {
        match letter {
            b'b' => Kind::Blocks,
            b'l' => Kind::Loops,
            b'w' => Kind::Walk,
            b'r' => Kind::Run,
            b'v' => Kind::Visits,
            b'c' => Kind::Circle,
            b'd' => Kind::Dump,
            b'o' => Kind::Solve,
            b'm' => Kind::Mps,
            b'p' => Kind::Program,
            b'i' => Kind::Sized,
            b'h' => Kind::Shortest,
            b'f' => Kind::Fastest,
            _ => Kind::Tables,
        }
    }
}

// A number with one digit more; None where the byte is no digit, or 64 bits do not hold the number.
pub fn with_digit(number: usize, b: u8) -> Option<usize> {
    if !b.is_ascii_digit() {
        return None;
    }
    number.checked_mul(10)?.checked_add(usize::from(b - b'0'))
}

// The number that digits write, 0 where it is none.
pub fn number_of(digits: &[u8]) -> usize {
    digits
        .iter()
        .try_fold(0usize, |number, &b| with_digit(number, b))
        .unwrap_or_default()
}

#[derive(Clone, Copy)]
pub struct Line<'a> {
    text: &'a [u8],
}

impl<'a> Line<'a> {
    pub fn new(text: &'a [u8]) -> Line<'a> {
        Line { text }
    }

    pub fn starts_with(self, letter: u8) -> bool {
        self.text.first() == Some(&letter)
    }

    // Field k, empty where there is none.
    pub fn field(self, k: usize) -> &'a [u8] {
        self.text.split(|b| *b == b'|').nth(k).unwrap_or_default()
    }

    // Field k and those behind it, empty where there is none.
    pub fn rest(self, k: usize) -> &'a [u8] {
        self.text
            .splitn(k.saturating_add(1), |b| *b == b'|')
            .nth(k)
            .unwrap_or_default()
    }

    // Field k as a number; None where the field is empty.
    pub fn number(self, k: usize) -> Option<usize> {
        match self.field(k) {
            [] => None,
            digits => Some(number_of(digits)),
        }
    }

    // The first letter tells the kind; of `solve`, `sized` and `shortest` the second one does.
    pub fn kind(self) -> Kind {
        match self.text {
            [b's', letter, ..] => Kind::with_letter(*letter),
            [letter, ..] => Kind::with_letter(*letter),
            [] => Kind::Tables,
        }
    }
}
