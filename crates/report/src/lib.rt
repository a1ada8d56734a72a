// What the checking program says of its input: the bound or a refusal, and the line that it prints for it.
#![tactic(auto)]

ghost use Rattle.std.specs.Prelude.{◌≡◌, ◌+◌, ◌≤◌, [], ◌++◌, List, ℕ, length, take};
ghost use Rattle.digits.specs.Decimal.{numeral_of, integer_of};
ghost use Rattle.report.specs.Line.{stage_word, refusal_text, line_of, line_room};

use std::marker::Model;

#[derive(Clone, Copy)]
pub enum Stage {
    Setting,
    Blocks,
    Loops,
    Table,
}

impl Stage {
    fn word(self) -> &'static [u8]
        ensures { result.now ≡ stage_word self }
    {
        match self {
            Stage::Setting => b"setting",
            Stage::Blocks => b"blocks",
            Stage::Loops => b"loops",
            Stage::Table => b"table",
        }
    }
}

// Why there is no bound: the stage that refused, the number of the reason, and the place.
#[derive(Clone, Copy)]
pub struct Refusal {
    pub stage: Stage,
    pub number: u32,
    pub place: u64,
}

// Bytes of the longest line, and some to spare.
const LINE_ROOM: usize = 64;

// A line, or the start of one, in fixed memory: the first `len` bytes. Contracts see the text.
#[derive(Drop)]
pub struct Line {
    bytes: [u8; LINE_ROOM],
    len: usize,
}

impl Model for Line {
    ghost Value = { List ℕ };

    ghost view = { λ l. take l.len l.bytes };

    ghost invariant = { λ l. l.len ≤ line_room };
}

impl Line {
    fn new() -> Line
        ensures { result ≡ [] }
    {
        Line {
            bytes: [0; LINE_ROOM],
            len: 0,
        }
    }

    pub fn text(&self) -> &[u8]
        ensures { result.now ≡ self.now }
    {
        &self.bytes[..self.len]
    }

    fn push(&mut self, w: &[u8])
        requires { length self.old + length w.now ≤ line_room }
        ensures { self.new ≡ self.old ++ w.now }
    {
        let end = self.len + w.len();
        self.bytes[self.len..end].copy_from_slice(w);
        self.len = end;
    }

    // In decimal digits.
    fn push_numeral(&mut self, n: u64)
        requires { length self.old + length (numeral_of n) ≤ line_room }
        ensures { self.new ≡ self.old ++ numeral_of n }
    {
        if n >= 10 {
            self.push_numeral(n / 10);
        }
        self.push(&[b'0' + (n % 10) as u8]);
    }

    fn push_integer(&mut self, z: i64)
        requires { length self.old + length (integer_of z) ≤ line_room }
        ensures { self.new ≡ self.old ++ integer_of z }
    {
        if z < 0 {
            self.push(b"-");
        }
        self.push_numeral(z.unsigned_abs());
    }

    fn push_refusal(&mut self, refusal: Refusal)
        requires { length self.old + length (refusal_text refusal) ≤ line_room }
        ensures { self.new ≡ self.old ++ refusal_text refusal }
    {
        self.push(refusal.stage.word());
        self.push(b" ");
        self.push_numeral(u64::from(refusal.number));
        self.push(b" ");
        self.push_numeral(refusal.place);
    }
}

// The line that the program prints.
pub fn line_of(outcome: Result<i64, Refusal>) -> Line
    ensures { result ≡ line_of outcome }
{
    let mut line = Line::new();
    match outcome {
        Ok(bound) => {
            line.push(b"accepted ");
            line.push_integer(bound);
        }
        Err(refusal) => {
            line.push(b"refused ");
            line.push_refusal(refusal);
        }
    }
    line.push(b"\n");
    line
}
