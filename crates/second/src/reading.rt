// A reader of one table, written from documents 01 and 02 apart from the library: one byte at a time, by where the byte before left off.
use pieces::answers::{Accepted, Answer, LineEnd, Refusal};
use pieces::part;
use pieces::rows::{BlockRow, LoopRow, NO_SUCCESSOR};
use std::num::ParseIntError;
use std::str::{self, FromStr};

// A row of one of the two tables.
pub trait Row: Copy + Default {
    // The columns of its table.
    const COLUMNS: usize;

    // The row with what a field says in a column after the first; None where the column cannot hold that.
    fn with(self, column: usize, field: &[u8]) -> Option<Self>;
}

// 0 alone is the only number that starts so. It has no minus sign, and no number has a plus sign.
fn number<T: FromStr<Err = ParseIntError>>(field: &[u8]) -> Option<T> {
    match field {
        [b'+', ..] | [b'0', _, ..] | [b'-', b'0', ..] => None,
        _ => str::from_utf8(field).ok()?.parse::<T>().ok(),
    }
}

// An empty successor is missing; no other field may be empty.
fn successor(field: &[u8]) -> Option<u16> {
    if field.is_empty() {
        return Some(NO_SUCCESSOR);
    }
    number(field).filter(|&v| v != NO_SUCCESSOR)
}

impl Row for BlockRow {
    const COLUMNS: usize = 6;

    fn with(self, column: usize, field: &[u8]) -> Option<Self> {
        Some(match column {
            1 => BlockRow {
                cost: number(field)?,
                ..self
            },
            2 => BlockRow {
                inner: number(field)?,
                ..self
            },
            3 => BlockRow {
                first: successor(field)?,
                ..self
            },
            4 => BlockRow {
                second: successor(field)?,
                ..self
            },
            5 => BlockRow {
                figure: number(field)?,
                ..self
            },
            _ => self,
        })
    }
}

impl Row for LoopRow {
    const COLUMNS: usize = 5;

    fn with(self, column: usize, field: &[u8]) -> Option<Self> {
        Some(match column {
            1 => LoopRow {
                parent: number(field)?,
                ..self
            },
            2 => LoopRow {
                header: number(field)?,
                ..self
            },
            3 => LoopRow {
                limit: number(field)?,
                ..self
            },
            4 => LoopRow {
                multiplier: number(field)?,
                ..self
            },
            _ => self,
        })
    }
}

// Where the next byte stands: at a field's start, in a plain field, within quotes, after a quote mark within quotes, after a CR.
#[derive(Clone, Copy, PartialEq, Eq)]
enum State {
    Start,
    Plain,
    Quoted,
    Mark,
    Return,
}

#[derive(Drop)]
struct Reading<'t, 'r, R> {
    text: &'t [u8],
    header_row: bool,
    rows: &'r mut [R],
    // the rows that are read, and the first record's line end
    count: usize,
    line_end: LineEnd,
    state: State,
    // the present record, the first being 1, and its fields so far: how many, what the first says, and what the others say where each fits its column
    record: usize,
    fields: usize,
    number: Option<u16>,
    row: Option<R>,
    // where the present field begins
    from: usize,
}

impl<R: Row> Reading<'_, '_, R> {
    fn refusal(&self, number: u32) -> Refusal {
        Refusal {
            number,
            place: self.record,
        }
    }

    // The field that ends before an index. It has 64 bytes at most, as written.
    fn field_ended(&mut self, to: usize) -> Result<(), Refusal> {
        let written = part(self.text, self.from, to);
        if written.len() > 64 {
            return Err(self.refusal(102));
        }
        // Within quotes two quote marks stand for one. They may stay two, since no number has one.
        let field = match written {
            [b'"', quoted @ .., b'"'] => quoted,
            _ => written,
        };
        if self.fields == 0 {
            self.number = number(field);
        } else {
            self.row = self.row.and_then(|row| row.with(self.fields, field));
        }
        self.fields = self.fields.saturating_add(1);
        self.state = State::Start;
        Ok(())
    }

    fn row_ended(&mut self, line_end: LineEnd) -> Result<(), Refusal> {
        let (Some(number), Some(row)) = (self.number, self.row) else {
            return Err(self.refusal(104));
        };
        if usize::from(number) != self.count {
            return Err(self.refusal(105));
        }
        if self.count >= self.rows.len() {
            return Err(self.refusal(106));
        }
        if line_end != self.line_end && line_end != LineEnd::TextEnd {
            return Err(self.refusal(108));
        }
        self.rows[self.count] = row;
        self.count += 1;
        Ok(())
    }

    fn record_ended(&mut self, line_end: LineEnd) -> Result<(), Refusal> {
        if self.record == 1 {
            self.line_end = line_end;
        }
        if self.fields != R::COLUMNS {
            return Err(self.refusal(103));
        }
        if !self.header_row || self.record != 1 {
            self.row_ended(line_end)?;
        }
        self.record = self.record.saturating_add(1);
        self.fields = 0;
        self.row = Some(R::default());
        self.state = State::Start;
        Ok(())
    }

    // After a field comes a comma, a CR or an LF.
    fn after_field(&mut self, i: usize, b: u8) -> Result<(), Refusal> {
        if b != b',' && b != b'\r' && b != b'\n' {
            return Err(self.refusal(102));
        }
        self.field_ended(i)?;
        match b {
            b'\r' => self.state = State::Return,
            b'\n' => self.record_ended(LineEnd::Lf)?,
            _ => {}
        }
        Ok(())
    }

    fn byte(&mut self, i: usize, b: u8) -> Result<(), Refusal> {
        if self.state == State::Start {
            self.from = i;
        }
        match (self.state, b) {
            (State::Start | State::Mark, b'"') => self.state = State::Quoted,
            (State::Quoted, b'"') => self.state = State::Mark,
            (State::Quoted, _) => {}
            (State::Return, b'\n') => self.record_ended(LineEnd::CrLf)?,
            (State::Return, _) => return Err(self.refusal(102)),
            (State::Mark, _) | (_, b'"' | b',' | b'\r' | b'\n') => self.after_field(i, b)?,
            _ => self.state = State::Plain,
        }
        Ok(())
    }

    // The text ends: so does a record that has begun, unless a quote is open or a CR has no LF.
    fn end(&mut self) -> Result<(), Refusal> {
        match self.state {
            State::Quoted | State::Return => return Err(self.refusal(102)),
            State::Start if self.fields == 0 => return Ok(()),
            State::Start => self.from = self.text.len(),
            State::Plain | State::Mark => {}
        }
        self.field_ended(self.text.len())?;
        self.record_ended(LineEnd::TextEnd)
    }
}

// Reads a table into rows, of which it may have no more than these.
pub fn read_table<R: Row>(text: &[u8], header_row: bool, rows: &mut [R]) -> Answer {
    if text.len() > 65536 {
        return Err(Refusal {
            number: 101,
            place: 0,
        });
    }
    let mut reading = Reading {
        text,
        header_row,
        rows,
        count: 0,
        line_end: LineEnd::TextEnd,
        state: State::Start,
        record: 1,
        fields: 0,
        number: None,
        row: Some(R::default()),
        from: 0,
    };
    for (i, &b) in text.iter().enumerate() {
        reading.byte(i, b)?;
    }
    reading.end()?;
    if header_row && reading.record == 1 {
        return Err(reading.refusal(103));
    }
    Ok(Accepted::Table {
        rows: reading.count,
        line_end: reading.line_end,
    })
}
