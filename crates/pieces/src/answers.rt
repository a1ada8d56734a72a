// What is replied to a case, and how it is printed.
use std::fmt;

// What a text's first record ends with.
#[derive(Clone, Copy, PartialEq, Eq)]
pub enum LineEnd {
    CrLf,
    Lf,
    TextEnd,
}

// What a reply says beside that it accepts.
#[derive(Clone, Copy, PartialEq, Eq)]
pub enum Accepted {
    // a table is read: its rows, and what its first record ends with
    Table { rows: usize, line_end: LineEnd },
    // a walk is one of the tables'
    Walk { cost: i64, steps: i64 },
    // all else: a bound, or the number of bytes or of blocks that are written
    Value(i64),
}

// The number of a refusal in documents 01 and 02, and the place that it names.
#[derive(Clone, Copy, PartialEq, Eq)]
pub struct Refusal {
    pub number: u32,
    pub place: usize,
}

pub type Answer = Result<Accepted, Refusal>;

impl fmt::Display for LineEnd {
    fn fmt<W: fmt::Write>(&self, f: &mut fmt::Formatter<W>) -> fmt::Result {
        match self {
            LineEnd::CrLf => write!(f, "CR LF"),
            LineEnd::Lf => write!(f, "LF"),
            LineEnd::TextEnd => write!(f, "end of text"),
        }
    }
}

impl fmt::Display for Accepted {
    fn fmt<W: fmt::Write>(&self, f: &mut fmt::Formatter<W>) -> fmt::Result {
        match self {
            Accepted::Table { rows, line_end } => write!(f, "accepted {rows}, {line_end}"),
            Accepted::Walk { cost, steps } => write!(f, "accepted {cost}, steps {steps}"),
            Accepted::Value(value) => write!(f, "accepted {value}"),
        }
    }
}

impl fmt::Display for Refusal {
    fn fmt<W: fmt::Write>(&self, f: &mut fmt::Formatter<W>) -> fmt::Result {
        let number = self.number;
        let place = self.place;
        write!(f, "{number} at {place}")
    }
}
