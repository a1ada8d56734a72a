// The path-counting program as MPS, written from document 02 apart from the library: one column after the other, and in each column one row
// after the other.
use crate::tables::Tables;
use pieces::answers::Refusal;
use pieces::at;
use pieces::room::Room;
use std::fmt;

// A row of the program: the costs, a block or a loop.
#[derive(Clone, Copy)]
enum Row {
    Cost,
    Block(usize),
    Loop(usize),
}

// A column of the program: an edge, its number and its two blocks, or the right side.
#[derive(Clone, Copy)]
enum Column {
    Edge {
        number: usize,
        from: usize,
        to: usize,
    },
    RightSide,
}

impl fmt::Display for Row {
    fn fmt<W: fmt::Write>(&self, f: &mut fmt::Formatter<W>) -> fmt::Result {
        match self {
            Row::Cost => write!(f, "COST"),
            Row::Block(u) => write!(f, "B{u:04}"),
            Row::Loop(k) => write!(f, "L{k:02}"),
        }
    }
}

impl Row {
    // An objective, an equation or an upper limit.
    fn kind(self) -> char {
        match self {
            Row::Cost => 'N',
            Row::Block(_) => 'E',
            Row::Loop(_) => 'L',
        }
    }
}

impl fmt::Display for Column {
    fn fmt<W: fmt::Write>(&self, f: &mut fmt::Formatter<W>) -> fmt::Result {
        match self {
            Column::Edge { number, .. } => write!(f, "E{number:04}"),
            Column::RightSide => write!(f, "RHS"),
        }
    }
}

// The costs, then the blocks, then the loops but for loop 0.
fn rows(t: &Tables<'_>) -> usize {
    t.blocks().saturating_add(t.loops())
}

fn row_at(t: &Tables<'_>, r: usize) -> Row {
    let n = t.blocks();
    match r {
        0 => Row::Cost,
        _ if r <= n => Row::Block(r - 1),
        _ => Row::Loop(r - n),
    }
}

// 1 from inside to the header, 1 less the limit from outside.
fn in_loop(t: &Tables<'_>, k: usize, from: usize, to: usize) -> i64 {
    if to != t.header_of(k) {
        0
    } else if t.is_inside(from, k) {
        1
    } else {
        1 - i64::from(at(t.limit, k))
    }
}

// The number of a column in a row.
fn number_at(t: &Tables<'_>, column: Column, row: Row) -> i64 {
    match (column, row) {
        (Column::RightSide, Row::Block(0)) => 1,
        (Column::RightSide, Row::Block(u)) if t.is_exit(u) => -1,
        (Column::RightSide, _) => 0,
        (Column::Edge { to, .. }, Row::Cost) => -i64::from(at(t.cost, to)),
        // outgoing less incoming edges
        (Column::Edge { from, to, .. }, Row::Block(u)) => {
            i64::from(from == u) - i64::from(to == u)
        }
        (Column::Edge { from, to, .. }, Row::Loop(k)) => in_loop(t, k, from, to),
    }
}

// Names from columns 5 and 15 on, and a number from column 25 on.
fn put_card(text: &mut Room<'_>, column: Column, row: Row, number: i64) {
    let start = text.count();
    text.pad_to(start.saturating_add(4));
    text.put(column);
    text.pad_to(start.saturating_add(14));
    text.put(row);
    text.pad_to(start.saturating_add(24));
    text.put(number);
    text.push(b'\n');
}

fn put_column(text: &mut Room<'_>, t: &Tables<'_>, column: Column) {
    for r in 0..rows(t) {
        let row = row_at(t, r);
        let number = number_at(t, column, row);
        if number != 0 {
            put_card(text, column, row, number);
        }
    }
}

// The edges of block u have the numbers 2u and 2u + 1.
fn put_edges(text: &mut Room<'_>, t: &Tables<'_>) {
    for number in 0..t.blocks().saturating_mul(2) {
        let from = number / 2;
        if let Some(to) = t.successors(from)[number % 2] {
            put_column(text, t, Column::Edge { number, from, to });
        }
    }
}

fn put_rows(text: &mut Room<'_>, t: &Tables<'_>) {
    for r in 0..rows(t) {
        let row = row_at(t, r);
        let kind = row.kind();
        text.put(format_args!(" {kind}  {row}\n"));
    }
}

// The length of the program's text, which then stands in lent places, as far as these go; or the tables' refusal.
pub fn program(t: &Tables<'_>, places: &mut [u8]) -> Result<usize, Refusal> {
    t.keep_order()?;
    let mut text = Room::new(places);
    text.put("NAME\nROWS\n");
    put_rows(&mut text, t);
    text.put("COLUMNS\n");
    put_edges(&mut text, t);
    text.put("RHS\n");
    put_column(&mut text, t, Column::RightSide);
    text.put("ENDATA\n");
    Ok(text.count())
}
