// Texts, as the cases write them.
use crate::lines::with_digit;
use pieces::room::Room;

// The table that a text is of.
#[derive(Clone, Copy, PartialEq, Eq)]
pub enum Table {
    Blocks,
    Loops,
}

// Where the next byte of a written text stands.
#[derive(Clone, Copy)]
enum State {
    Outside,
    // after a backslash
    Escape,
    // in a count
    Count(usize),
    // after the star of a count
    Star(usize),
}

// Tower i: loop a around loop b around loop c, which is a block that names itself, and then on to block d. A round of loop a costs 2^40.
fn put_tower(text: &mut Room<'_>, i: usize, table: Table) {
    let a = i.saturating_mul(3).saturating_add(1);
    let b = a.saturating_add(1);
    let c = a.saturating_add(2);
    let d = a.saturating_add(3);
    match table {
        Table::Blocks => text.put(format_args!(
            "{a},0,{a},{b},{d},0\r\n{b},0,{b},{c},{a},0\r\n{c},1024,{c},{c},{b},0\r\n"
        )),
        Table::Loops => text.put(format_args!(
            "{a},0,{a},65535,0\r\n{b},{a},{b},32769,0\r\n{c},{b},{c},32768,0\r\n"
        )),
    }
}

// Row i of those that a letter stands for: R for rows that say nothing but their number, W for wide ones, which have about as many bytes as a row can
// have, both with CR LF; r and w with LF; T for three rows each, a tower; C for changes of a vector, the shortest that there are.
fn put_row(text: &mut Room<'_>, i: usize, letter: u8, table: Table) {
    match (letter, table) {
        (b'R', Table::Blocks) => text.put(format_args!("{i},0,0,,,0\r\n")),
        (b'R', Table::Loops) => text.put(format_args!("{i},0,0,1,0\r\n")),
        (b'r', Table::Blocks) => text.put(format_args!("{i},0,0,,,0\n")),
        (b'r', Table::Loops) => text.put(format_args!("{i},0,0,1,0\n")),
        (b'W', _) => text.put(format_args!(
            "{i},\"4294967295\",\"65535\",\"65534\",\"65534\",\"1000000000000000000\"\r\n"
        )),
        // The minus sign makes the row as long as one with CR LF.
        (b'w', _) => text.put(format_args!(
            "{i},\"4294967295\",\"65535\",\"65534\",\"65534\",\"-1000000000000000000\"\n"
        )),
        (b'T', _) => put_tower(text, i, table),
        (b'C', _) => text.put(if i % 2 == 0 { "b0 !\n" } else { "b1 !\n" }),
        _ => {}
    }
}

// Once a text has more bytes than places no further row is needed: none of its bytes counts.
fn put_rows(text: &mut Room<'_>, count: usize, letter: u8, table: Table) {
    for i in 0..count {
        if text.is_over() {
            break;
        }
        put_row(text, i, letter, table);
    }
}

// The byte that a letter after a backslash stands for: CR, LF, 0, 255 and the three bytes of a byte order mark; tab, vertical tab, form feed, 127
// and a bar. Any other byte stands for itself.
fn escaped(b: u8) -> u8 {
    match b {
        b'r' => b'\r',
        b'n' => b'\n',
        b'z' => 0,
        b'f' => 255,
        b'a' => 239,
        b'b' => 187,
        b'c' => 191,
        b't' => b'\t',
        b'v' => 11,
        b'l' => 12,
        b'd' => 127,
        b'p' => b'|',
        _ => b,
    }
}

// Puts what a byte of a written text stands for, and says where the next byte stands. In a count a byte that is no digit sets it to 0, and so does a digit
// with which 64 bits would not hold it.
fn put_written(text: &mut Room<'_>, b: u8, state: State, table: Table) -> State {
    match (state, b) {
        (State::Outside, b'\\') => return State::Escape,
        (State::Outside, b'%') => return State::Count(0),
        (State::Outside, b';') => text.put("\r\n"),
        (State::Outside, _) => text.push(b),
        (State::Escape, _) => text.push(escaped(b)),
        (State::Count(count), b'*') => return State::Star(count),
        (State::Count(count), b'R' | b'W' | b'r' | b'w' | b'T' | b'C') => {
            put_rows(text, count, b, table);
        }
        (State::Count(count), _) => {
            return State::Count(with_digit(count, b).unwrap_or_default());
        }
        (State::Star(count), _) => text.push_many(b, count),
    }
    State::Outside
}

// Puts the text that a case writes into lent places, and says how many bytes it has. Where these are more than the places, none of them counts. `;` is CR LF,
// `%1024R` is 1,024 rows, `%1024W` rows of more bytes, `%1024r` and `%1024w` the same with LF, `%16T` 16 towers from row 1 on, `%16C` 16 changes, and
// `%64*x` a byte 64 times.
pub fn make_text(written: &[u8], table: Table, places: &mut [u8]) -> usize {
    let mut text = Room::new(places);
    let mut state = State::Outside;
    for &b in written {
        state = put_written(&mut text, b, state, table);
    }
    text.count()
}
