// Runs one case: by the library, and by the second checker.
use crate::library;
use cases::keeping::{Place, holds, is_untouched, lent};
use cases::lines::{Line, number_of};
use cases::lists::{self, Number};
use cases::tables::{Columns, Pair};
use cases::tally::Answers;
use cases::texts::{Table, make_text};
use cases::walks;
use pieces::answers::{Accepted, Answer, Refusal};
use pieces::{at, first, part};
use second::reading::{Row, read_table};
use second::shortest::Certificate;
use second::tables::Tables;
use second::{recording, shortest, stepping, writing};
use std::alloc::{AllocError, Global};

// A text that is read as a table or a dump: up to 64 bytes more than it may have. Of a text that is longer than its room no byte counts.
const MOST_TEXT_BYTES: usize = 65600;

// A table of a pair.
const MOST_PAIR_BYTES: usize = 2048;

// The lists of a case, columns as a case has them, and a program that a case gives.
const MOST_LIST_BYTES: usize = 4096;

// The code of a dump's vector.
const MOST_CODE_BYTES: usize = 512;

// The text of a program has at most 250,217 bytes.
const MOST_PROGRAM_BYTES: usize = 262144;

// A dump has fewer changed values.
const MOST_VALUES: usize = 13120;

// The values that a case gives are compared with no more than these.
const MOST_WRITTEN_VALUES: usize = 512;

// The rows of a second certificate's columns: more than the rows may be.
const MOST_FIGURES: usize = 1026;

const MOST_LOOPS: usize = 66;

// No column is shorter than the others.
const NO_COLUMN: usize = 9;

// How many rows or values an answer says to have been read.
fn count_of(answer: Answer) -> usize {
    match answer {
        Ok(Accepted::Table { rows, .. }) => rows,
        Ok(Accepted::Value(value)) => usize::try_from(value).unwrap_or_default(),
        _ => 0,
    }
}

// Room for what a case writes: `;` is two bytes, and only `%` makes more of one.
fn text_room(written: &[u8]) -> usize {
    if written.contains(&b'%') {
        return MOST_TEXT_BYTES;
    }
    written.len().saturating_mul(2).min(MOST_TEXT_BYTES)
}

// header setting | text | places | shorter column
pub fn table_answers<C: Columns, F: FnOnce(&[u8], bool, &mut C) -> Answer>(
    alloc: Global,
    line: Line<'_>,
    read: F,
) -> Result<Answers, AllocError>
where
    C::Row: Row,
    requires { F.IsAlwaysCallable read }
{
    let mut bytes = lent(alloc, text_room(line.field(4)))?;
    let length = make_text(line.field(4), C::TABLE, &mut bytes);
    let text = part(&bytes, 0, length);
    let header_row = matches!(line.field(3), [b'p', ..]);
    let mut places = line.number(5).unwrap_or(C::PLACES);
    let mut columns = C::lent(alloc, places.min(C::PLACES))?;
    let shorter = line.number(6).unwrap_or(NO_COLUMN);
    if shorter != NO_COLUMN && places <= C::PLACES {
        columns.shorten(shorter);
        places = places.saturating_sub(1);
    }
    let mut rows = vec![in alloc; C::Row::default(); places.min(C::MOST_ROWS)]?;
    let got = read(text, header_row, &mut columns);
    let checked = read_table(text, header_row, &mut rows);
    Ok(Answers {
        got,
        checked,
        kept: columns.hold(part(&rows, 0, count_of(checked))),
    })
}

// A table of a pair, read from a text.
fn read_columns<C: Columns, F: FnOnce(&[u8], bool, &mut C) -> Answer>(
    alloc: Global,
    written: &[u8],
    read: F,
) -> Result<C, AllocError>
    requires { F.IsAlwaysCallable read }
{
    let mut bytes = lent(alloc, MOST_PAIR_BYTES)?;
    let length = make_text(written, C::TABLE, &mut bytes);
    let mut columns = C::lent(alloc, C::PLACES)?;
    let rows = count_of(read(part(&bytes, 0, length), false, &mut columns));
    columns.truncate(rows);
    Ok(columns)
}

// block text | loop text
pub fn read_pair(alloc: Global, line: Line<'_>) -> Result<Pair, AllocError> {
    let blocks = read_columns(alloc, line.field(3), library::read_blocks)?;
    let loops = read_columns(alloc, line.field(4), library::read_loops)?;
    Ok(Pair { blocks, loops })
}

fn tables_of(pair: &Pair) -> Tables<'_> {
    Tables {
        cost: &pair.blocks.cost,
        inner: &pair.blocks.inner,
        first: &pair.blocks.first,
        second: &pair.blocks.second,
        figure: &pair.blocks.figure,
        parent: &pair.loops.parent,
        header: &pair.loops.header,
        limit: &pair.loops.limit,
        multiplier: &pair.loops.multiplier,
    }
}

// A pair of tables.
pub fn check_answers(pair: &Pair) -> Answers {
    let t = tables_of(pair);
    Answers {
        got: library::check(&t),
        checked: stepping::check(&t),
        kept: true,
    }
}

// A walk over a pair of tables.
pub fn walk_answers(pair: &Pair, blocks: &[u16]) -> Answers {
    let t = tables_of(pair);
    Answers {
        got: library::walk(&t, blocks),
        checked: stepping::walk(&t, blocks),
        kept: true,
    }
}

// A second certificate of a pair of tables, by its lists: figures | multipliers | least visits.
pub fn shortest_answers(alloc: Global, pair: &Pair, written: &[u8]) -> Result<Answers, AllocError> {
    let mut bytes = lent(alloc, MOST_LIST_BYTES)?;
    let length = make_text(written, Table::Blocks, &mut bytes);
    let written = Line::new(part(&bytes, 0, length));
    let mut figure = lent(alloc, MOST_FIGURES)?;
    let mut multiplier = [0u64; MOST_LOOPS];
    let mut least = [0u32; MOST_LOOPS];
    let figures = lists::fill_numbers(written.field(0), &mut figure);
    let multipliers = lists::fill_numbers(written.field(1), &mut multiplier);
    let leasts = lists::fill_numbers(written.field(2), &mut least);
    let low = Certificate {
        figure: first(&figure, figures),
        multiplier: first(&multiplier, multipliers),
        least: first(&least, leasts),
    };
    let t = tables_of(pair);
    Ok(Answers {
        got: library::shortest(&t, &low),
        checked: shortest::shortest(&t, &low),
        kept: true,
    })
}

// Whether two columns are those that a case has.
fn is_written<A: Number, B: Number>(
    alloc: Global,
    column: &[A],
    other: &[B],
    wanted: &[u8],
) -> Result<bool, AllocError> {
    let mut bytes = lent(alloc, MOST_LIST_BYTES)?;
    let length = lists::write(column, other, &mut bytes);
    Ok(part(&bytes, 0, length) == wanted)
}

// The answer to a recording, and whether its two lent columns then are those that the line wants, where it wants any: places | places | stays | greatest.
fn tallied<F: FnOnce(&mut [u32], &mut [u32]) -> Answer>(
    alloc: Global,
    line: Line<'_>,
    loops: usize,
    tally: F,
) -> Result<(Answer, bool), AllocError>
    requires { F.IsAlwaysCallable tally }
{
    let mut stays = [u32::BEFORE; MOST_LOOPS];
    let mut greatest = [u32::BEFORE; MOST_LOOPS];
    let stays_lent = line.number(6).unwrap_or(loops).min(MOST_LOOPS);
    let greatest_lent = line.number(7).unwrap_or(loops).min(MOST_LOOPS);
    let answer = tally(&mut stays[..stays_lent], &mut greatest[..greatest_lent]);
    let wanted = line.rest(8);
    let filled = if wanted.is_empty() { 0 } else { loops };
    let is_rest_untouched = is_untouched(part(&stays, filled, MOST_LOOPS))
        && is_untouched(part(&greatest, filled, MOST_LOOPS));
    let is_wanted = wanted.is_empty()
        || is_written(alloc, first(&stays, loops), first(&greatest, loops), wanted)?;
    Ok((answer, is_rest_untouched && is_wanted))
}

// A recording over a pair of tables.
pub fn tally_answers(
    alloc: Global,
    line: Line<'_>,
    pair: &Pair,
    blocks: &[u16],
) -> Result<Answers, AllocError> {
    let t = tables_of(pair);
    let (got, kept) = tallied(alloc, line, t.loops(), |stays, greatest| {
        library::tally(&t, blocks, stays, greatest)
    })?;
    let (checked, also_kept) = tallied(alloc, line, t.loops(), |stays, greatest| {
        recording::tally(&t, blocks, stays, greatest)
    })?;
    Ok(Answers {
        got,
        checked,
        kept: kept && also_kept,
    })
}

// The solver's answer beside what the library and the checker say of the tables after it. Both must accept what it accepts, with its bound. What it
// refuses, the checker must refuse alike, but for 401 to 403: it does not know these, and accepts there or says 208.
fn confirmed(solved: Answer, after: Answers, kept: bool) -> Answers {
    let is_unknown = matches!(solved, Err(refusal) if refusal.number > 400);
    let is_silent = matches!(after.checked, Ok(_) | Err(Refusal { number: 208, .. }));
    let checked = if is_unknown && is_silent {
        solved
    } else if solved.is_ok() && solved != after.got {
        after.got
    } else {
        after.checked
    };
    Answers {
        got: solved,
        checked,
        kept,
    }
}

// A pair of tables whose figures and multipliers are remade: .. | figures | multipliers, where the line has these.
pub fn solve_answers(alloc: Global, line: Line<'_>, mut pair: Pair) -> Result<Answers, AllocError> {
    let mut given = lent(alloc, MOST_LIST_BYTES)?;
    let length = lists::write(&pair.blocks.figure, &pair.loops.multiplier, &mut given);
    let solved = library::solve(&mut pair);
    let wanted = match line.rest(5) {
        [] => part(&given, 0, length),
        written => written,
    };
    let kept = is_written(alloc, &pair.blocks.figure, &pair.loops.multiplier, wanted)?;
    Ok(confirmed(solved, check_answers(&pair), kept))
}

// Room for the text of a program, which has at most 33 bytes a line: a line for each block and four for each of its two edges, one for each loop, and eight.
fn program_room(t: &Tables<'_>) -> usize {
    let blocks = t.blocks().saturating_mul(9);
    let lines = blocks.saturating_add(t.loops()).saturating_add(8);
    lines.saturating_mul(33).min(MOST_PROGRAM_BYTES)
}

// The length of a program that the second checker made, if a buffer of so many bytes has room for it.
fn fitted(program: Result<usize, Refusal>, bytes: usize) -> Result<usize, Refusal> {
    match program {
        Ok(length) if length > bytes => Err(Refusal {
            number: 411,
            place: 0,
        }),
        _ => program,
    }
}

// The program of a pair of tables, written into a buffer of so many bytes: a number, or `exact` for as many as the text has, or `short` for one less. The
// text may be given.
pub fn mps_answers(
    alloc: Global,
    pair: &Pair,
    room: &[u8],
    wanted: &[u8],
) -> Result<Answers, AllocError> {
    let t = tables_of(pair);
    let mut made = lent(alloc, program_room(&t))?;
    let program = writing::program(&t, &mut made);
    let length = program.unwrap_or_default();
    let bytes = match room {
        [b'e', ..] => length,
        [b's', ..] => length.saturating_sub(1),
        digits => number_of(digits),
    };
    let mut buffer = lent(alloc, bytes.min(MOST_PROGRAM_BYTES))?;
    let got = library::mps(&t, &mut buffer);
    let fitted = fitted(program, bytes);
    let text = part(&made, 0, fitted.unwrap_or_default());
    let mut given = lent(alloc, MOST_LIST_BYTES)?;
    let given_length = make_text(wanted, Table::Loops, &mut given);
    let given = part(&given, 0, given_length);
    Ok(Answers {
        got,
        checked: fitted.map(|length| Accepted::Value(i64::try_from(length).unwrap_or(i64::MAX))),
        kept: (given.is_empty() || given == text) && holds(&buffer, text, |byte| *byte),
    })
}

// The second checker's answer to a value change dump over a pair of tables.
fn read_dump(t: &Tables<'_>, text: &[u8], code: &[u8], blocks: &mut [u16]) -> Answer {
    stepping::check_dumped(t)?;
    dumps::read_dump(text, code, blocks)
}

// Whether values are those that a case gives. Behind the ones that count it gives 0. Where it gives none, any will do.
fn are_values(values: &[u16], written: &[u8]) -> bool {
    let mut wanted = [0u16; MOST_WRITTEN_VALUES];
    let count = walks::written(written, &mut wanted);
    let mut all = values.iter().enumerate();
    count == 0 || count == values.len() && all.all(|(i, value)| *value == at(&wanted, i))
}

// A value change dump over a pair of tables, read into two buffers: text | code | places | values. Both readers must find the same.
pub fn dump_answers(alloc: Global, line: Line<'_>, pair: &Pair) -> Result<Answers, AllocError> {
    let mut text = lent(alloc, text_room(line.field(5)))?;
    let mut code = [0u8; MOST_CODE_BYTES];
    let text_length = make_text(line.field(5), Table::Blocks, &mut text);
    let code_length = make_text(line.field(6), Table::Blocks, &mut code);
    let text = part(&text, 0, text_length);
    let code = part(&code, 0, code_length);
    let places = line.number(7).unwrap_or(MOST_VALUES).min(MOST_VALUES);
    let mut values = lent(alloc, places)?;
    let mut others = lent(alloc, places)?;
    let t = tables_of(pair);
    let got = library::vcd(&t, text, code, &mut values);
    let checked = read_dump(&t, text, code, &mut others);
    let count = count_of(checked);
    let is_wanted = are_values(part(&values, 0, count), line.field(8));
    Ok(Answers {
        got,
        checked,
        kept: is_wanted && values == others && is_untouched(part(&values, count, places)),
    })
}
