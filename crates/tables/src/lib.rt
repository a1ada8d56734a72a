// The two tables of a routine, read from comma-separated text into lent columns. Rows wait in columns on the stack until the whole text is
// accepted.
#![tactic(auto)]

ghost use Rattle.std.specs.Prelude.{◌≡◌, ◌≤◌, ◌<◌, ℕ, true, Result, Ok, length, take, drop};
ghost use Rattle.limits.specs.Limits.{most_blocks, most_loops};
ghost use Rattle.csv_text.specs.Grammar.{Record, record_of, records};
ghost use Rattle.csv_text.specs.declared.Ending.{Ending};
ghost use Rattle.rows.specs.Row.{Verdict};
ghost use Rattle.rows.specs.Judge.{judge_block, judge_loop};
ghost use Rattle.rows.proofs.Taken.{block_taken, loop_taken};
ghost use Rattle.tables.specs.Table.{read_number, read_place, reading, table_of};
ghost use Rattle.tables.specs.Columns.{over, blocks, loops, BlocksRead, LoopsRead};
ghost use Rattle.tables.specs.Place.{start_after, start_of, step_of, store_block, store_loop, gathered, leaving};

use csv_text::Ending;
use limits::{MOST_BLOCKS, MOST_LOOPS, MOST_TEXT_BYTES};
use rows::{BLOCK_FIELDS, BlockRow, Fault, LOOP_FIELDS, LoopRow, Step};

// What was read: the count of rows, and how the first record of the text ends.
#[derive(Clone, Copy)]
pub struct Rows {
    pub count: usize,
    pub ending: Ending,
}

// Why a text is refused: it is too long, or a record of it has a fault.
#[derive(Clone, Copy)]
pub enum ReadFault {
    TextLength,
    Record(Fault, usize),
}

impl ReadFault {
    pub fn number(self) -> u32
        ensures { result ≡ read_number self }
    {
        match self {
            ReadFault::TextLength => 101,
            ReadFault::Record(fault, _) => fault.number(),
        }
    }

    pub fn place(self) -> usize
        ensures { result ≡ read_place self }
    {
        match self {
            ReadFault::TextLength => 0,
            ReadFault::Record(_, place) => place,
        }
    }
}

// Where the rows of a text start, the number of that record, and how the first record ends.
#[derive(Clone, Copy)]
struct Start {
    at: usize,
    place: usize,
    ending: Ending,
}

// The columns of a table on the stack. `most` is how many rows have a place.
trait Columns {
    type Row: Drop;

    ghost judge: { ℕ → Ending → ℕ → Record → Verdict Self.Row };

    ghost stored: { Self → ℕ → Self.Row → Self };

    ghost most: { ℕ };

    // The record that starts at `at`, where row k is due and `room` rows have a place.
    fn row_at(text: &[u8], at: usize, k: usize, room: usize, ending: Ending) -> Step<Self::Row>
        ensures { result ≡ step_of (judge room ending k (record_of (drop at text.now))) at (record_of (drop at text.now)) };

    fn store(&mut self, k: usize, row: Self::Row)
        requires { k < most }
        ensures { self.new ≡ stored self.old k row };

    // A row that is taken stands in a sound record, and has a place.
    ghost taken: { (room : ℕ) (first : Ending) (k : ℕ) (r : Record) (w : Self.Row) → judge room first k r ≡ Ok w → (r.sound ≡ true) × (k < room) };
}

// The columns of each table, on the stack.
#[derive(Drop)]
struct BlockArrays {
    cost: [u32; MOST_BLOCKS],
    loops: [u16; MOST_BLOCKS],
    first: [u16; MOST_BLOCKS],
    second: [u16; MOST_BLOCKS],
    figure: [i64; MOST_BLOCKS],
}

impl Columns for BlockArrays {
    type Row = BlockRow;

    ghost judge = { judge_block };

    ghost stored = { store_block };

    ghost most = { most_blocks };

    fn row_at(text: &[u8], at: usize, k: usize, room: usize, ending: Ending) -> Step<BlockRow> {
        rows::block_at(text, at, k, room, ending)
    }

    fn store(&mut self, k: usize, row: BlockRow) {
        self.cost[k] = row.cost;
        self.loops[k] = row.innermost;
        self.first[k] = row.first;
        self.second[k] = row.second;
        self.figure[k] = row.figure;
    }

    ghost taken = { λ room first k r w e. let t = block_taken room first k r w e in (t.0, t.1.1) };
}

#[derive(Drop)]
struct LoopArrays {
    parent: [u16; MOST_LOOPS],
    header: [u16; MOST_LOOPS],
    limit: [u32; MOST_LOOPS],
    multiplier: [u64; MOST_LOOPS],
}

impl Columns for LoopArrays {
    type Row = LoopRow;

    ghost judge = { judge_loop };

    ghost stored = { store_loop };

    ghost most = { most_loops };

    fn row_at(text: &[u8], at: usize, k: usize, room: usize, ending: Ending) -> Step<LoopRow> {
        rows::loop_at(text, at, k, room, ending)
    }

    fn store(&mut self, k: usize, row: LoopRow) {
        self.parent[k] = row.parent;
        self.header[k] = row.header;
        self.limit[k] = row.limit;
        self.multiplier[k] = row.multiplier;
    }

    ghost taken = { λ room first k r w e. let t = loop_taken room first k r w e in (t.0, t.1.1) };
}

// ---- one pass over the text

// Where the rows start after a header record.
fn header_start(text: &[u8], count: usize) -> Result<Start, ReadFault>
    ensures { result ≡ start_after count (records text.now) }
{
    if text.is_empty() {
        return Err(ReadFault::Record(Fault::FieldCount, 1));
    }
    let split = csv_text::scan_record(text, 0);
    let Some(ending) = split.ending else {
        return Err(ReadFault::Record(Fault::BrokenField, 1));
    };
    if split.count != count {
        return Err(ReadFault::Record(Fault::FieldCount, 1));
    }
    Ok(Start {
        at: split.next,
        place: 2,
        ending,
    })
}

// The length of the text, and its header if one is promised.
fn start_of(text: &[u8], header_row: bool, count: usize) -> Result<Start, ReadFault>
    ensures { result ≡ start_of count header_row text.now }
{
    if text.len() > MOST_TEXT_BYTES {
        return Err(ReadFault::TextLength);
    }
    if header_row {
        return header_start(text, count);
    }
    let ending = csv_text::first_ending(text);
    Ok(Start {
        at: 0,
        place: 1,
        ending,
    })
}

// The records from the start on, into columns.
fn gather<C: Columns>(
    text: &[u8],
    start: Start,
    room: usize,
    columns: &mut C,
) -> Result<Rows, ReadFault>
    requires { (start.at ≤ length text.now) × (start.place ≤ 2) × (room ≤ C.most) × (C.most < 65536) }
    ensures { leaving result columns.new ≡ gathered C.stored columns.old 0 (reading (C.judge room) start.ending start.place 0 (records (drop start.at text.now))) }
{
    let mut p = start.at;
    let mut k: usize = 0;
    while p < text.len() {
        let Step { verdict, next } = C::row_at(text, p, k, room, start.ending);
        match verdict {
            Ok(row) => columns.store(k, row),
            Err(fault) => return Err(ReadFault::Record(fault, start.place + k)),
        }
        p = next;
        k += 1;
    }
    Ok(Rows {
        count: k,
        ending: start.ending,
    })
}

// The whole text of a table into columns.
fn gather_table<C: Columns>(
    text: &[u8],
    header_row: bool,
    fields: usize,
    room: usize,
    columns: &mut C,
) -> Result<Rows, ReadFault>
    requires { (room ≤ C.most) × (C.most < 65536) }
    ensures { leaving result columns.new ≡ gathered C.stored columns.old 0 (table_of fields (C.judge room) header_row text.now) }
{
    let start = start_of(text, header_row, fields)?;
    gather(text, start, room, columns)
}

// ---- from the columns on the stack to the lent ones

// Copies the first `count` values.
fn fill<T: Copy>(column: &mut [T], values: &[T], count: usize)
    requires { (count ≤ length values.now) × (count ≤ length column.old) }
    ensures { column.new ≡ over (take count values.now) column.old }
{
    column[..count].copy_from_slice(&values[..count]);
}

// ---- the readers

// Reads a block table into the columns: the count of its rows and how its first record ends. A refusal leaves the columns as they were.
pub fn read_blocks(
    text: &[u8],
    header_row: bool,
    cost: &mut [u32],
    loops: &mut [u16],
    first: &mut [u16],
    second: &mut [u16],
    figure: &mut [i64],
) -> Result<Rows, ReadFault>
    ensures { BlocksRead text.now header_row (blocks cost.old loops.old first.old second.old figure.old) result (blocks cost.new loops.new first.new second.new figure.new) }
{
    let places = cost
        .len()
        .min(loops.len())
        .min(first.len())
        .min(second.len())
        .min(figure.len());
    let mut columns = BlockArrays {
        cost: [0; MOST_BLOCKS],
        loops: [0; MOST_BLOCKS],
        first: [0; MOST_BLOCKS],
        second: [0; MOST_BLOCKS],
        figure: [0; MOST_BLOCKS],
    };
    let rows = gather_table(
        text,
        header_row,
        BLOCK_FIELDS,
        places.min(MOST_BLOCKS),
        &mut columns,
    )?;
    fill(cost, &columns.cost, rows.count);
    fill(loops, &columns.loops, rows.count);
    fill(first, &columns.first, rows.count);
    fill(second, &columns.second, rows.count);
    fill(figure, &columns.figure, rows.count);
    Ok(rows)
}

// Reads a loop table into the columns, with the same reply.
pub fn read_loops(
    text: &[u8],
    header_row: bool,
    parent: &mut [u16],
    header: &mut [u16],
    limit: &mut [u32],
    multiplier: &mut [u64],
) -> Result<Rows, ReadFault>
    ensures { LoopsRead text.now header_row (loops parent.old header.old limit.old multiplier.old) result (loops parent.new header.new limit.new multiplier.new) }
{
    let places = parent
        .len()
        .min(header.len())
        .min(limit.len())
        .min(multiplier.len());
    let mut columns = LoopArrays {
        parent: [0; MOST_LOOPS],
        header: [0; MOST_LOOPS],
        limit: [0; MOST_LOOPS],
        multiplier: [0; MOST_LOOPS],
    };
    let rows = gather_table(
        text,
        header_row,
        LOOP_FIELDS,
        places.min(MOST_LOOPS),
        &mut columns,
    )?;
    fill(parent, &columns.parent, rows.count);
    fill(header, &columns.header, rows.count);
    fill(limit, &columns.limit, rows.count);
    fill(multiplier, &columns.multiplier, rows.count);
    Ok(rows)
}
