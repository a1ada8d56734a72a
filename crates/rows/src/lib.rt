// What one record says where a row of a table is due: the row, or its first fault.
#![tactic(auto)]

ghost use Rattle.std.specs.Prelude.{◌≡◌, ◌≤◌, ℕ, length, drop};
ghost use Rattle.csv_text.specs.Grammar.{record_of};
ghost use Rattle.csv_text.specs.Place.{field_at, split_of, no_places};
ghost use Rattle.cells.specs.Cell.{greatest};
ghost use Rattle.rows.specs.Fault.{fault_number, not_number};
ghost use Rattle.rows.specs.Row.{or_missing, in_turn, block_cells, block_row, loop_cells, loop_row};
ghost use Rattle.rows.specs.Judge.{judge_block, judge_loop};
ghost use Rattle.rows.specs.Place.{counted, block_step, loop_step, BlockFits, LoopFits, CommaAt, LastAt, ShortAt};

use cells::Width;
use csv_text::{Ending, Found, Split};
use digits::NotNumber;

// Fields of a record in each table.
pub const BLOCK_FIELDS: usize = 6;

pub const LOOP_FIELDS: usize = 5;

// The faults of a record. The first of them is told.
#[derive(Clone, Copy, PartialEq, Eq)]
pub enum Fault {
    BrokenField,
    FieldCount,
    NotNumber,
    OutOfTurn,
    NoPlace,
    OtherEnding,
}

impl Fault {
    // The number of the fault in a reply.
    pub fn number(self) -> u32
        ensures { result ≡ fault_number self }
    {
        match self {
            Fault::BrokenField => 102,
            Fault::FieldCount => 103,
            Fault::NotNumber => 104,
            Fault::OutOfTurn => 105,
            Fault::NoPlace => 106,
            Fault::OtherEnding => 108,
        }
    }
}

impl From<NotNumber> for Fault {
    ghost from_gives = { λ _ e. e ≡ not_number };

    fn from(_reason: NotNumber) -> Fault {
        Fault::NotNumber
    }
}

// What the six fields of a block say. `innermost` is the innermost loop around it.
#[derive(Clone, Copy)]
pub struct BlockCells {
    pub number: Result<u32, NotNumber>,
    pub cost: Result<u32, NotNumber>,
    pub innermost: Result<u32, NotNumber>,
    pub first: Result<u32, NotNumber>,
    pub second: Result<u32, NotNumber>,
    pub figure: Result<i64, NotNumber>,
}

// A row of the block table. A missing successor is 65,535.
#[derive(Clone, Copy)]
pub struct BlockRow {
    pub number: u16,
    pub cost: u32,
    pub innermost: u16,
    pub first: u16,
    pub second: u16,
    pub figure: i64,
}

// What the five fields of a loop say. Only a multiplier may need 64 bits.
#[derive(Clone, Copy)]
pub struct LoopCells {
    pub number: Result<u32, NotNumber>,
    pub parent: Result<u32, NotNumber>,
    pub header: Result<u32, NotNumber>,
    pub limit: Result<u32, NotNumber>,
    pub multiplier: Result<u64, NotNumber>,
}

// A row of the loop table.
#[derive(Clone, Copy)]
pub struct LoopRow {
    pub number: u16,
    pub parent: u16,
    pub header: u16,
    pub limit: u32,
    pub multiplier: u64,
}

// The verdict on a record, the row that it says or its first fault, and where the next record starts.
#[derive(Clone, Copy)]
pub struct Step<R> {
    pub verdict: Result<R, Fault>,
    pub next: usize,
}

// ---- the row

// A missing successor is 65,535.
fn or_missing(value: Result<u32, NotNumber>) -> Result<u32, NotNumber>
    ensures { result ≡ or_missing value }
{
    let Err(NotNumber::Missing) = value else {
        return value;
    };
    Ok(65535)
}

// `row` with its number, where row k is due. `alike`: its record may end so.
#[tactic(auto, using(crate::proofs::Rows::turn_out, crate::proofs::Rows::turn_full, crate::proofs::Rows::turn_unlike, crate::proofs::Rows::turn_due))]
fn in_turn<R: Copy>(row: R, number: u16, k: usize, room: usize, alike: bool) -> Result<R, Fault>
    ensures { result ≡ in_turn room k alike number row }
{
    if usize::from(number) != k {
        return Err(Fault::OutOfTurn);
    }
    if k >= room {
        return Err(Fault::NoPlace);
    }
    if alike {
        Ok(row)
    } else {
        Err(Fault::OtherEnding)
    }
}

// The block that the cells say, where row k is due.
fn block_row(cells: BlockCells, k: usize, room: usize, alike: bool) -> Result<BlockRow, Fault>
    requires { BlockFits cells }
    ensures { result ≡ block_row room k alike cells }
{
    let number = cells.number?;
    let cost = cells.cost?;
    let innermost = cells.innermost?;
    let first = or_missing(cells.first)?;
    let second = or_missing(cells.second)?;
    let figure = cells.figure?;
    let row = BlockRow {
        number: number as u16,
        cost,
        innermost: innermost as u16,
        first: first as u16,
        second: second as u16,
        figure,
    };
    in_turn(row, row.number, k, room, alike)
}

// The loop that the cells say, where row k is due.
fn loop_row(cells: LoopCells, k: usize, room: usize, alike: bool) -> Result<LoopRow, Fault>
    requires { LoopFits cells }
    ensures { result ≡ loop_row room k alike cells }
{
    let number = cells.number?;
    let parent = cells.parent?;
    let header = cells.header?;
    let limit = cells.limit?;
    let multiplier = cells.multiplier?;
    let row = LoopRow {
        number: number as u16,
        parent: parent as u16,
        header: header as u16,
        limit,
        multiplier,
    };
    in_turn(row, row.number, k, room, alike)
}

// ---- the long way: one scan notes the bounds of the fields, and each field is read where it stands

fn block_cells(text: &[u8], split: &Split) -> BlockCells
    ensures { result ≡ block_cells (field_at text.now split.now.starts split.now.ends) }
{
    BlockCells {
        number: cells::number_of(split.field(text, 0), Width::U16),
        cost: cells::number_of(split.field(text, 1), Width::U32),
        innermost: cells::number_of(split.field(text, 2), Width::U16),
        first: cells::number_of(split.field(text, 3), Width::Successor),
        second: cells::number_of(split.field(text, 4), Width::Successor),
        figure: cells::i64_of(split.field(text, 5)),
    }
}

fn loop_cells(text: &[u8], split: &Split) -> LoopCells
    ensures { result ≡ loop_cells (field_at text.now split.now.starts split.now.ends) }
{
    LoopCells {
        number: cells::number_of(split.field(text, 0), Width::U16),
        parent: cells::number_of(split.field(text, 1), Width::U16),
        header: cells::number_of(split.field(text, 2), Width::U16),
        limit: cells::number_of(split.field(text, 3), Width::U32),
        multiplier: cells::u64_of(split.field(text, 4)),
    }
}

// How a record ends that has as many fields as are due, none of them broken.
fn ending_of(split: &Split, count: usize) -> Result<Ending, Fault>
    ensures { result ≡ counted count split.now.count split.now.ending }
{
    let Some(own) = split.ending else {
        return Err(Fault::BrokenField);
    };
    if split.count != count {
        return Err(Fault::FieldCount);
    }
    Ok(own)
}

// The block that a scanned record says, where row k is due. The first record of the text ends in the way `ending`.
fn block_of(
    text: &[u8],
    split: &Split,
    k: usize,
    room: usize,
    ending: Ending,
) -> Result<BlockRow, Fault>
    ensures { (at : ℕ) → split.now ≡ split_of no_places no_places 0 at (record_of (drop at text.now)) → result ≡ judge_block room ending k (record_of (drop at text.now)) }
{
    let own = ending_of(split, BLOCK_FIELDS)?;
    block_row(block_cells(text, split), k, room, ending.allows(own))
}

// The same of a loop. One generic function for both would need a trait of rows with three ghost members and a law: no plainer than these lines.
fn loop_of(
    text: &[u8],
    split: &Split,
    k: usize,
    room: usize,
    ending: Ending,
) -> Result<LoopRow, Fault>
    ensures { (at : ℕ) → split.now ≡ split_of no_places no_places 0 at (record_of (drop at text.now)) → result ≡ judge_loop room ending k (record_of (drop at text.now)) }
{
    let own = ending_of(split, LOOP_FIELDS)?;
    loop_row(loop_cells(text, split), k, room, ending.allows(own))
}

fn scanned_block(text: &[u8], at: usize, k: usize, room: usize, ending: Ending) -> Step<BlockRow>
    ensures { result ≡ block_step room ending k at (record_of (drop at text.now)) }
{
    let split = csv_text::scan_record(text, at);
    let verdict = block_of(text, &split, k, room, ending);
    Step {
        verdict,
        next: split.next,
    }
}

// The record that starts at `at`, where loop k is due and `room` loops have a place. The first record of the text ends in the way `ending`.
pub fn loop_at(text: &[u8], at: usize, k: usize, room: usize, ending: Ending) -> Step<LoopRow>
    ensures { result ≡ loop_step room ending k at (record_of (drop at text.now)) }
{
    let split = csv_text::scan_record(text, at);
    let verdict = loop_of(text, &split, k, room, ending);
    Step {
        verdict,
        next: split.next,
    }
}

// ---- the short way: one scan finds and reads each field. None: the record needs the long way

// A field of digits alone that a comma follows: what it says, and where its comma stands.
fn comma_cell(text: &[u8], at: usize, width: Width) -> Option<(Result<u32, NotNumber>, usize)>
    ensures { CommaAt text.now at (greatest width) result }
{
    let cell = cells::number_cell(text, at, width.greatest());
    let Found::Comma(end) = cell.found else {
        return None;
    };
    Some((cell.value, end))
}

// The same of a field that must be a number: any other needs the long way.
fn number_field(text: &[u8], at: usize, width: Width) -> Option<(Result<u32, NotNumber>, usize)>
    ensures { CommaAt text.now at (greatest width) result }
{
    let (value, end) = comma_cell(text, at, width)?;
    if value.is_err() {
        return None;
    }
    Some((value, end))
}

// The last field of a record, where it is digits alone, or a minus sign and digits, and the record ends as it may: what it says, and where the
// next record starts.
fn last_cell(text: &[u8], at: usize, ending: Ending) -> Option<(Result<i64, NotNumber>, usize)>
    requires { at ≤ length text.now }
    ensures { LastAt text.now ending at result }
{
    let cell = cells::integer_cell(text, at);
    let Found::Ends(own, end) = cell.found else {
        return None;
    };
    if ending.allows(own) {
        return Some((cell.value, end + own.width()));
    }
    None
}

// The cells of a block, one scan for each field, and where the next record starts.
fn short_block(text: &[u8], at: usize, ending: Ending) -> Option<(BlockCells, usize)>
    ensures { ShortAt text.now ending at result }
{
    let (number, a) = number_field(text, at, Width::U16)?;
    let (cost, b) = number_field(text, a + 1, Width::U32)?;
    let (innermost, c) = number_field(text, b + 1, Width::U16)?;
    let (first, d) = comma_cell(text, c + 1, Width::Successor)?;
    let (second, e) = comma_cell(text, d + 1, Width::Successor)?;
    let (figure, next) = last_cell(text, e + 1, ending)?;
    let cells = BlockCells {
        number,
        cost,
        innermost,
        first,
        second,
        figure,
    };
    Some((cells, next))
}

// The record that starts at `at`, where block k is due and `room` blocks have a place. The first record of the text ends in the way `ending`.
pub fn block_at(text: &[u8], at: usize, k: usize, room: usize, ending: Ending) -> Step<BlockRow>
    ensures { result ≡ block_step room ending k at (record_of (drop at text.now)) }
{
    match short_block(text, at, ending) {
        Some((cells, next)) => {
            let verdict = block_row(cells, k, room, true);
            Step { verdict, next }
        }
        None => scanned_block(text, at, k, room, ending),
    }
}
