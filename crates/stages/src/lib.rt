// The checking program as functions on bytes: from its setting and its two files to an outcome.
#![tactic(auto)]

ghost use Rattle.std.specs.Prelude.{◌≡◌, take};
ghost use Rattle.certificate.specs.Answers.{table_meaning};
ghost use Rattle.stages.specs.Stages.{header_of, of_answer, refusal_at, with_loops, loops_stage, blocks_stage, outcome_of, wanted_by};

use certificate::TableFault;
use limits::{MOST_BLOCKS, MOST_LOOPS};
use nesting::Tables;
use report::{Refusal, Stage};

// Which of the two files could be read. The loops file is opened only after good blocks. The texts stand beside it, and not in it: the laws
// `FirstBytes` and `InTurn` of specs/ speak of a text whether or not its file could be read.
#[derive(Clone, Copy)]
pub enum Files {
    Neither,
    Blocks,
    Both,
}

// The file that an outcome waits for. An Option of an enum of two files would say the same in two steps.
#[derive(Clone, Copy)]
pub enum Wanted {
    Nothing,
    Blocks,
    Loops,
}

// ---- the setting

// Whether both files have a header row, or `None` where the setting is wrong. `==` would want `.as_slice()` after each word.
fn header_of(setting: &[u8]) -> Option<bool>
    ensures { result ≡ header_of setting.now }
{
    if check::same(setting, b"header=absent") || check::same(setting, b"header=absent\n") {
        return Some(false);
    }
    if check::same(setting, b"header=present") || check::same(setting, b"header=present\n") {
        return Some(true);
    }
    None
}

// ---- the stages

// The first places of a column, or all of them.
fn leading<T>(column: &[T], rows: usize) -> &[T]
    ensures { result.now ≡ take rows column.now }
{
    column.get(..rows).unwrap_or(column)
}

fn refused(stage: Stage, number: u32, place: usize) -> Result<i64, Refusal>
    ensures { result ≡ refusal_at stage number place }
{
    Err(Refusal {
        stage,
        number,
        place: place as u64,
    })
}

// The bound, or 201 to 209.
fn table_stage(reply: Result<i64, TableFault>) -> Result<i64, Refusal>
    ensures { result ≡ of_answer (table_meaning reply) }
{
    match reply {
        Ok(bound) => Ok(bound),
        Err(fault) => {
            let refusal = fault.refusal();
            refused(Stage::Table, refusal.number, refusal.place)
        }
    }
}

// The loops, after the columns of good blocks; then the table. `Tables` cannot hold the blocks alone: it has columns of loops too.
fn loops_stage(
    header_row: bool,
    files: Files,
    loops: &[u8],
    cost: &[u32],
    innermost: &[u16],
    first: &[u16],
    second: &[u16],
    figure: &[i64],
) -> Result<i64, Refusal>
    ensures { result ≡ loops_stage header_row files loops.now (with_loops cost.now innermost.now first.now second.now figure.now) }
{
    let Files::Both = files else {
        return refused(Stage::Loops, 107, 2);
    };
    let mut p = [0u16; MOST_LOOPS];
    let mut h = [0u16; MOST_LOOPS];
    let mut l = [0u32; MOST_LOOPS];
    let mut m = [0u64; MOST_LOOPS];
    let read = tables::read_loops(loops, header_row, &mut p, &mut h, &mut l, &mut m);
    match read {
        Err(fault) => refused(Stage::Loops, fault.number(), fault.place()),
        Ok(rows) => table_stage(certificate::check(&Tables {
            cost,
            loops: innermost,
            first,
            second,
            figure,
            parent: leading(&p, rows.count),
            header: leading(&h, rows.count),
            limit: leading(&l, rows.count),
            multiplier: leading(&m, rows.count),
        })),
    }
}

// The blocks, and what comes after them.
fn blocks_stage(header_row: bool, files: Files, blocks: &[u8], loops: &[u8]) -> Result<i64, Refusal>
    ensures { result ≡ blocks_stage header_row files blocks.now loops.now }
{
    if let Files::Neither = files {
        return refused(Stage::Blocks, 107, 1);
    }
    let mut cost = [0u32; MOST_BLOCKS];
    let mut innermost = [0u16; MOST_BLOCKS];
    let mut first = [0u16; MOST_BLOCKS];
    let mut second = [0u16; MOST_BLOCKS];
    let mut figure = [0i64; MOST_BLOCKS];
    let read = tables::read_blocks(
        blocks,
        header_row,
        &mut cost,
        &mut innermost,
        &mut first,
        &mut second,
        &mut figure,
    );
    match read {
        Err(fault) => refused(Stage::Blocks, fault.number(), fault.place()),
        Ok(rows) => loops_stage(
            header_row,
            files,
            loops,
            leading(&cost, rows.count),
            leading(&innermost, rows.count),
            leading(&first, rows.count),
            leading(&second, rows.count),
            leading(&figure, rows.count),
        ),
    }
}

// The outcome: setting, blocks, loops, table in turn.
pub fn outcome_of(setting: &[u8], files: Files, blocks: &[u8], loops: &[u8]) -> Result<i64, Refusal>
    ensures { result ≡ outcome_of setting.now files blocks.now loops.now }
{
    match header_of(setting) {
        Some(header_row) => blocks_stage(header_row, files, blocks, loops),
        None => refused(Stage::Setting, 100, 0),
    }
}

// ---- the order in which files are opened

// The file that the outcome names as unreadable (107), if it names one.
pub fn wanted_by(outcome: Result<i64, Refusal>) -> Wanted
    ensures { result ≡ wanted_by outcome }
{
    match outcome {
        Err(refusal) if refusal.number == 107 => match refusal.stage {
            Stage::Blocks => Wanted::Blocks,
            Stage::Loops => Wanted::Loops,
            Stage::Setting | Stage::Table => Wanted::Nothing,
        },
        _ => Wanted::Nothing,
    }
}
