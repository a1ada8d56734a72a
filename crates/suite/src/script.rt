// The cases are lines of text: what to run, a name, the reply that it must have, and what it is run on, with a bar between them.
use crate::library;
use crate::running::{
    check_answers, dump_answers, mps_answers, read_pair, shortest_answers, solve_answers,
    table_answers, tally_answers, walk_answers,
};
use cases::keeping::lent;
use cases::lines::{Kind, Line, number_of};
use cases::tables::{Pair, Sizes};
use cases::tally::{Answers, Tally};
use cases::walks;
use pieces::part;
use std::alloc::{AllocError, Global};

// One block more than a walk may have. Of a longer one only these are made.
const MOST_BLOCKS: usize = 1048577;

// The blocks of a written walk; those behind them do not count.
const MOST_WRITTEN_BLOCKS: usize = 512;

// blocks | loops | target of a program; blocks | loops | nested or flat | .. | back
fn sizes_of(line: Line<'_>) -> Sizes {
    let of_program = line.starts_with(b'p');
    let blocks = line.number(3).unwrap_or_default();
    let third = line.field(5);
    Sizes {
        blocks,
        loops: line.number(4).unwrap_or_default(),
        nested: matches!(third, [b'n', ..]),
        back: if of_program {
            blocks.saturating_sub(1)
        } else {
            line.number(7).unwrap_or_default()
        },
        of_program,
        target: if of_program { number_of(third) } else { 0 },
    }
}

// A pair of tables by its size. A field says which column has one row less.
fn made_pair(alloc: Global, line: Line<'_>, shorter: usize) -> Result<Pair, AllocError> {
    let sizes = sizes_of(line);
    let mut pair = Pair::lent(alloc, sizes.blocks, sizes.loops)?;
    sizes.fill_pair(&mut pair);
    if let Some(column) = line.number(shorter) {
        pair.shorten(column);
    }
    Ok(pair)
}

// The walk of a line, written or by its length.
fn walk_of(alloc: Global, line: Line<'_>, kind: Kind) -> Result<Vec<u16>, AllocError> {
    let length = line.number(5).unwrap_or_default();
    let mut blocks = match kind {
        Kind::Run | Kind::Circle => lent(alloc, length.min(MOST_BLOCKS))?,
        _ => lent(alloc, MOST_WRITTEN_BLOCKS)?,
    };
    match kind {
        Kind::Run => walks::run(length, &mut blocks),
        Kind::Circle => walks::circle(length, &mut blocks),
        _ => {
            let count = walks::written(line.field(5), &mut blocks);
            blocks.truncate(count);
        }
    }
    Ok(blocks)
}

fn answers_to(alloc: Global, line: Line<'_>) -> Result<Answers, AllocError> {
    let kind = line.kind();
    match kind {
        Kind::Blocks => table_answers(alloc, line, library::read_blocks),
        Kind::Loops => table_answers(alloc, line, library::read_loops),
        Kind::Tables => Ok(check_answers(&read_pair(alloc, line)?)),
        Kind::Sized => Ok(check_answers(&made_pair(alloc, line, 6)?)),
        Kind::Walk | Kind::Run => {
            let blocks = walk_of(alloc, line, kind)?;
            Ok(walk_answers(&read_pair(alloc, line)?, &blocks))
        }
        Kind::Visits | Kind::Circle => {
            let blocks = walk_of(alloc, line, kind)?;
            tally_answers(alloc, line, &read_pair(alloc, line)?, &blocks)
        }
        Kind::Dump => dump_answers(alloc, line, &read_pair(alloc, line)?),
        Kind::Solve => solve_answers(alloc, line, read_pair(alloc, line)?),
        Kind::Mps => {
            let pair = read_pair(alloc, line)?;
            if line.starts_with(b'm') {
                mps_answers(alloc, &pair, line.field(5), line.field(6))
            } else {
                mps_answers(alloc, &pair, line.field(6), b"")
            }
        }
        Kind::Program => mps_answers(alloc, &made_pair(alloc, line, 7)?, line.field(6), b""),
        Kind::Shortest => shortest_answers(alloc, &read_pair(alloc, line)?, line.rest(5)),
        Kind::Fastest => shortest_answers(alloc, &made_pair(alloc, line, 6)?, line.rest(8)),
    }
}

// Runs every case of the text. A line ends with LF, and what stands behind the last one is no line. A line that starts with # is a heading.
pub fn run<R: Print + AllocGlobal>(rt: &R, text: &[u8]) -> Result<Tally, AllocError> {
    let mut tally = Tally::default();
    let Some(end) = text.iter().rposition(|b| *b == b'\n') else {
        return Ok(tally);
    };
    for line in part(text, 0, end).split(|b| *b == b'\n') {
        let line = Line::new(line);
        if !line.starts_with(b'#') {
            let answers = answers_to(rt.alloc(), line)?;
            tally.tell(rt, line.field(1), answers, line.field(2));
        }
    }
    Ok(tally)
}
