// The functions of the library, over the tables of a case, with answers in place of replies. They take the nine columns one by one: that is the C interface.
use cases::tables::{BlockColumns, LoopColumns, Pair};
use pieces::answers::{Accepted, Answer, LineEnd, Refusal};
use replies::Reply;
use second::shortest::Certificate;
use second::tables::Tables;

// What stands for a reply whose other fields are not 0: an answer that no case has.
const NO_ANSWER: Refusal = Refusal {
    number: 999,
    place: 0,
};

// What a reply says; `accepted` says it of the value and the field beside it.
fn answer<F: FnOnce(i64, u64) -> Option<Accepted>>(reply: Reply, accepted: F) -> Answer
    requires { F.IsAlwaysCallable accepted }
{
    match (reply.number, reply.value, reply.more) {
        (0, value, more) if reply.place == 0 => accepted(value, more).ok_or(NO_ANSWER),
        (number, 0, 0) => Err(Refusal {
            number,
            place: reply.place as usize,
        }),
        _ => Err(NO_ANSWER),
    }
}

fn value_answer(reply: Reply) -> Answer {
    answer(reply, |value, more| {
        (more == 0).then_some(Accepted::Value(value))
    })
}

fn walk_answer(reply: Reply) -> Answer {
    answer(reply, |cost, steps| {
        let steps = i64::try_from(steps).ok()?;
        Some(Accepted::Walk { cost, steps })
    })
}

fn table_answer(reply: Reply) -> Answer {
    answer(reply, |rows, ending| {
        let rows = usize::try_from(rows).ok()?;
        let line_end = match ending {
            0 => LineEnd::CrLf,
            1 => LineEnd::Lf,
            2 => LineEnd::TextEnd,
            _ => return None,
        };
        Some(Accepted::Table { rows, line_end })
    })
}

pub fn read_blocks(text: &[u8], header_row: bool, columns: &mut BlockColumns) -> Answer {
    table_answer(rolkeyda::rolkeyda_read_blocks(
        text,
        header_row,
        &mut columns.cost,
        &mut columns.inner,
        &mut columns.first,
        &mut columns.second,
        &mut columns.figure,
    ))
}

pub fn read_loops(text: &[u8], header_row: bool, columns: &mut LoopColumns) -> Answer {
    table_answer(rolkeyda::rolkeyda_read_loops(
        text,
        header_row,
        &mut columns.parent,
        &mut columns.header,
        &mut columns.limit,
        &mut columns.multiplier,
    ))
}

pub fn check(t: &Tables<'_>) -> Answer {
    value_answer(rolkeyda::rolkeyda_check(
        t.cost,
        t.inner,
        t.first,
        t.second,
        t.figure,
        t.parent,
        t.header,
        t.limit,
        t.multiplier,
    ))
}

pub fn shortest(t: &Tables<'_>, low: &Certificate<'_>) -> Answer {
    value_answer(rolkeyda::rolkeyda_shortest(
        t.cost,
        t.inner,
        t.first,
        t.second,
        t.figure,
        t.parent,
        t.header,
        t.limit,
        t.multiplier,
        low.figure,
        low.multiplier,
        low.least,
    ))
}

pub fn walk(t: &Tables<'_>, blocks: &[u16]) -> Answer {
    walk_answer(rolkeyda::rolkeyda_walk(
        t.cost,
        t.inner,
        t.first,
        t.second,
        t.figure,
        t.parent,
        t.header,
        t.limit,
        t.multiplier,
        blocks,
    ))
}

pub fn tally(t: &Tables<'_>, blocks: &[u16], stays: &mut [u32], greatest: &mut [u32]) -> Answer {
    value_answer(rolkeyda::rolkeyda_tally(
        t.cost,
        t.inner,
        t.first,
        t.second,
        t.figure,
        t.parent,
        t.header,
        t.limit,
        t.multiplier,
        blocks,
        stays,
        greatest,
    ))
}

pub fn vcd(t: &Tables<'_>, text: &[u8], code: &[u8], blocks: &mut [u16]) -> Answer {
    value_answer(rolkeyda::rolkeyda_vcd(
        t.cost,
        t.inner,
        t.first,
        t.second,
        t.figure,
        t.parent,
        t.header,
        t.limit,
        t.multiplier,
        text,
        code,
        blocks,
    ))
}

pub fn mps(t: &Tables<'_>, text: &mut [u8]) -> Answer {
    value_answer(rolkeyda::rolkeyda_mps(
        t.cost,
        t.inner,
        t.first,
        t.second,
        t.figure,
        t.parent,
        t.header,
        t.limit,
        t.multiplier,
        text,
    ))
}

// Remakes the figures and the multipliers.
pub fn solve(pair: &mut Pair) -> Answer {
    value_answer(rolkeyda::rolkeyda_solve(
        &pair.blocks.cost,
        &pair.blocks.inner,
        &pair.blocks.first,
        &pair.blocks.second,
        &mut pair.blocks.figure,
        &pair.loops.parent,
        &pair.loops.header,
        &pair.loops.limit,
        &mut pair.loops.multiplier,
    ))
}
