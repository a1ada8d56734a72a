// The functions of the C library, which the crate `rolkeyda_c` exports: the readers, the table checker, the checker of a second certificate, the walk checker, the tally, the reader of recordings, the solver and the writer.
// Nothing is decided here; each function hands its answer over in the fields of the one reply struct. The columns come one by one, as the C
// functions take them.
#![tactic(auto)]

ghost use Rattle.nesting.specs.Columns.{routine};
ghost use Rattle.shortest.specs.Answers.{low_certificate};
ghost use Rattle.tables.specs.Columns.{blocks, loops};
ghost use Rattle.rolkeyda.specs.Replies.{TablesReplied, CertificateReplied, TablesSolved, TextReplied, WalkReplied, RecordingReplied, DumpReplied, BlocksReplied, LoopsReplied};

use nesting::Tables;
use replies::Reply;
use shortest::LowCertificate;

// Reads a block table into the columns. A refusal leaves them as they were.
pub fn rolkeyda_read_blocks(
    text: &[u8],
    header_row: bool,
    cost: &mut [u32],
    loops: &mut [u16],
    first: &mut [u16],
    second: &mut [u16],
    figure: &mut [i64],
) -> Reply
    ensures { BlocksReplied text.now header_row (blocks cost.old loops.old first.old second.old figure.old) result (blocks cost.new loops.new first.new second.new figure.new) }
{
    replies::read_reply(tables::read_blocks(text, header_row, cost, loops, first, second, figure))
}

// Reads a loop table into the columns. A refusal leaves them as they were.
pub fn rolkeyda_read_loops(
    text: &[u8],
    header_row: bool,
    parent: &mut [u16],
    header: &mut [u16],
    limit: &mut [u32],
    multiplier: &mut [u64],
) -> Reply
    ensures { LoopsReplied text.now header_row (loops parent.old header.old limit.old multiplier.old) result (loops parent.new header.new limit.new multiplier.new) }
{
    replies::read_reply(tables::read_loops(text, header_row, parent, header, limit, multiplier))
}

// The bound of a pair of tables, or the first broken rule.
pub fn rolkeyda_check(
    cost: &[u32],
    loops: &[u16],
    first: &[u16],
    second: &[u16],
    figure: &[i64],
    parent: &[u16],
    header: &[u16],
    limit: &[u32],
    multiplier: &[u64],
) -> Reply
    ensures { TablesReplied (routine cost.now loops.now first.now second.now figure.now parent.now header.now limit.now multiplier.now) result }
{
    let tables = Tables {
        cost,
        loops,
        first,
        second,
        figure,
        parent,
        header,
        limit,
        multiplier,
    };
    replies::table_reply(certificate::check(&tables))
}

// The lower bound of a routine by a second certificate, or the first broken rule.
pub fn rolkeyda_shortest(
    cost: &[u32],
    loops: &[u16],
    first: &[u16],
    second: &[u16],
    figure: &[i64],
    parent: &[u16],
    header: &[u16],
    limit: &[u32],
    multiplier: &[u64],
    low_figure: &[i64],
    low_multiplier: &[u64],
    least: &[u32],
) -> Reply
    ensures { CertificateReplied (routine cost.now loops.now first.now second.now figure.now parent.now header.now limit.now multiplier.now) (low_certificate low_figure.now low_multiplier.now least.now) result }
{
    let tables = Tables {
        cost,
        loops,
        first,
        second,
        figure,
        parent,
        header,
        limit,
        multiplier,
    };
    let low = LowCertificate {
        figure: low_figure,
        multiplier: low_multiplier,
        least,
    };
    replies::shortest_reply(shortest::shortest(&tables, &low))
}

// The cost and the steps of a walk, or what is wrong with it or with its tables.
pub fn rolkeyda_walk(
    cost: &[u32],
    loops: &[u16],
    first: &[u16],
    second: &[u16],
    figure: &[i64],
    parent: &[u16],
    header: &[u16],
    limit: &[u32],
    multiplier: &[u64],
    blocks: &[u16],
) -> Reply
    ensures { WalkReplied (routine cost.now loops.now first.now second.now figure.now parent.now header.now limit.now multiplier.now) blocks.now result }
{
    let tables = Tables {
        cost,
        loops,
        first,
        second,
        figure,
        parent,
        header,
        limit,
        multiplier,
    };
    replies::walk_reply(walk::walk(&tables, blocks))
}

// The step count of a recorded walk, and for each loop the number of stays and the greatest number of header visits in one stay; or what is wrong
// with the walk, with its tables or with the lent columns, which then stay as they were.
pub fn rolkeyda_tally(
    cost: &[u32],
    loops: &[u16],
    first: &[u16],
    second: &[u16],
    figure: &[i64],
    parent: &[u16],
    header: &[u16],
    limit: &[u32],
    multiplier: &[u64],
    blocks: &[u16],
    stays: &mut [u32],
    greatest: &mut [u32],
) -> Reply
    ensures { RecordingReplied (routine cost.now loops.now first.now second.now figure.now parent.now header.now limit.now multiplier.now) blocks.now stays.old greatest.old result stays.new greatest.new }
{
    let tables = Tables {
        cost,
        loops,
        first,
        second,
        figure,
        parent,
        header,
        limit,
        multiplier,
    };
    replies::tally_reply(tally::tally(&tables, blocks, stays, greatest))
}

// The changed values of the named vector of a recording, in the first places of the buffer, and their count; or what is wrong with the tables or the text, and
// the buffer stays as it was.
pub fn rolkeyda_vcd(
    cost: &[u32],
    loops: &[u16],
    first: &[u16],
    second: &[u16],
    figure: &[i64],
    parent: &[u16],
    header: &[u16],
    limit: &[u32],
    multiplier: &[u64],
    text: &[u8],
    code: &[u8],
    blocks: &mut [u16],
) -> Reply
    ensures { DumpReplied (routine cost.now loops.now first.now second.now figure.now parent.now header.now limit.now multiplier.now) text.now code.now blocks.old result blocks.new }
{
    let tables = Tables {
        cost,
        loops,
        first,
        second,
        figure,
        parent,
        header,
        limit,
        multiplier,
    };
    replies::vcd_reply(recordings::vcd(&tables, text, code, blocks))
}

// The bound of the remade figures and multipliers, which are then in place of the given ones; or the first broken rule, and both columns stay as
// they were.
pub fn rolkeyda_solve(
    cost: &[u32],
    loops: &[u16],
    first: &[u16],
    second: &[u16],
    figure: &mut [i64],
    parent: &[u16],
    header: &[u16],
    limit: &[u32],
    multiplier: &mut [u64],
) -> Reply
    ensures { TablesSolved (routine cost.now loops.now first.now second.now figure.old parent.now header.now limit.now multiplier.old) result figure.new multiplier.new }
{
    let answer = solver::solve(
        cost, loops, first, second, figure, parent, header, limit, multiplier,
    );
    replies::solve_reply(answer)
}

// Writes the program of the tables as MPS into the buffer. The value is the length of the text; a refusal leaves the buffer as it was.
pub fn rolkeyda_mps(
    cost: &[u32],
    loops: &[u16],
    first: &[u16],
    second: &[u16],
    figure: &[i64],
    parent: &[u16],
    header: &[u16],
    limit: &[u32],
    multiplier: &[u64],
    text: &mut [u8],
) -> Reply
    ensures { TextReplied (routine cost.now loops.now first.now second.now figure.now parent.now header.now limit.now multiplier.now) text.old result text.new }
{
    let tables = Tables {
        cost,
        loops,
        first,
        second,
        figure,
        parent,
        header,
        limit,
        multiplier,
    };
    replies::mps_reply(writer::mps(&tables, text))
}
