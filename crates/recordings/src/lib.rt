// The walk that a recording of a logic analyser gives (document 02, §8): the changed values of one vector, in a lent buffer.
#![tactic(auto)]

ghost use Rattle.std.specs.Prelude.{◌≡◌, Err, [], ◌++◌, ◌≤◌, ◌<◌, length, drop};
ghost use Rattle.limits.specs.Limits.{most_text_bytes};
ghost use Rattle.wcet.specs.Table.{edge};
ghost use Rattle.wcet.specs.Rules.{refused};
ghost use Rattle.nesting.specs.Columns.{routine_of, edge_columns};
ghost use Rattle.vcd.specs.Recording.{recorded, most_changes, Recorded};
ghost use Rattle.recordings.specs.declared.VcdFault.TheVariants.{Structure, Word};
ghost use Rattle.recordings.specs.Answers.{vcd_meaning, first_self_edge, Begins, GatheredBy, TextRecorded};

use commands::{BadWord, Command};
use nesting::{Refusal, StructureFault, Tables};

// The first refusal of a recording: 201 to 207 as the structure check names them, 431 at its block, 101, or 432 or 433 at its byte.
#[derive(Clone, Copy, PartialEq, Eq)]
pub enum VcdFault {
    Structure(StructureFault),
    SelfEdge(usize),
    TextLength,
    Word(usize),
    NoPlace(usize),
}

impl From<StructureFault> for VcdFault {
    ghost from_gives = { λ fault result. result ≡ Structure fault };

    fn from(fault: StructureFault) -> Self {
        VcdFault::Structure(fault)
    }
}

impl From<BadWord> for VcdFault {
    ghost from_gives = { λ bad result. result ≡ Word bad.0 };

    fn from(bad: BadWord) -> Self {
        VcdFault::Word(bad.0)
    }
}

impl VcdFault {
    // The number and the place that it has in the reply.
    pub fn refusal(self) -> Refusal
        ensures { refused result.number result.place ≡ vcd_meaning (Err self) }
    {
        let (number, place) = match self {
            VcdFault::Structure(fault) => return fault.refusal(),
            VcdFault::SelfEdge(u) => (431, u),
            VcdFault::TextLength => (101, 0),
            VcdFault::Word(place) => (432, place),
            VcdFault::NoPlace(place) => (433, place),
        };
        Refusal { number, place }
    }
}

// A text of 65,536 bytes has no more values: a change takes at least four bytes and one that parts it from the next.
const MOST_CHANGES: usize = 13107;

// ---- 431

// Whether a block is one of its own successors.
#[tactic(auto, unfolding(wcet::specs::Table::edge, wcet::specs::Table::some_edge))]
fn names_itself(first: &[u16], second: &[u16], u: usize) -> bool
    requires { (u < length first.now) × (u < length second.now) × (u < 65535) }
    ensures { result ≡ edge (edge_columns [] first.now second.now) u u }
{
    first[u] as usize == u || second[u] as usize == u
}

// The lowest block with an edge to itself.
fn first_self_edge(first: &[u16], second: &[u16]) -> Option<usize>
    requires { (length first.now ≡ length second.now) × (length first.now ≤ 65535) }
    ensures { result ≡ first_self_edge first.now second.now }
{
    (0..first.len()).find(|u| names_itself(first, second, *u))
}

// ---- the text

// One pass over the commands from a place on: each changed value into its place of `found`, up to the first refusal. The count of the values.
// Compiled alone it keeps the text and the places in registers.
#[inline(never)]
fn gather(
    text: &[u8],
    at: usize,
    code: &[u8],
    room: usize,
    found: &mut [u16],
) -> Result<usize, VcdFault>
    requires { Begins code.now text.now at found.old }
    ensures { GatheredBy (recorded code.now room text.now) room found.new result }
{
    let mut dump = false;
    // The values stand in an array that the caller made, since there is no heap. The last one is read there.
    let mut count = 0;
    let mut p = at;
    loop {
        match commands::command_at(text, p, code, dump)? {
            Command::Passed { to, dump: on } => {
                p = to;
                dump = on;
            }
            Command::Value { value, place, to } => {
                if count == 0 || found[count - 1] != value {
                    if count >= room {
                        return Err(VcdFault::NoPlace(place));
                    }
                    found[count] = value;
                    count += 1;
                }
                p = to;
            }
            Command::Ended => return Ok(count),
        }
    }
}

// The commands from a place on, read into the buffer.
fn read_body(
    text: &[u8],
    at: usize,
    code: &[u8],
    blocks: &mut [u16],
    found: &mut [u16],
) -> Result<usize, VcdFault>
    requires { Begins code.now text.now at found.old }
    ensures { TextRecorded text.now code.now blocks.old (vcd_meaning result) blocks.new }
{
    let count = gather(text, at, code, blocks.len(), found)?;
    blocks[..count].copy_from_slice(&found[..count]);
    Ok(count)
}

// The text, read into the buffer.
fn read_text(
    text: &[u8],
    code: &[u8],
    blocks: &mut [u16],
    found: &mut [u16],
) -> Result<usize, VcdFault>
    requires { (length text.now ≤ most_text_bytes) × (length found.old ≡ most_changes) }
    ensures { TextRecorded text.now code.now blocks.old (vcd_meaning result) blocks.new }
{
    let at = declarations::body_of(text, code)?;
    read_body(text, at, code, blocks, found)
}

// The same, with an array that keeps the values until the whole text is accepted.
fn read_recording(text: &[u8], code: &[u8], blocks: &mut [u16]) -> Result<usize, VcdFault>
    requires { length text.now ≤ most_text_bytes }
    ensures { TextRecorded text.now code.now blocks.old (vcd_meaning result) blocks.new }
{
    let mut found = [0u16; MOST_CHANGES];
    read_text(text, code, blocks, &mut found)
}

// The count of changed values of the vector that `code` names, which are then in the first places of the buffer; or the first refusal: 201 to 207, 431,
// 101, then 432 or 433 at the lowest byte, and the buffer stays as it was.
pub fn vcd(
    tables: &Tables<'_>,
    text: &[u8],
    code: &[u8],
    blocks: &mut [u16],
) -> Result<usize, VcdFault>
    ensures { Recorded (routine_of tables.now) text.now code.now blocks.old (vcd_meaning result) blocks.new }
{
    nesting::check_structure(tables)?;
    if let Some(u) = first_self_edge(tables.first, tables.second) {
        return Err(VcdFault::SelfEdge(u));
    }
    if text.len() > limits::MOST_TEXT_BYTES {
        return Err(VcdFault::TextLength);
    }
    read_recording(text, code, blocks)
}
