// The blocks of a routine in a topological order of its forward edges, the edges that do not return to a header from inside the header's
// loop; or as many blocks as have a place in one. By counts of the incoming edges: a block is taken when its count falls to 0 (Kahn's
// algorithm). Blocks that are not taken lie on a cycle of forward edges, or can be reached from one: 209.
#![tactic(auto)]

ghost use Rattle.std.specs.Prelude.{◌≡◌, ◌*◌, ◌≤◌, ◌<◌, length};
ghost use Rattle.limits.specs.Limits.{most_blocks};
ghost use Rattle.nesting.specs.Columns.{Names, Innermost, Linked};
ghost use Rattle.order.specs.Ordering.{Orders};
ghost use Rattle.order.specs.Edges.{back_by_sets, target_by_sets, named_target, edge_target, Counted, Countable, one_more, Queue, Removable, Removed};

use limits::MOST_BLOCKS;
use loopsets::Sets;
use nesting::Tables;

// For each block the number of incoming forward edges that are not removed.
type Counts = [u16; MOST_BLOCKS];

// Blocks in the order in which they were taken.
type Blocks = [u16; MOST_BLOCKS];

// The blocks in the order in which they were taken, and how many there are.
#[derive(Clone, Copy)]
pub struct Order {
    pub blocks: Blocks,
    pub count: usize,
}

// Whether an edge from block u to v is a back edge: it returns to a header from inside that header's loop.
#[tactic(auto, unfolding(crate::specs::Edges::back_by_sets))]
pub fn back_edge(around: &Sets, tables: &Tables<'_>, u: usize, v: u16) -> bool
    requires { Innermost tables.now.loops.now tables.now.header.now × (u < length tables.now.loops.now) × (v < length tables.now.loops.now) }
    ensures { result ≡ back_by_sets around.now tables.now.loops.now tables.now.header.now u v }
{
    let l = tables.loops[v as usize] as usize;
    let from = tables.loops[u] as usize;
    tables.header[l] == v && loopsets::set_at(around, from).contains(l)
}

// The target of the forward edge from block u to its successor v, if there is one: none where the successor is missing or it is a back edge.
#[tactic(auto, using(crate::proofs::Edges::no_target, crate::proofs::Edges::a_target))]
fn forward_target(around: &Sets, tables: &Tables<'_>, u: usize, v: u16) -> Option<usize>
    requires { Innermost tables.now.loops.now tables.now.header.now × (u < length tables.now.loops.now) × Names (length tables.now.loops.now) v }
    ensures { result ≡ named_target (target_by_sets around.now tables.now.loops.now tables.now.header.now u v) }
{
    if v == 65535 || back_edge(around, tables, u, v) {
        None
    } else {
        Some(v as usize)
    }
}

// Counts the edge from block u to its successor v at its target, if it is a forward edge.
#[tactic(auto, using(crate::proofs::Edges::named_at, crate::proofs::Edges::named_none))]
fn count_edge(counts: &mut Counts, around: &Sets, tables: &Tables<'_>, u: usize, v: u16)
    requires { Innermost tables.now.loops.now tables.now.header.now × (u < length tables.now.loops.now) × Names (length tables.now.loops.now) v × Countable counts.old (target_by_sets around.now tables.now.loops.now tables.now.header.now u v) }
    ensures { counts.new ≡ one_more counts.old (target_by_sets around.now tables.now.loops.now tables.now.header.now u v) }
{
    if let Some(to) = forward_target(around, tables, u, v) {
        counts[to] += 1;
    }
}

// The incoming forward edges of each block. Document 02, §2: "The work marks for all 1,024 blocks are cleared before each check."
fn incoming_edges(around: &Sets, tables: &Tables<'_>) -> Counts
    requires { Innermost tables.now.loops.now tables.now.header.now × Linked (length tables.now.loops.now) tables.now.first.now tables.now.second.now }
    ensures { Counted (edge_target around.now tables.now.loops.now tables.now.first.now tables.now.second.now tables.now.header.now) (length tables.now.loops.now) result (2 * length tables.now.loops.now) }
{
    let tables = *tables;
    let mut counts = [0u16; MOST_BLOCKS];
    for u in 0..tables.loops.len() {
        count_edge(&mut counts, around, &tables, u, tables.first[u]);
        count_edge(&mut counts, around, &tables, u, tables.second[u]);
    }
    counts
}

// Puts the blocks without an incoming forward edge into the first places of `blocks`. Returns how many there are.
fn sources(counts: &Counts, blocks: &mut Blocks, n: usize) -> usize
    requires { (n ≤ most_blocks) × (length blocks.old ≡ most_blocks) }
    ensures { (length blocks.new ≡ most_blocks) × Queue counts.now blocks.new n result }
{
    let mut count = 0;
    for v in 0..n {
        if counts[v] == 0 {
            blocks[count] = v as u16;
            count += 1;
        }
    }
    count
}

// Removes the edge from block u to its successor v, if it is a forward edge. If it was the last one to its target, the target is taken.
// Returns the number of blocks taken.
#[tactic(auto, using(crate::proofs::Edges::named_at, crate::proofs::Edges::named_none))]
fn remove_edge(
    counts: &mut Counts,
    blocks: &mut Blocks,
    count: usize,
    around: &Sets,
    tables: &Tables<'_>,
    u: usize,
    v: u16,
) -> usize
    requires { Innermost tables.now.loops.now tables.now.header.now × (u < length tables.now.loops.now) × Names (length tables.now.loops.now) v × Removable counts.old count (target_by_sets around.now tables.now.loops.now tables.now.header.now u v) }
    ensures { Removed counts.old blocks.old count (target_by_sets around.now tables.now.loops.now tables.now.header.now u v) counts.new blocks.new result }
{
    let Some(to) = forward_target(around, tables, u, v) else {
        return count;
    };
    counts[to] -= 1;
    if counts[to] != 0 {
        return count;
    }
    blocks[count] = to as u16;
    count + 1
}

// The order, for tables that pass 201 to 207. `blocks` is also the queue: the outgoing edges of the blocks from place i on are still to be
// removed.
pub fn order_of(around: &Sets, tables: &Tables<'_>) -> Order
    requires { Innermost tables.now.loops.now tables.now.header.now × Linked (length tables.now.loops.now) tables.now.first.now tables.now.second.now }
    ensures { Orders around.now tables.now.loops.now tables.now.first.now tables.now.second.now tables.now.header.now result }
{
    let tables = *tables;
    let mut counts = incoming_edges(around, &tables);
    let mut blocks = [0u16; MOST_BLOCKS];
    let mut count = sources(&counts, &mut blocks, tables.loops.len());
    // Kept: the queue grows while it is read, so that no range or iterator over it has a fixed end.
    let mut i = 0;
    while i < count {
        let u = blocks[i] as usize;
        count = remove_edge(
            &mut counts,
            &mut blocks,
            count,
            around,
            &tables,
            u,
            tables.first[u],
        );
        count = remove_edge(
            &mut counts,
            &mut blocks,
            count,
            around,
            &tables,
            u,
            tables.second[u],
        );
        i += 1;
    }
    Order { blocks, count }
}
