// The tails of all loops of one nesting depth, in words that stop at a cap, by one pass over the blocks. The tail of a loop at a block inside it
// is the greatest weight of a path from there to the loop's header; of loop 0, to the exit.
//
// Each edge has a slot, the place where its value stands: that of its target, or for a back edge the gate of the loop that it returns to. A pass
// opens the gates of the loops of its depth only, and nothing passes the header of a loop whose multiplier is not made yet: its weight is none.
// So a pass needs no test of which loop a block is in. Mispredicted branches would cost more than all else.
#![tactic(auto)]

ghost use Rattle.std.specs.Prelude.{◌≡◌, ℕ, ◌-◌, ◌≤◌, ◌<◌, eqb, pos, length, get_or};
ghost use Rattle.limits.specs.Limits.{most_blocks, most_loops};
ghost use Rattle.lists.specs.Search.{when◌then◌else◌};
ghost use Rattle.nesting.specs.Columns.{Names, Innermost};
ghost use Rattle.tails.specs.Words.{most_tail, no_tail, word_of, greater_of, more_capped, Word, Low};
ghost use Rattle.tails.specs.Slots.{places, slot_by_sets, SlotsOf, Slotted};
ghost use Rattle.tails.specs.Passes.{GatesSet, Filled};

use levels::Depths;
use limits::{MOST_BLOCKS, MOST_LOOPS};
use loopsets::Sets;
use nesting::Tables;

// No tail. It is below every tail, so that the greater of two words is the greater tail. (An Option for each word would double the arrays of a pass,
// and its tests are branches.)
pub const NO_TAIL: i64 = -1;

// The cap, 2^61: this tail or a greater one.
const MOST_TAIL: i64 = 2305843009213693952;

// A place for each block, a gate for each loop, and one that is always empty.
pub const PLACES: usize = MOST_BLOCKS + MOST_LOOPS + 1;

const NOWHERE: u16 = 1088;

// The gate of loop 0: the slot of the exit, from which no edge leads on.
const EXIT_GATE: u16 = 1024;

// A value for each place.
pub type Values = [i64; PLACES];

// The place of an edge of each block.
pub type Slots = [u16; MOST_BLOCKS];

// For each block a weight or a tail, or none.
pub type Words = [i64; MOST_BLOCKS];

// The slots of both edges of each block, and an order in which each block stands before those that its forward edges lead to.
#[derive(Drop)]
pub struct Edges {
    pub firsts: Slots,
    pub seconds: Slots,
    pub order: [u16; MOST_BLOCKS],
}

impl Edges {
    // The tail at block x after a pass: the greater of the values in its slots.
    #[tactic(auto, using(crate::proofs::Words::greater_max))]
    pub fn tail_of(&self, values: &Values, x: usize) -> i64
        requires { (x < most_blocks) × (get_or self.now.firsts x 0 < places) × (get_or self.now.seconds x 0 < places) }
        ensures { result ≡ greater_of (get_or values.now (get_or self.now.firsts x 0) (pos 0)) (get_or values.now (get_or self.now.seconds x 0) (pos 0)) }
    {
        let a = values[self.firsts[x] as usize];
        let b = values[self.seconds[x] as usize];
        a.max(b)
    }
}

// ---- words

// A tail and c more; none where either is none.
#[tactic(auto, using(crate::proofs::Words::word_sum, crate::proofs::Words::no_first, crate::proofs::Words::no_second))]
fn more(c: i64, w: i64) -> i64
    requires { Word c × Word w }
    ensures { (word_of result ≡ more_capped most_tail (word_of c) (word_of w)) × Word result }
{
    if c < 0 || w < 0 {
        return NO_TAIL;
    }
    (c + w).min(MOST_TAIL)
}

// ---- slots

// The slot of the edge from block x to its successor v.
#[tactic(auto, unfolding(crate::specs::Slots::slot_by_sets))]
fn slot_of(around: &Sets, tables: &Tables<'_>, x: usize, v: u16) -> u16
    requires { Innermost tables.now.loops.now tables.now.header.now × (x < length tables.now.loops.now) × Names (length tables.now.loops.now) v }
    ensures { result ≡ slot_by_sets around.now tables.now.loops.now tables.now.header.now x v }
{
    if v == 65535 {
        NOWHERE
    } else if order::back_edge(around, tables, x, v) {
        EXIT_GATE + tables.loops[v as usize]
    } else {
        v
    }
}

// The slots of the edges to the first or to the second successors.
pub fn slots_of(around: &Sets, tables: &Tables<'_>, next: &[u16]) -> Slots
    requires { Innermost tables.now.loops.now tables.now.header.now × (length tables.now.loops.now ≤ most_blocks) × (0 < length tables.now.loops.now) × (length next.now ≡ length tables.now.loops.now) × ((x : ℕ) → x < length tables.now.loops.now → Names (length tables.now.loops.now) (get_or next.now x 0)) }
    ensures { SlotsOf around.now tables.now.loops.now tables.now.header.now next.now result }
{
    let mut slots = [NOWHERE; MOST_BLOCKS];
    let n = tables.loops.len();
    for x in 0..n {
        slots[x] = slot_of(around, tables, x, next[x]);
    }
    slots[n - 1] = EXIT_GATE;
    slots
}

// ---- a pass

// The value of a gate: the cost of the loop's header where the loop is of depth d, for loop 0 no cost.
fn gate(l: usize, depth: u16, d: u16, cost: u32) -> i64
    ensures { result ≡ (when eqb depth d then (when eqb l 0 then pos 0 else pos cost) else no_tail) }
{
    if depth != d {
        return NO_TAIL;
    }
    if l == 0 { 0 } else { i64::from(cost) }
}

// Opens the gates of the loops of depth d, and closes the others.
pub fn set_gates(values: &mut Values, cost: &[u32], header: &[u16], depths: &Depths, d: u16)
    requires { (length values.old ≡ places) × (length header.now ≤ most_loops) × ((l : ℕ) → l < length header.now → get_or header.now l 0 < length cost.now) }
    ensures { GatesSet cost.now header.now depths.now.each d values.old values.new }
{
    for l in 0..header.len() {
        let h = header[l] as usize;
        values[MOST_BLOCKS + l] = gate(l, depths.each[l], d, cost[h]);
    }
}

// The values of n blocks: from the last in the order to the first, so that each block comes after those that its forward edges lead to. The value
// of a block is its tail and its weight.
pub fn fill_values(values: &mut Values, weights: &Words, edges: &Edges, n: usize)
    requires { (length values.old ≡ places) × Low values.old × Low weights.now × Slotted n edges.now.firsts edges.now.seconds edges.now.order }
    ensures { Filled weights.now edges.now.firsts edges.now.seconds edges.now.order n values.old values.new }
{
    for i in (0..n).rev() {
        let x = edges.order[i] as usize;
        let w = edges.tail_of(values, x);
        values[x] = more(weights[x], w);
    }
}
