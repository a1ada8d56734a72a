// The multipliers of a routine, remade: the greatest cost of a round of each loop, by one pass over the blocks for each nesting depth. Beside
// them the weights of the blocks, and for each loop the tails at its header, which the figures are made from.
#![tactic(auto)]

ghost use Rattle.std.specs.Prelude.{◌≡◌, ℕ, ◌+◌, ◌*◌, ◌-◌, ◌^◌, ◌≤◌, ◌<◌, pos, length, get_or, is_err};
ghost use Rattle.limits.specs.Limits.{most_blocks, most_loops, most_depth};
ghost use Rattle.optimum.specs.Columns.{or_default};
ghost use Rattle.tails.specs.Words.{word_of, Word, Low};
ghost use Rattle.tails.specs.Slots.{places};
ghost use Rattle.multipliers.specs.Columns.{kept_at, CostWeights, HeadersClosed, TailsKept, RoundsTaken, Readied, Multiplied};

use levels::Depths;
use limits::{MOST_BLOCKS, MOST_LOOPS};
use nesting::Tables;
use tails::{Edges, NO_TAIL, PLACES, Values, Words};

// For each loop its multiplier.
pub type Multipliers = [u64; MOST_LOOPS];

// The greatest multiplier, 2^40.
const MOST_MULTIPLIER: u64 = 1099511627776;

// A multiplier is over 2^40.
#[derive(Clone, Copy, PartialEq, Eq)]
pub struct MultiplierOver;

// ---- weights

// The weights of blocks that are no header.
fn cost_weights(cost: &[u32]) -> Words
    requires { length cost.now ≤ most_blocks }
    ensures { CostWeights cost.now result }
{
    let mut weights = [NO_TAIL; MOST_BLOCKS];
    for x in 0..cost.len() {
        weights[x] = i64::from(cost[x]);
    }
    weights
}

// The weights before any multiplier is made: none at the header of a loop, loop 0 apart.
pub fn first_weights(cost: &[u32], header: &[u16]) -> Words
    requires { (length cost.now ≤ most_blocks) × ((l : ℕ) → l < length header.now → get_or header.now l 0 < most_blocks) }
    ensures { HeadersClosed cost.now header.now result }
{
    let mut weights = cost_weights(cost);
    for l in 1..header.len() {
        let h = header[l] as usize;
        weights[h] = NO_TAIL;
    }
    weights
}

// The weight of an edge to the header of a loop: all rounds that the limit allows after the first visit are charged where the loop is entered.
fn entry_weight(cost: u32, multiplier: u64, limit: u32) -> i64
    requires { (cost ≤ 1000000) × (multiplier ≤ 2 ^ 40) × (1 ≤ limit) × (limit ≤ 65535) }
    ensures { (result ≡ pos (cost + multiplier * (limit - 1))) × Word result }
{
    (u64::from(cost) + multiplier * (u64::from(limit) - 1)) as i64
}

// ---- rounds

// A tail at a loop's header, 0 where there is none.
fn round_of(w: i64) -> u64
    ensures { result ≡ or_default 0 (word_of w) }
{
    u64::try_from(w).unwrap_or(0)
}

// Where the tail of a loop of depth d at the header of loop l is kept: 16 places for each loop, one for each depth.
pub fn kept_at(l: usize, d: u16) -> usize
    requires { (l < most_loops) × (1 ≤ d) × (d ≤ most_depth) }
    ensures { (result ≡ kept_at l d) × (result < most_blocks) }
{
    l * 16 + d as usize - 1
}

// Keeps the tails of the loops of depth d at the headers of the loops inside them, and of their own.
fn keep_tails(
    kept: &mut Words,
    values: &Values,
    edges: &Edges,
    header: &[u16],
    depths: &Depths,
    d: u16,
)
    requires { (length kept.old ≡ most_blocks) × (1 ≤ d) × (d ≤ most_depth) × (length header.now ≤ most_loops) × ((l : ℕ) → l < length header.now → (get_or header.now l 0 < most_blocks) × (get_or edges.now.firsts (get_or header.now l 0) 0 < places) × (get_or edges.now.seconds (get_or header.now l 0) 0 < places)) }
    ensures { TailsKept values.now edges.now.firsts edges.now.seconds header.now depths.now.each d kept.old kept.new }
{
    for l in 0..header.len() {
        if d <= depths.each[l] {
            kept[kept_at(l, d)] = edges.tail_of(values, header[l] as usize);
        }
    }
}

// The multipliers of the loops of depth d, from the tails at their headers, and the weights of these headers. `made`, `weights` and `kept` are no
// struct: each function would have to promise that it leaves the other two as they were.
fn take_rounds(
    made: &mut Multipliers,
    weights: &mut Words,
    kept: &Words,
    tables: &Tables<'_>,
    depths: &Depths,
    d: u16,
) -> Result<(), MultiplierOver>
    requires { (length made.old ≡ most_loops) × (length weights.old ≡ most_blocks) × (1 ≤ d) × (d ≤ most_depth) × (length tables.now.header.now ≤ most_loops) × (length tables.now.limit.now ≡ length tables.now.header.now) × (length tables.now.cost.now ≤ most_blocks) × ((l : ℕ) → l < length tables.now.header.now → (get_or tables.now.header.now l 0 < length tables.now.cost.now) × (1 ≤ get_or tables.now.limit.now l 0) × (get_or tables.now.limit.now l 0 ≤ 65535)) × ((x : ℕ) → x < length tables.now.cost.now → get_or tables.now.cost.now x 0 ≤ 1000000) }
    ensures { RoundsTaken kept.now tables.now.cost.now tables.now.header.now tables.now.limit.now depths.now.each d made.old weights.old (is_err result) made.new weights.new }
{
    for l in 0..tables.header.len() {
        if depths.each[l] == d {
            let k = round_of(kept[kept_at(l, d)]);
            if MOST_MULTIPLIER < k {
                return Err(MultiplierOver);
            }
            made[l] = k;
            let h = tables.header[l] as usize;
            weights[h] = entry_weight(tables.cost[h], k, tables.limit[l]);
        }
    }
    Ok(())
}

// The multipliers of all loops but loop 0, which has none: depth by depth, the deepest first, since a round of a loop passes through the loops
// inside it. Where one is over 2^40, the others are not made.
pub fn remake_multipliers(
    made: &mut Multipliers,
    weights: &mut Words,
    kept: &mut Words,
    tables: &Tables<'_>,
    depths: &Depths,
    edges: &Edges,
) -> Result<(), MultiplierOver>
    requires { Readied tables.now.cost.now tables.now.header.now tables.now.limit.now depths.now.most edges.now.firsts edges.now.seconds edges.now.order × (length made.old ≡ most_loops) × ((l : ℕ) → get_or made.old l 0 ≡ 0) × (length kept.old ≡ most_blocks) × Low kept.old × HeadersClosed tables.now.cost.now tables.now.header.now weights.old }
    ensures { Multiplied tables.now.cost.now tables.now.header.now tables.now.limit.now depths.now.each depths.now.most edges.now.firsts edges.now.seconds edges.now.order (is_err result) made.new weights.new kept.new }
{
    let mut values = [NO_TAIL; PLACES];
    for d in (1..=depths.most).rev() {
        tails::set_gates(&mut values, tables.cost, tables.header, depths, d);
        tails::fill_values(&mut values, weights, edges, tables.cost.len());
        keep_tails(kept, &values, edges, tables.header, depths, d);
        if 1 < d {
            take_rounds(made, weights, kept, tables, depths, d)?;
        }
    }
    Ok(())
}
