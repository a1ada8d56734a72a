// A run, block by block: its state, and what one block more makes of it. No limit plays a part here: the checker of a walk asks for the limit
// after a step, and the tally of a recording counts after it.
#![tactic(auto)]

ghost use Rattle.std.specs.Prelude.{◌≡◌, true, ◌||◌, ◌≤◌, ◌<◌, eqb, length, get_or};
ghost use Rattle.limits.specs.Limits.{most_loops, longest_walk};
ghost use Rattle.stepping.specs.Step.{run_refusal_of, first_numbers, visits_after, header_visits, counts_after, first_run, edge_answer, entry_answer, end_answer, step_columns, Stands, Steps};

use limits::{LONGEST_WALK, MOST_LOOPS};
use loopsets::Sets;
use nesting::{Refusal, Tables};

// A number for each loop.
pub type Numbers = [u32; MOST_LOOPS];

// Where a run stands: its block, the cost of its blocks, and the visits to the header that it stands at in the present stay, 0 where it stands at no
// header. The visits to each loop's header are lent beside it, a number for each loop. A loop that is not around the block stands at 0, whatever
// its number is: nothing is cleared when a loop is left, and the number is not read until the header is visited from outside, which sets it to 1.
// The order of the fields is for speed: in another one the compiler keeps the block and the tag of a fault in one word, and parts them at each step.
#[derive(Clone, Copy)]
pub struct Run {
    pub visits: u32,
    pub at: usize,
    pub cost: u64,
}

// Why a list of blocks is no finished run, with the index of the block: 301 to 303, 311, 312 and 314.
#[derive(Clone, Copy, PartialEq, Eq)]
pub enum RunFault {
    Length,
    NoBlock(usize),
    NotEntry,
    AfterExit(usize),
    NoEdge(usize),
    Unfinished(usize),
}

impl RunFault {
    // The number and the place of the refusal.
    pub fn refusal(self) -> Refusal
        ensures { result ≡ run_refusal_of self }
    {
        let (number, place) = match self {
            RunFault::Length => (301, 0),
            RunFault::NoBlock(i) => (302, i),
            RunFault::NotEntry => (303, 0),
            RunFault::AfterExit(i) => (311, i),
            RunFault::NoEdge(i) => (312, i),
            RunFault::Unfinished(n) => (314, n),
        };
        Refusal { number, place }
    }
}

// The numbers at the first block, block 0: 1 for loop 0, and 0 for every other loop.
pub fn first_numbers() -> Numbers
    ensures { result ≡ first_numbers }
{
    let mut numbers = [0u32; MOST_LOOPS];
    numbers[0] = 1;
    numbers
}

// Counts a visit to a header: one more, or the first of a stay where the step comes from outside.
fn count_on(count: &mut u32, inside: bool) -> u32
    requires { inside ≡ true → count.old ≤ longest_walk }
    ensures { (result ≡ visits_after count.old inside) × (count.new ≡ result) }
{
    let visits = if inside { *count + 1 } else { 1 };
    *count = visits;
    visits
}

// Counts a step to a block whose innermost loop is l. The answer is the visits to the loop's header in this stay, where the block is the header,
// and 0 where it is no header.
fn visit(counts: &mut Numbers, l: usize, heading: bool, inside: bool) -> u32
    requires { (l < most_loops) × (inside ≡ true → get_or counts.old l 0 ≤ longest_walk) }
    ensures { (result ≡ header_visits (get_or counts.old l 0) heading inside) × (counts.new ≡ counts_after counts.old l result) }
{
    if heading {
        count_on(&mut counts[l], inside)
    } else {
        0
    }
}

// Whether one of the two successors of block u is v.
fn has_edge(first: &[u16], second: &[u16], u: usize, v: u16) -> bool
    requires { (u < length first.now) × (u < length second.now) }
    ensures { result ≡ (eqb (get_or first.now u 0) v || eqb (get_or second.now u 0) v) }
{
    first[u] == v || second[u] == v
}

// What 302, 311 and 312 say of a step from one block to another, which has index i, in a routine of n blocks.
#[tactic(auto, unfolding(crate::specs::Step::edge_answer))]
fn edge_answer(
    n: usize,
    first: &[u16],
    second: &[u16],
    from: usize,
    i: usize,
    v: u16,
) -> Result<(), RunFault>
    requires { (0 < n) × (from < length first.now) × (from < length second.now) }
    ensures { result ≡ edge_answer n (get_or first.now from 0) (get_or second.now from 0) from i v }
{
    if n <= v as usize {
        return Err(RunFault::NoBlock(i));
    }
    if from == n - 1 {
        return Err(RunFault::AfterExit(i));
    }
    if !has_edge(first, second, from, v) {
        return Err(RunFault::NoEdge(i));
    }
    Ok(())
}

impl Run {
    // At the first block, block 0: the first visit to the header of loop 0.
    pub fn start(cost: u32) -> Run
        ensures { result ≡ first_run cost }
    {
        Run {
            visits: 1,
            at: 0,
            cost: cost as u64,
        }
    }

    // One block more, v at index i of the list. The answer is around the state: a refusal has none, and counts nothing.
    pub fn step(
        mut self,
        counts: &mut Numbers,
        tables: &Tables<'_>,
        around: &Sets,
        i: usize,
        v: u16,
    ) -> Result<Run, RunFault>
        requires { Stands (step_columns tables.now) around.now counts.old self }
        ensures { Steps (step_columns tables.now) around.now counts.old self i v result counts.new }
    {
        let from = self.at;
        let to = v as usize;
        edge_answer(tables.cost.len(), tables.first, tables.second, from, i, v)?;
        self.cost += tables.cost[to] as u64;
        let l = tables.loops[to] as usize;
        let here = loopsets::set_at(around, tables.loops[from] as usize);
        let heading = tables.header[l] == v;
        self.visits = visit(counts, l, heading, here.contains(l));
        self.at = to;
        Ok(self)
    }

    // What 314 says of a run over a list of this length, in a routine of n blocks.
    #[tactic(auto, unfolding(crate::specs::Step::end_answer))]
    pub fn finish(self, n: usize, length: usize) -> Result<(), RunFault>
        requires { 0 < n }
        ensures { result ≡ end_answer self n length }
    {
        if self.at != n - 1 {
            return Err(RunFault::Unfinished(length));
        }
        Ok(())
    }
}

// What 301, 302 and 303 say of a list of blocks, in a routine of n blocks. There is a block, so block 0 is one.
#[tactic(auto, unfolding(crate::specs::Step::entry_answer))]
pub fn first_block(n: usize, blocks: &[u16]) -> Result<(), RunFault>
    requires { 0 < n }
    ensures { result ≡ entry_answer n blocks.now }
{
    if blocks.is_empty() || LONGEST_WALK < blocks.len() {
        return Err(RunFault::Length);
    }
    let entry = blocks[0] as usize;
    if entry == 0 {
        return Ok(());
    }
    if n <= entry {
        return Err(RunFault::NoBlock(0));
    }
    Err(RunFault::NotEntry)
}
