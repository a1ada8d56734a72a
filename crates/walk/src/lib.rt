// A walk (a trace of blocks) through a routine: accepted exactly where it is a finished counted run, with its cost. A step is a few word
// operations, and stores one count at most.
#![tactic(auto)]

ghost use Rattle.std.specs.Prelude.{◌≡◌, ◌<◌, ltb, length, get_or};
ghost use Rattle.wcet.specs.Rules.{refused};
ghost use Rattle.wcet.specs.Claim.{WalkChecked};
ghost use Rattle.nesting.specs.Columns.{routine_of};
ghost use Rattle.stepping.specs.Step.{Walkable};
ghost use Rattle.walk.specs.Reply.{meaning, reply_to_walk};

use loopsets::Sets;
use nesting::{Refusal, StructureFault, Tables};
use stepping::{Run, RunFault};

// The cost of an accepted walk, and its step count.
#[derive(Clone, Copy, PartialEq, Eq)]
pub struct Walked {
    pub cost: u64,
    pub steps: usize,
}

// Why a walk is refused: the tables, the list of blocks, or at an index the limit of a loop.
#[derive(Clone, Copy, PartialEq, Eq)]
pub enum WalkFault {
    Structure(StructureFault),
    Run(RunFault),
    OverLimit(usize),
}

impl From<StructureFault> for WalkFault {
    ghost use Rattle.walk.specs.declared.WalkFault.TheVariants.{Structure};

    ghost from_gives = { λ fault r. r ≡ Structure fault };

    fn from(fault: StructureFault) -> WalkFault {
        WalkFault::Structure(fault)
    }
}

impl From<RunFault> for WalkFault {
    ghost use Rattle.walk.specs.declared.WalkFault.TheVariants.{Run};

    ghost from_gives = { λ fault r. r ≡ Run fault };

    fn from(fault: RunFault) -> WalkFault {
        WalkFault::Run(fault)
    }
}

impl WalkFault {
    // The number and the place of the refusal.
    pub fn refusal(self) -> Refusal
        ensures { refused result.number result.place ≡ meaning (Err self) }
    {
        match self {
            WalkFault::Structure(fault) => fault.refusal(),
            WalkFault::Run(fault) => fault.refusal(),
            WalkFault::OverLimit(i) => Refusal {
                number: 313,
                place: i,
            },
        }
    }
}

// Whether a step to block v, which ends with these visits to a header, passes the limit of the block's loop. A step to a block that is no header
// has 0 visits, which pass no limit.
fn passes(loops: &[u16], limit: &[u32], v: u16, visits: u32) -> bool
    requires { (v < length loops.now) × (get_or loops.now v 0 < length limit.now) }
    ensures { result ≡ ltb (get_or limit.now (get_or loops.now v 0) 0) visits }
{
    limit[loops[v as usize] as usize] < visits
}

// The reply to a walk over tables that keep 201 to 207: 301, then the first block, then the others. The tally of a recording has such a loop too. One loop
// for both would take a trait for what follows a step, with its ghost state and laws, and two impls: more than the loop.
fn follow(tables: &Tables<'_>, around: &Sets, blocks: &[u16]) -> Result<Walked, WalkFault>
    requires { Walkable (routine_of tables.now) around.now }
    ensures { meaning result ≡ reply_to_walk (routine_of tables.now) blocks.now }
{
    let n = tables.cost.len();
    stepping::first_block(n, blocks)?;
    let mut counts = stepping::first_numbers();
    let mut run = Run::start(tables.cost[0]);
    for i in 1..blocks.len() {
        let v = blocks[i];
        run = run.step(&mut counts, tables, around, i, v)?;
        if passes(tables.loops, tables.limit, v, run.visits) {
            return Err(WalkFault::OverLimit(i));
        }
    }
    run.finish(n, blocks.len())?;
    let cost = run.cost;
    let steps = blocks.len() - 1;
    Ok(Walked { cost, steps })
}

// The reply to a walk: 201 to 207 first, then 301 and the blocks.
pub fn walk(tables: &Tables<'_>, blocks: &[u16]) -> Result<Walked, WalkFault>
    ensures { WalkChecked (routine_of tables.now) blocks.now (meaning result) }
{
    let around = nesting::check_structure(tables)?;
    follow(tables, &around, blocks)
}
