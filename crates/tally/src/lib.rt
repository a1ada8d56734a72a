// What a recorded walk shows of each loop (document 02, §7): the number of stays, and the greatest number of visits to its header in one stay.
#![tactic(auto)]

ghost use Rattle.std.specs.Prelude.{◌≡◌, ◌≤◌, ◌<◌, length};
ghost use Rattle.limits.specs.Limits.{most_loops};
ghost use Rattle.wcet.specs.Rules.{refused};
ghost use Rattle.wcet.specs.Tally.{Tallied};
ghost use Rattle.nesting.specs.Columns.{routine_of};
ghost use Rattle.stepping.specs.Step.{Walkable};
ghost use Rattle.tallies.specs.Tally.{first_tallies};
ghost use Rattle.tally.specs.Tally.{meaning, Follows, given, Filled};

use loopsets::Sets;
use nesting::{Refusal, StructureFault, Tables};
use stepping::{Run, RunFault};
use tallies::Tallies;

// Why a recording is refused: the tables, a lent column that has not a place for each loop, or the list of blocks.
#[derive(Clone, Copy, PartialEq, Eq)]
pub enum TallyFault {
    Structure(StructureFault),
    Columns,
    Run(RunFault),
}

impl From<StructureFault> for TallyFault {
    ghost use Rattle.tally.specs.declared.TallyFault.TheVariants.{Structure};

    ghost from_gives = { λ fault r. r ≡ Structure fault };

    fn from(fault: StructureFault) -> TallyFault {
        TallyFault::Structure(fault)
    }
}

impl From<RunFault> for TallyFault {
    ghost use Rattle.tally.specs.declared.TallyFault.TheVariants.{Run};

    ghost from_gives = { λ fault r. r ≡ Run fault };

    fn from(fault: RunFault) -> TallyFault {
        TallyFault::Run(fault)
    }
}

impl TallyFault {
    // The number and the place of the refusal.
    pub fn refusal(self) -> Refusal
        ensures { refused result.number result.place ≡ meaning (Err self) }
    {
        match self {
            TallyFault::Structure(fault) => fault.refusal(),
            TallyFault::Columns => Refusal {
                number: 421,
                place: 0,
            },
            TallyFault::Run(fault) => fault.refusal(),
        }
    }
}

// The tallies of a recording over tables that keep 201 to 207: 301, then the first block, then the others. A loop of its own beside that of a walk, as is
// said there. The tallies are lent: each copy of them would be 512 bytes of the stack.
fn follow(
    tables: &Tables<'_>,
    around: &Sets,
    blocks: &[u16],
    tallies: &mut Tallies,
) -> Result<(), TallyFault>
    requires { Walkable (routine_of tables.now) around.now × (tallies.old ≡ first_tallies) }
    ensures { Follows (routine_of tables.now) blocks.now (given result tallies.new) }
{
    let n = tables.cost.len();
    stepping::first_block(n, blocks)?;
    let mut counts = stepping::first_numbers();
    let mut run = Run::start(tables.cost[0]);
    for i in 1..blocks.len() {
        let v = blocks[i];
        run = run.step(&mut counts, tables, around, i, v)?;
        tallies::note_step(tallies, tables.loops, v, run.visits);
    }
    run.finish(n, blocks.len())?;
    Ok(())
}

// Writes the tallies of the first loops, as many as the two columns have places.
fn write(tallies: &Tallies, stays: &mut [u32], greatest: &mut [u32])
    requires { (length stays.old ≤ most_loops) × (length greatest.old ≡ length stays.old) }
    ensures { Filled tallies.now (length stays.old) stays.new greatest.new }
{
    for l in 0..stays.len() {
        stays[l] = tallies[l].stays;
        greatest[l] = tallies[l].greatest;
    }
}

// The step count of a recorded walk, and for each loop in the two lent columns the number of stays and the greatest number of header visits in
// one stay; or the first refusal: 201 to 207, 421, then 301 and the blocks. The lent columns are written last, where nothing is refused.
pub fn tally(
    tables: &Tables<'_>,
    blocks: &[u16],
    stays: &mut [u32],
    greatest: &mut [u32],
) -> Result<usize, TallyFault>
    ensures { Tallied (routine_of tables.now) blocks.now stays.old greatest.old (meaning result) stays.new greatest.new }
{
    let around = nesting::check_structure(tables)?;
    let m = tables.parent.len();
    if stays.len() != m || greatest.len() != m {
        return Err(TallyFault::Columns);
    }
    let mut tallies = tallies::first_tallies();
    follow(tables, &around, blocks, &mut tallies)?;
    write(&tallies, stays, greatest);
    Ok(blocks.len() - 1)
}
