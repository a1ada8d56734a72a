// The solver: remakes the figure and multiplier columns of a pair of tables, so that no certificate gives a smaller bound, or replies the first
// reason why it cannot: 201 to 207, 209, 401 to 403. Both columns are made in arrays, and written only when every value is in range.
#![tactic(auto)]

ghost use Rattle.std.specs.Prelude.{◌≡◌, List, ℕ, ◌≤◌, ◌<◌, ℤ, pos, length, get_or};
ghost use Rattle.limits.specs.Limits.{most_blocks, most_loops};
ghost use Rattle.wcet.specs.Rules.{refused, structure_rules};
ghost use Rattle.wcet.specs.Claim.{AllHold};
ghost use Rattle.loopsets.specs.Sets.{sets_around};
ghost use Rattle.nesting.specs.Columns.{routine, routine_of, Linked};
ghost use Rattle.exits.specs.Lost.{Listed};
ghost use Rattle.certificate.specs.Columns.{price_columns, Priced};
ghost use Rattle.multipliers.specs.Columns.{HeadersClosed};
ghost use Rattle.figures.specs.Figures.{no_figure};
ghost use Rattle.optimum.specs.Replies.{Solved};
ghost use Rattle.solver.specs.declared.SolveFault.TheVariants.{Structure, Multiplier, Figure};
ghost use Rattle.solver.specs.Answers.{solve_meaning};
ghost use Rattle.solver.specs.Columns.{Written, Solvable, Makeable, OutcomeOf, Headed, ColumnsMade, RemadeAs, Ended, RefusedAs};

use figures::{FigureOver, Figures, Heads, NO_FIGURE};
use limits::{MOST_BLOCKS, MOST_LOOPS};
use loopsets::Sets;
use multipliers::{MultiplierOver, Multipliers};
use nesting::{Refusal, StructureFault, Tables};
use tails::{Edges, NO_TAIL, PLACES, Words};

// The first broken rule: 201 to 207 as the structure check names them, 209, 401 at the lowest block without a path to the exit, 402 or 403.
#[derive(Clone, Copy, PartialEq, Eq)]
pub enum SolveFault {
    Structure(StructureFault),
    UndeclaredLoop,
    NoPath(usize),
    Multiplier,
    Figure,
}

impl From<StructureFault> for SolveFault {
    ghost from_gives = { λ fault result. result ≡ Structure fault };

    fn from(fault: StructureFault) -> Self {
        Self::Structure(fault)
    }
}

impl From<MultiplierOver> for SolveFault {
    ghost from_gives = { λ over result. result ≡ Multiplier };

    fn from(_over: MultiplierOver) -> Self {
        Self::Multiplier
    }
}

impl From<FigureOver> for SolveFault {
    ghost from_gives = { λ over result. result ≡ Figure };

    fn from(_over: FigureOver) -> Self {
        Self::Figure
    }
}

impl SolveFault {
    pub fn refusal(self) -> Refusal
        ensures { refused result.number result.place ≡ solve_meaning (Err self) }
    {
        let (number, place) = match self {
            SolveFault::Structure(fault) => return fault.refusal(),
            SolveFault::UndeclaredLoop => (209, 0),
            SolveFault::NoPath(u) => (401, u),
            SolveFault::Multiplier => (402, 0),
            SolveFault::Figure => (403, 0),
        };
        Refusal { number, place }
    }
}

// ---- the making of the columns

// All that goes by nesting depth: the multipliers, the weights by them, and the figures of the headers.
fn make_heads(
    heads: &mut Heads,
    made: &mut Multipliers,
    weights: &mut Words,
    tables: &Tables<'_>,
    edges: &Edges,
) -> Result<(), SolveFault>
    requires { Makeable (routine_of tables.now) edges.now.firsts edges.now.seconds edges.now.order × (length heads.old ≡ most_loops) × ((l : ℕ) → l < most_loops → get_or heads.old l (pos 0) ≡ no_figure) × (length made.old ≡ most_loops) × ((l : ℕ) → get_or made.old l 0 ≡ 0) × HeadersClosed tables.now.cost.now tables.now.header.now weights.old }
    ensures { OutcomeOf result (routine_of tables.now) (Headed (routine_of tables.now) made.new weights.new heads.new) }
{
    let depths = levels::depths_of(tables.parent);
    let mut kept = [NO_TAIL; MOST_BLOCKS];
    multipliers::remake_multipliers(made, weights, &mut kept, tables, &depths, edges)?;
    figures::head_figures(heads, tables.parent, &kept, made, &depths)?;
    Ok(())
}

// Both columns, in arrays.
fn make(
    figures: &mut Figures,
    made: &mut Multipliers,
    tables: &Tables<'_>,
    edges: &Edges,
) -> Result<(), SolveFault>
    requires { Makeable (routine_of tables.now) edges.now.firsts edges.now.seconds edges.now.order × (length figures.old ≡ most_blocks) × (length made.old ≡ most_loops) × ((l : ℕ) → get_or made.old l 0 ≡ 0) }
    ensures { OutcomeOf result (routine_of tables.now) (ColumnsMade (routine_of tables.now) figures.new made.new) }
{
    let mut weights = multipliers::first_weights(tables.cost, tables.header);
    let mut heads = [NO_FIGURE; MOST_LOOPS];
    make_heads(&mut heads, made, &mut weights, tables, edges)?;
    let mut values = [NO_FIGURE; PLACES];
    figures::set_gates(&mut values, tables.cost, tables.header, made, &heads);
    // The call is apart from its `?`, so that the goals of the proof do not depend on which call stands here.
    let filled = figures::fill_figures(figures, &mut values, &weights, edges, tables.cost.len());
    filled?;
    Ok(())
}

// ---- the reply

// 401 stands before 402 and 403. It is asked only here: where each block got a figure, each has a path to the exit.
fn refuse(tables: &Tables<'_>, order: &[u16; MOST_BLOCKS], later: SolveFault) -> SolveFault
    requires { (0 < length tables.now.first.now) × Linked (length tables.now.first.now) tables.now.first.now tables.now.second.now × Listed (length tables.now.first.now) order.now }
    ensures { RefusedAs tables.now.first.now tables.now.second.now later result }
{
    match exits::first_lost(tables.first, tables.second, order) {
        Some(u) => SolveFault::NoPath(u),
        None => later,
    }
}

// Both columns of tables that pass 201 to 207 and 209, or 401, 402 or 403.
fn remake(
    figures: &mut Figures,
    made: &mut Multipliers,
    tables: &Tables<'_>,
    around: &Sets,
    order: [u16; MOST_BLOCKS],
) -> Result<(), SolveFault>
    requires { Solvable (routine_of tables.now) around.now order × (length figures.old ≡ most_blocks) × (length made.old ≡ most_loops) × ((l : ℕ) → get_or made.old l 0 ≡ 0) }
    ensures { RemadeAs result (routine_of tables.now) figures.new made.new }
{
    let firsts = tails::slots_of(around, tables, tables.first);
    let seconds = tails::slots_of(around, tables, tables.second);
    let edges = Edges {
        firsts,
        seconds,
        order,
    };
    if let Err(later) = make(figures, made, tables, &edges) {
        return Err(refuse(tables, &edges.order, later));
    }
    Ok(())
}

// Both columns of tables that pass 201 to 207, whose loop sets are given; or 209, 401, 402 or 403.
fn solve_sound(
    figures: &mut Figures,
    made: &mut Multipliers,
    tables: &Tables<'_>,
    around: &Sets,
) -> Result<(), SolveFault>
    requires { AllHold (structure_rules (routine_of tables.now)) × (around.now ≡ sets_around tables.now.parent.now) × (length figures.old ≡ most_blocks) × (length made.old ≡ most_loops) × ((l : ℕ) → get_or made.old l 0 ≡ 0) }
    ensures { RemadeAs result (routine_of tables.now) figures.new made.new }
{
    let order = order::order_of(around, tables);
    if order.count < tables.cost.len() {
        return Err(SolveFault::UndeclaredLoop);
    }
    remake(figures, made, tables, around, order.blocks)
}

// Writes both columns, and returns the bound of the figures.
fn finish(
    cost: &[u32],
    figure: &mut [i64],
    multiplier: &mut [u64],
    figures: &Figures,
    made: &Multipliers,
) -> i64
    requires { (length figure.old ≤ most_blocks) × (length multiplier.old ≤ most_loops) × ((fs : List ℤ) → Written (pos 0) figures.now figure.old fs → Priced (price_columns cost.now fs)) }
    ensures { Ended cost.now figures.now figure.old made.now multiplier.old result figure.new multiplier.new }
{
    figure.copy_from_slice(&figures[..figure.len()]);
    multiplier.copy_from_slice(&made[..multiplier.len()]);
    certificate::bound_at_exit(cost, figure)
}

// The bound of the remade columns, which are then in place of the figures and multipliers; or the first broken rule, and both columns stay as
// they were. The contract also says what the columns and the bound mean (`Optimum`).
pub fn solve(
    cost: &[u32],
    loops: &[u16],
    first: &[u16],
    second: &[u16],
    figure: &mut [i64],
    parent: &[u16],
    header: &[u16],
    limit: &[u32],
    multiplier: &mut [u64],
) -> Result<i64, SolveFault>
    ensures { Solved (routine cost.now loops.now first.now second.now figure.old parent.now header.now limit.now multiplier.old) (solve_meaning result) figure.new multiplier.new }
{
    let tables = Tables {
        cost,
        loops,
        first,
        second,
        figure: &*figure,
        parent,
        header,
        limit,
        multiplier: &*multiplier,
    };
    let around = nesting::check_structure(&tables)?;
    let mut figures = [0i64; MOST_BLOCKS];
    let mut made = [0u64; MOST_LOOPS];
    // Apart from its `?`, as above.
    let remade = solve_sound(&mut figures, &mut made, &tables, &around);
    remade?;
    Ok(finish(cost, figure, multiplier, &figures, &made))
}
