// The certificate check: 209, by a topological order of the blocks; 208, the inequality of each edge, which serves 453 too; and the reply to a
// pair of tables.
// Figures and multipliers are claims, and are never believed: what an accepted bound means does not depend on who made them.
#![tactic(auto)]

ghost use Rattle.std.specs.Prelude.{◌≡◌, Bool, ◌^◌, ◌≤◌, ◌<◌, ℤ, pos, ◌+ℤ◌, ◌-ℤ◌, ◌*ℤ◌, length};
ghost use Rattle.std.specs.Int.Signed.{le_z};
ghost use Rattle.lists.specs.Search.{first_below};
ghost use Rattle.wcet.specs.Table.{block_count};
ghost use Rattle.wcet.specs.Rules.{refused, bound, structure_rules, table_reply};
ghost use Rattle.wcet.specs.Shortest.{inequality_by, ge_z};
ghost use Rattle.wcet.specs.Claim.{AllHold, Checked};
ghost use Rattle.loopsets.specs.Sets.{sets_around};
ghost use Rattle.nesting.specs.Columns.{routine_of, Names, Linked, of_edge};
ghost use Rattle.certificate.specs.Answers.{table_meaning};
ghost use Rattle.certificate.specs.declared.TableFault.TheVariants.{Structure};
ghost use Rattle.certificate.specs.Figures.{Figure};
ghost use Rattle.certificate.specs.Columns.{price_columns, Weighable, Priced, broken_by, any_broken_by};

use loopsets::Sets;
use nesting::{Refusal, StructureFault, Tables};

// The first broken rule: 201 to 207 as the structure check names them, 208 at its source block, or 209, which comes ahead of 208.
#[derive(Clone, Copy, PartialEq, Eq)]
pub enum TableFault {
    Structure(StructureFault),
    Inequality(usize),
    UndeclaredLoop,
}

impl From<StructureFault> for TableFault {
    ghost from_gives = { λ fault result. result ≡ Structure fault };

    fn from(fault: StructureFault) -> Self {
        TableFault::Structure(fault)
    }
}

impl TableFault {
    pub fn refusal(self) -> Refusal
        ensures { refused result.number result.place ≡ table_meaning (Err self) }
    {
        match self {
            TableFault::Structure(fault) => fault.refusal(),
            TableFault::Inequality(u) => Refusal {
                number: 208,
                place: u,
            },
            TableFault::UndeclaredLoop => Refusal {
                number: 209,
                place: 0,
            },
        }
    }
}

// Which way the inequalities are compared. The scan over the edges is compiled for each way alone.
pub trait Sense {
    ghost compare: { ℤ → ℤ → Bool };

    fn compares(x: i64, y: i64) -> bool
        ensures { result ≡ compare x y };
}

// For an upper bound.
#[derive(Clone, Copy)]
pub struct AtMost;

// Turned round, for a lower bound.
#[derive(Clone, Copy)]
pub struct AtLeast;

impl Sense for AtMost {
    ghost compare = { le_z };

    fn compares(x: i64, y: i64) -> bool {
        x <= y
    }
}

impl Sense for AtLeast {
    ghost compare = { ge_z };

    fn compares(x: i64, y: i64) -> bool {
        y <= x
    }
}

// ---- the inequality on numbers, in its three forms

// Of an edge to a block that is no header.
fn plain_holds<S: Sense>(cost: u32, from: i64, to: i64) -> bool
    requires { (cost ≤ 1000000) × Figure from × Figure to }
    ensures { result ≡ S.compare (pos cost) (from -ℤ to) }
{
    let d = from - to;
    S::compares(cost as i64, d)
}

// Of an edge back to a header from inside its loop.
fn return_holds<S: Sense>(cost: u32, from: i64, to: i64, multiplier: u64) -> bool
    requires { (cost ≤ 1000000) × Figure from × Figure to × (multiplier ≤ 2 ^ 40) }
    ensures { result ≡ S.compare (pos cost) (from -ℤ to +ℤ pos multiplier) }
{
    let d = from - to;
    S::compares(cost as i64, d + multiplier as i64)
}

// Of an edge to a header from outside its loop. Where no visit is asked for, visits less 1 is −1.
fn entry_holds<S: Sense>(cost: u32, from: i64, to: i64, multiplier: u64, visits: u32) -> bool
    requires { (cost ≤ 1000000) × Figure from × Figure to × (multiplier ≤ 2 ^ 40) × (visits ≤ 65535) }
    ensures { result ≡ S.compare (pos cost +ℤ pos multiplier *ℤ (pos visits -ℤ pos 1)) (from -ℤ to) }
{
    let d = from - to;
    let later = multiplier as i64 * (visits as i64 - 1);
    S::compares(cost as i64 + later, d)
}

// The form that applies: to a header or not, and from inside its loop or not.
#[tactic(auto, unfolding(wcet::specs::Shortest::inequality_by))]
fn inequality_holds<S: Sense>(
    headed: bool,
    inside: bool,
    cost: u32,
    from: i64,
    to: i64,
    multiplier: u64,
    visits: u32,
) -> bool
    requires { (cost ≤ 1000000) × Figure from × Figure to × (multiplier ≤ 2 ^ 40) × (visits ≤ 65535) }
    ensures { result ≡ inequality_by S.compare headed inside cost from to multiplier visits }
{
    if !headed {
        return plain_holds::<S>(cost, from, to);
    }
    if inside {
        return return_holds::<S>(cost, from, to, multiplier);
    }
    entry_holds::<S>(cost, from, to, multiplier, visits)
}

// Whether an edge from block u to v breaks its inequality.
#[tactic(auto, unfolding(crate::specs::Columns::broken_by))]
pub fn edge_broken<S: Sense>(around: &Sets, tables: &Tables<'_>, u: usize, v: u16) -> bool
    requires { Weighable (routine_of tables.now) × (u < block_count (routine_of tables.now)) × Names (block_count (routine_of tables.now)) v }
    ensures { result ≡ of_edge v (broken_by S.compare around.now (routine_of tables.now) u) }
{
    if v == 65535 {
        return false;
    }
    let to = v as usize;
    let l = tables.loops[to] as usize;
    let from = tables.loops[u] as usize;
    let inside = loopsets::set_at(around, from).contains(l);
    !inequality_holds::<S>(
        tables.header[l] == v,
        inside,
        tables.cost[to],
        tables.figure[u],
        tables.figure[to],
        tables.multiplier[l],
        tables.limit[l],
    )
}

// The same of either edge from block u.
#[tactic(auto, unfolding(wcet::specs::Table::some_edge))]
fn either_broken<S: Sense>(around: &Sets, tables: &Tables<'_>, u: usize) -> bool
    requires { Weighable (routine_of tables.now) × Linked (block_count (routine_of tables.now)) tables.now.first.now tables.now.second.now × (u < block_count (routine_of tables.now)) }
    ensures { result ≡ any_broken_by S.compare around.now (routine_of tables.now) u }
{
    edge_broken::<S>(around, tables, u, tables.first[u])
        || edge_broken::<S>(around, tables, u, tables.second[u])
}

// The lowest block from which an edge breaks its inequality: 208, or 453 where the figures, multipliers and limits are those of the second
// certificate, with the least visits for the limits.
pub fn first_broken<S: Sense>(around: &Sets, tables: &Tables<'_>) -> Option<usize>
    requires { Weighable (routine_of tables.now) × Linked (block_count (routine_of tables.now)) tables.now.first.now tables.now.second.now }
    ensures { result ≡ first_below (block_count (routine_of tables.now)) (any_broken_by S.compare around.now (routine_of tables.now)) }
{
    let tables = *tables;
    (0..tables.cost.len()).find(|u| either_broken::<S>(around, &tables, *u))
}

// ---- the reply

// The bound, at values in range.
fn bound_of(cost: u32, entry: i64, exit: i64) -> i64
    requires { (cost ≤ 1000000) × Figure entry × Figure exit }
    ensures { result ≡ pos cost +ℤ entry -ℤ exit }
{
    cost as i64 + entry - exit
}

pub fn bound_at_exit(cost: &[u32], figure: &[i64]) -> i64
    requires { Priced (price_columns cost.now figure.now) }
    ensures { result ≡ bound (price_columns cost.now figure.now) }
{
    let last = cost.len() - 1;
    let entry = figure[0];
    let exit = figure[last];
    bound_of(cost[0], entry, exit)
}

// The reply to tables that pass 201 to 207, whose loop sets are given: 209, 208 or the bound. 209 comes first: a cycle that no loop declares and
// that costs something breaks an inequality too, whatever the figures are.
fn certify(around: &Sets, tables: &Tables<'_>) -> Result<i64, TableFault>
    requires { AllHold (structure_rules (routine_of tables.now)) × (around.now ≡ sets_around tables.now.parent.now) }
    ensures { table_meaning result ≡ table_reply (routine_of tables.now) }
{
    let order = order::order_of(around, tables);
    if order.count < tables.cost.len() {
        return Err(TableFault::UndeclaredLoop);
    }
    if let Some(u) = first_broken::<AtMost>(around, tables) {
        return Err(TableFault::Inequality(u));
    }
    Ok(bound_at_exit(tables.cost, tables.figure))
}

// The reply to a pair of tables: its bound, or the first broken rule. With it comes what an accepted bound means for every list of blocks.
pub fn check(tables: &Tables<'_>) -> Result<i64, TableFault>
    ensures { Checked (routine_of tables.now) (table_meaning result) }
{
    let around = nesting::check_structure(tables)?;
    certify(&around, tables)
}
