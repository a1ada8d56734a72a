// The second certificate: 451 to 453 after the rules of its tables, and the lower bound of a routine. Its columns are claims, as the tables'
// own figures and multipliers are, and are never believed.
#![tactic(auto)]

ghost use Rattle.std.specs.Prelude.{◌≡◌, not, ◌&&◌, ◌||◌, [], ◌≤◌, ◌<◌, false, length};
ghost use Rattle.limits.specs.Limits.{most_blocks, most_loops};
ghost use Rattle.lists.specs.Search.{first_below};
ghost use Rattle.wcet.specs.Rules.{refused, sized, structure_rules};
ghost use Rattle.wcet.specs.Shortest.{low_sizes_wrong, low_loop_wrong, low_figure_wrong, shortest_reply};
ghost use Rattle.wcet.specs.Claim.{AllHold, ShortestChecked};
ghost use Rattle.loopsets.specs.Sets.{sets_around};
ghost use Rattle.nesting.specs.Columns.{routine_of};
ghost use Rattle.shortest.specs.declared.ShortestFault.TheVariants.{Structure};
ghost use Rattle.shortest.specs.Answers.{low_certificate, certificate_of, shortest_meaning};

use certificate::AtLeast;
use loopsets::Sets;
use nesting::{Refusal, StructureFault, Tables};

// The second certificate in the three columns that a caller lends: of each block its figure, of each loop its multiplier and its least visits.
#[derive(Clone, Copy)]
pub struct LowCertificate<'a> {
    pub figure: &'a [i64],
    pub multiplier: &'a [u64],
    pub least: &'a [u32],
}

// The first broken rule: 201 to 207 as the structure check names them, 209, 451 at its loop, 452 at its block, or 453 at its source block.
#[derive(Clone, Copy, PartialEq, Eq)]
pub enum ShortestFault {
    Structure(StructureFault),
    UndeclaredLoop,
    Loop(usize),
    Figure(usize),
    Inequality(usize),
}

impl From<StructureFault> for ShortestFault {
    ghost from_gives = { λ fault result. result ≡ Structure fault };

    fn from(fault: StructureFault) -> Self {
        ShortestFault::Structure(fault)
    }
}

impl ShortestFault {
    // The number and the place of the refusal.
    pub fn refusal(self) -> Refusal
        ensures { refused result.number result.place ≡ shortest_meaning (Err self) }
    {
        let (number, place) = match self {
            ShortestFault::Structure(fault) => return fault.refusal(),
            ShortestFault::UndeclaredLoop => (209, 0),
            ShortestFault::Loop(l) => (451, l),
            ShortestFault::Figure(u) => (452, u),
            ShortestFault::Inequality(u) => (453, u),
        };
        Refusal { number, place }
    }
}

// ---- 201

// Whether a column of the certificate has another length than its table, of n blocks or m loops.
fn sizes_wrong(n: usize, m: usize, low: &LowCertificate<'_>) -> bool
    ensures { result ≡ not (sized n low.now.figure.now && sized m low.now.multiplier.now && sized m low.now.least.now) }
{
    low.figure.len() != n || low.multiplier.len() != m || low.least.len() != m
}

// ---- 451

// Whether the multiplier or the least visits of loop l are out of range.
#[tactic(auto, unfolding(wcet::specs::Shortest::low_loop_wrong))]
fn loop_wrong(low: &LowCertificate<'_>, l: usize) -> bool
    requires { (l < length low.now.multiplier.now) × (length low.now.multiplier.now ≤ most_loops) × (length low.now.least.now ≡ length low.now.multiplier.now) }
    ensures { result ≡ low_loop_wrong (certificate_of low.now) l }
{
    let (multiplier, least) = (low.multiplier[l], low.least[l]);
    if l == 0 {
        multiplier != 0 || least != 1
    } else {
        1099511627776 < multiplier || 65535 < least
    }
}

fn first_wrong_loop(low: &LowCertificate<'_>) -> Option<usize>
    requires { (length low.now.multiplier.now ≤ most_loops) × (length low.now.least.now ≡ length low.now.multiplier.now) }
    ensures { result ≡ first_below (length low.now.multiplier.now) (low_loop_wrong (certificate_of low.now)) }
{
    (0..low.multiplier.len()).find(|l| loop_wrong(low, *l))
}

// ---- 452

#[tactic(auto, unfolding(wcet::specs::Shortest::low_figure_wrong))]
fn figure_wrong(figure: &[i64], u: usize) -> bool
    requires { (u < length figure.now) × (length figure.now ≤ most_blocks) }
    ensures { result ≡ low_figure_wrong (low_certificate figure.now [] []) u }
{
    nesting::figure_wrong(figure[u])
}

fn first_wrong_figure(figure: &[i64]) -> Option<usize>
    requires { length figure.now ≤ most_blocks }
    ensures { result ≡ first_below (length figure.now) (low_figure_wrong (low_certificate figure.now [] [])) }
{
    (0..figure.len()).find(|u| figure_wrong(figure, *u))
}

// ---- the reply

// The reply to a certificate whose columns fit, for tables that pass 201 to 207 and whose loop sets are given: 209, 451, 452, 453 or the lower
// bound.
fn certify(
    around: &Sets,
    tables: &Tables<'_>,
    low: &LowCertificate<'_>,
) -> Result<i64, ShortestFault>
    requires { AllHold (structure_rules (routine_of tables.now)) × (around.now ≡ sets_around tables.now.parent.now) × (low_sizes_wrong (routine_of tables.now) (certificate_of low.now) ≡ false) }
    ensures { shortest_meaning result ≡ shortest_reply (routine_of tables.now) (certificate_of low.now) }
{
    let order = order::order_of(around, tables);
    if order.count < tables.cost.len() {
        return Err(ShortestFault::UndeclaredLoop);
    }
    if let Some(l) = first_wrong_loop(low) {
        return Err(ShortestFault::Loop(l));
    }
    if let Some(u) = first_wrong_figure(low.figure) {
        return Err(ShortestFault::Figure(u));
    }
    let claimed = Tables {
        figure: low.figure,
        limit: low.least,
        multiplier: low.multiplier,
        ..*tables
    };
    if let Some(u) = certificate::first_broken::<AtLeast>(around, &claimed) {
        return Err(ShortestFault::Inequality(u));
    }
    Ok(certificate::bound_at_exit(tables.cost, low.figure))
}

// The reply to a second certificate of a pair of tables: the lower bound of the routine, or the first broken rule. With it comes what an
// accepted number means for every finished run.
pub fn shortest(tables: &Tables<'_>, low: &LowCertificate<'_>) -> Result<i64, ShortestFault>
    ensures { ShortestChecked (routine_of tables.now) (certificate_of low.now) (shortest_meaning result) }
{
    if sizes_wrong(tables.cost.len(), tables.parent.len(), low) {
        return Err(ShortestFault::Structure(StructureFault::Sizes));
    }
    let around = nesting::check_structure(tables)?;
    certify(&around, tables, low)
}
