// The figures of a routine, remade: the smallest that meet all inequalities with its multipliers. First those of the headers, by the tails at
// them, depth by depth; then those of all blocks by one pass, since a block's figure is the greatest that one of its edges asks for.
#![tactic(auto)]

ghost use Rattle.std.specs.Prelude.{◌≡◌, ℕ, ◌+◌, ◌^◌, ◌≤◌, ◌<◌, eqb, pos, length, get_or, is_err, IfOk, ◌≤ℤ◌};
ghost use Rattle.std.specs.Int.Signed.{lt_z};
ghost use Rattle.limits.specs.Limits.{most_blocks, most_loops};
ghost use Rattle.wcet.specs.Rules.{figure_outside};
ghost use Rattle.optimum.specs.Tails.{best};
ghost use Rattle.optimum.specs.Columns.{from_exit, from_header};
ghost use Rattle.tails.specs.Words.{word_of, Word, Low};
ghost use Rattle.tails.specs.Slots.{places, Slotted};
ghost use Rattle.figures.specs.Figures.{no_figure, figure_of, Known, turn_of, HeadFits, ValuesFit, WeightFits};
ghost use Rattle.figures.specs.Columns.{Turnable, Turned, HeadsReadied, HeadsOf, GatesSet, FiguresFilled};

use levels::{Depths, NO_LOOP};
use limits::{MOST_BLOCKS, MOST_LOOPS};
use multipliers::{Multipliers, kept_at};
use tails::{Edges, Values, Words};

// For each loop the figure of its header, or none.
pub type Heads = [i64; MOST_LOOPS];

// For each block its figure.
pub type Figures = [i64; MOST_BLOCKS];

// No figure. It is below every figure, so that the greater of two words is the greater figure. (An Option for each word would double the arrays of a
// pass, and its tests are branches.)
pub const NO_FIGURE: i64 = -4611686018427387904;

// No figure is a number below −2^61: what is added to none in a pass stays none.
const LEAST_KNOWN: i64 = -2305843009213693952;

// The least figure, -2^60, and the greatest, 2^60.
const LEAST_FIGURE: i64 = -1152921504606846976;

const MOST_FIGURE: i64 = 1152921504606846976;

// A figure is outside its limits, or a block has none.
#[derive(Clone, Copy, PartialEq, Eq)]
pub struct FigureOver;

// ---- the figures of the headers

// A figure by a tail to the exit.
#[tactic(auto, using(crate::proofs::Signs::exit_none, crate::proofs::Signs::exit_some))]
fn from_exit(w: i64) -> i64
    requires { Word w }
    ensures { figure_of result ≡ from_exit (word_of w) }
{
    if w < 0 { NO_FIGURE } else { w }
}

// A figure by a tail of a loop with multiplier k, from the figure of the loop's header.
#[tactic(auto, using(crate::proofs::Signs::header_none, crate::proofs::Signs::head_none))]
fn from_header(k: u64, w: i64, head: i64) -> i64
    requires { (k ≤ 2 ^ 40) × Word w × Known head }
    ensures { figure_of result ≡ from_header k (word_of w) (figure_of head) }
{
    if w < 0 || head < LEAST_KNOWN {
        return NO_FIGURE;
    }
    w - k as i64 + head
}

// The greater of two figures.
fn higher(a: i64, b: i64) -> i64
    ensures { (figure_of result ≡ best lt_z (figure_of a) (figure_of b)) × (a ≤ℤ result) }
{
    a.max(b)
}

// The figure f of a header, unless it is over 2^60.
fn limited(f: i64) -> Result<i64, FigureOver>
    ensures over { is_err result ≡ lt_z (pos (2 ^ 60)) f }
    ensures same { IfOk result (λ v. v ≡ f) }
{
    if MOST_FIGURE < f {
        Err(FigureOver)
    } else {
        Ok(f)
    }
}

// What loop j, which is around loop l, gives to the figure of l's header, whose tail of j is w.
#[tactic(auto, using(crate::proofs::Signs::no_figure_lem), unfolding(crate::specs::Figures::turn_of))]
fn turn_at(heads: &Heads, made: &Multipliers, j: usize, l: usize, w: i64) -> i64
    requires { (j < most_loops) × Word w × (get_or made.now j 0 ≤ 2 ^ 40) × Known (get_or heads.now j (pos 0)) }
    ensures { figure_of result ≡ turn_of (eqb j 0) (eqb l j) (get_or made.now j 0) (word_of w) (figure_of (get_or heads.now j (pos 0))) }
{
    if j == 0 {
        from_exit(w)
    } else if l == j {
        NO_FIGURE
    } else {
        from_header(made[j], w, heads[j])
    }
}

// The turn of the m loops of a level of depth d: what each gives to the figures of the headers inside it.
fn take_turns(
    heads: &mut Heads,
    kept: &Words,
    made: &Multipliers,
    level: &[u16; MOST_LOOPS],
    d: u16,
    m: usize,
) -> Result<(), FigureOver>
    requires { Turnable made.now level.now d m heads.old × Low kept.now }
    ensures { Turned kept.now made.now level.now d m heads.old (is_err result) heads.new }
{
    for l in 0..m {
        let j = level[l];
        if j != NO_LOOP {
            let given = turn_at(heads, made, j as usize, l, kept[kept_at(l, d)]);
            heads[l] = limited(higher(heads[l], given))?;
        }
    }
    Ok(())
}

// The figures of the headers: depth by depth, loop 0 first, since the figure of a header inside a loop can come from that of the loop's header.
// Where one is over 2^60, the others are not made.
pub fn head_figures(
    heads: &mut Heads,
    parent: &[u16],
    kept: &Words,
    made: &Multipliers,
    depths: &Depths,
) -> Result<(), FigureOver>
    requires { HeadsReadied parent.now kept.now made.now depths.now.each depths.now.most × (length heads.old ≡ most_loops) × ((l : ℕ) → l < most_loops → get_or heads.old l (pos 0) ≡ no_figure) }
    ensures { HeadsOf parent.now kept.now made.now (is_err result) heads.new }
{
    for d in 1..=depths.most {
        let level = levels::level_of(parent, depths, d);
        take_turns(heads, kept, made, &level, d, parent.len())?;
    }
    Ok(())
}

// ---- the figures of all blocks

// The gates: what a back edge to the header of each loop asks for, and 0 at the gate of loop 0, the slot of the exit.
pub fn set_gates(
    values: &mut Values,
    cost: &[u32],
    header: &[u16],
    made: &Multipliers,
    heads: &Heads,
)
    requires { (length values.old ≡ places) × (length header.now ≤ most_loops) × ((l : ℕ) → l < length header.now → (get_or header.now l 0 < length cost.now) × (get_or made.now l 0 ≤ 2 ^ 40) × HeadFits (get_or heads.now l (pos 0))) }
    ensures { GatesSet cost.now header.now made.now heads.now values.old values.new }
{
    values[MOST_BLOCKS] = 0;
    for l in 1..header.len() {
        let h = header[l] as usize;
        values[MOST_BLOCKS + l] = i64::from(cost[h]) - made[l] as i64 + heads[l];
    }
}

// Whether a number is no figure within the limits of 203. (As `nesting::figure_wrong`, but with the limits by name, which edits in must-fail/ change.)
#[tactic(auto, unfolding(wcet::specs::Rules::figure_outside))]
fn outside(f: i64) -> bool
    ensures { result ≡ figure_outside f }
{
    !(LEAST_FIGURE..=MOST_FIGURE).contains(&f)
}

// The figures of n blocks: from the last in the order to the first. The value of a block is its figure and its weight. Where a figure is outside the
// limits, or a block has none, the others are not made.
pub fn fill_figures(
    figures: &mut Figures,
    values: &mut Values,
    weights: &Words,
    edges: &Edges,
    n: usize,
) -> Result<(), FigureOver>
    requires { (length figures.old ≡ most_blocks) × (length values.old ≡ places) × ValuesFit values.old × ((x : ℕ) → x < n → WeightFits (get_or weights.now x (pos 0))) × Slotted n edges.now.firsts edges.now.seconds edges.now.order }
    ensures { FiguresFilled weights.now edges.now.firsts edges.now.seconds edges.now.order n values.old (is_err result) figures.new }
{
    for i in (0..n).rev() {
        let x = edges.order[i] as usize;
        let f = edges.tail_of(values, x);
        if outside(f) {
            return Err(FigureOver);
        }
        figures[x] = f;
        values[x] = f + weights[x];
    }
    Ok(())
}
