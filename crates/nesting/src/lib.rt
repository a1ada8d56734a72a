// Rules 201 to 207: whether two tables have the sizes, the ranges and the loop nesting that the later checks rely on. For each rule a function
// finds the lowest place that breaks it.
#![tactic(auto)]

ghost use Rattle.std.specs.Prelude.{◌≡◌, not, ◌&&◌, ◌||◌, ◌^◌, ◌≤◌, ◌<◌, eqb, ltb, pos, neg_ℤ, length};
ghost use Rattle.std.specs.Int.Signed.{lt_z};
ghost use Rattle.limits.specs.Limits.{most_loops};
ghost use Rattle.lists.specs.Search.{first_below};
ghost use Rattle.wcet.specs.Table.{block_count, loop_count};
ghost use Rattle.wcet.specs.Rules.{out_of_range, sizes_wrong, loop_wrong, block_wrong, header_elsewhere, entry_or_exit_edge};
ghost use Rattle.nesting.specs.Columns.{routine_of, block_sizes_wrong, loop_sizes_wrong, BlocksSized, LoopsSized, HeadersNamed, Innermost, Linked, Nestable, Names, of_edge, deep_by_sets, past_by_sets, any_past_by_sets};
ghost use Rattle.nesting.specs.Answers.{refusal_of, StructureChecked, NestingChecked};

use limits::{MOST_BLOCKS, MOST_DEPTH, MOST_LOOPS};
use loopsets::Sets;

// The two tables of a routine in the columns that a caller lends. Of each block: its cost, its innermost loop, its two successors (65,535 is a missing
// one) and its figure. Of each loop: its parent, its header, its limit and its multiplier. A scan over all blocks begins with a copy of the struct, by which
// the columns' places stay in registers: behind the reference they are loaded anew at each block.
#[derive(Clone, Copy)]
pub struct Tables<'a> {
    pub cost: &'a [u32],
    pub loops: &'a [u16],
    pub first: &'a [u16],
    pub second: &'a [u16],
    pub figure: &'a [i64],
    pub parent: &'a [u16],
    pub header: &'a [u16],
    pub limit: &'a [u32],
    pub multiplier: &'a [u64],
}

// The first broken rule, 201 to 207 in this order, with its place.
#[derive(Clone, Copy, PartialEq, Eq)]
pub enum StructureFault {
    Sizes,
    Loop(usize),
    Block(usize),
    Header(usize),
    Depth(usize),
    EntryOrExit(usize),
    PastHeader(usize),
}

// The number and the place that a refusal has.
#[derive(Clone, Copy, PartialEq, Eq)]
pub struct Refusal {
    pub number: u32,
    pub place: usize,
}

impl StructureFault {
    pub fn refusal(self) -> Refusal
        ensures { result ≡ refusal_of self }
    {
        let (number, place) = match self {
            StructureFault::Sizes => (201, 0),
            StructureFault::Loop(l) => (202, l),
            StructureFault::Block(u) => (203, u),
            StructureFault::Header(l) => (204, l),
            StructureFault::Depth(l) => (205, l),
            StructureFault::EntryOrExit(u) => (206, u),
            StructureFault::PastHeader(u) => (207, u),
        };
        Refusal { number, place }
    }
}

// ---- 201

fn block_sizes_wrong(tables: &Tables<'_>) -> bool
    ensures { result ≡ block_sizes_wrong (routine_of tables.now) }
{
    let n = tables.cost.len();
    !(2..=MOST_BLOCKS).contains(&n)
        || tables.loops.len() != n
        || tables.first.len() != n
        || tables.second.len() != n
        || tables.figure.len() != n
}

fn loop_sizes_wrong(tables: &Tables<'_>) -> bool
    ensures { result ≡ loop_sizes_wrong (routine_of tables.now) }
{
    let m = tables.parent.len();
    !(1..=MOST_LOOPS).contains(&m)
        || tables.header.len() != m
        || tables.limit.len() != m
        || tables.multiplier.len() != m
}

fn sizes_wrong(tables: &Tables<'_>) -> bool
    ensures { result ≡ sizes_wrong (routine_of tables.now) }
{
    block_sizes_wrong(tables) || loop_sizes_wrong(tables)
}

// ---- 202

// Whether a value of loop 0 differs from that of the whole routine, entered once.
fn root_wrong(parent: u16, header: u16, limit: u32, multiplier: u64) -> bool
    ensures { result ≡ not (eqb parent 0 && eqb header 0 && eqb limit 1 && eqb multiplier 0) }
{
    parent != 0 || header != 0 || limit != 1 || multiplier != 0
}

// Whether a value of loop l, from 1 up, is out of its range among n blocks.
fn inner_wrong(l: usize, n: usize, parent: u16, header: u16, limit: u32, multiplier: u64) -> bool
    ensures { result ≡ (not (ltb parent l) || not (ltb header n) || out_of_range 1 65535 limit || ltb (2 ^ 40) multiplier) }
{
    l <= parent as usize
        || n <= header as usize
        || limit < 1
        || 65535 < limit
        || 1099511627776 < multiplier
}

// Whether a value of loop l is out of its range.
#[tactic(auto, unfolding(wcet::specs::Rules::loop_wrong))]
fn loop_wrong(tables: &Tables<'_>, l: usize) -> bool
    requires { LoopsSized (routine_of tables.now) × (l < loop_count (routine_of tables.now)) }
    ensures { result ≡ loop_wrong (routine_of tables.now) l }
{
    let (parent, header) = (tables.parent[l], tables.header[l]);
    let (limit, multiplier) = (tables.limit[l], tables.multiplier[l]);
    if l == 0 {
        root_wrong(parent, header, limit, multiplier)
    } else {
        inner_wrong(l, tables.cost.len(), parent, header, limit, multiplier)
    }
}

fn first_wrong_loop(tables: &Tables<'_>) -> Option<usize>
    requires { LoopsSized (routine_of tables.now) }
    ensures { result ≡ first_below (loop_count (routine_of tables.now)) (loop_wrong (routine_of tables.now)) }
{
    (0..tables.parent.len()).find(|l| loop_wrong(tables, *l))
}

// ---- 203

// Whether a successor is present and names none of n blocks.
fn no_block(v: u16, n: usize) -> bool
    ensures { result ≡ of_edge v (λ x. not (ltb x n)) }
{
    v != 65535 && n <= v as usize
}

// Whether a figure is outside −2^60 to 2^60.
pub fn figure_wrong(z: i64) -> bool
    ensures { result ≡ (lt_z z (neg_ℤ (pos (2 ^ 60))) || lt_z (pos (2 ^ 60)) z) }
{
    z < -1152921504606846976 || 1152921504606846976 < z
}

// Whether a value of block u is out of its range.
#[tactic(auto, unfolding(wcet::specs::Rules::block_wrong, wcet::specs::Table::some_edge))]
fn block_wrong(tables: &Tables<'_>, u: usize) -> bool
    requires { BlocksSized (routine_of tables.now) × (u < block_count (routine_of tables.now)) }
    ensures { result ≡ block_wrong (routine_of tables.now) u }
{
    let n = tables.cost.len();
    1000000 < tables.cost[u]
        || tables.parent.len() <= tables.loops[u] as usize
        || no_block(tables.first[u], n)
        || no_block(tables.second[u], n)
        || figure_wrong(tables.figure[u])
}

fn first_wrong_block(tables: &Tables<'_>) -> Option<usize>
    requires { BlocksSized (routine_of tables.now) }
    ensures { result ≡ first_below (block_count (routine_of tables.now)) (block_wrong (routine_of tables.now)) }
{
    let tables = *tables;
    (0..tables.cost.len()).find(|u| block_wrong(&tables, *u))
}

// ---- 204

// Whether the innermost loop of loop l's header is another loop.
#[tactic(auto, unfolding(wcet::specs::Rules::header_elsewhere))]
fn header_elsewhere(tables: &Tables<'_>, l: usize) -> bool
    requires { HeadersNamed (routine_of tables.now) × (l < loop_count (routine_of tables.now)) }
    ensures { result ≡ header_elsewhere (routine_of tables.now) l }
{
    let h = tables.header[l] as usize;
    tables.loops[h] as usize != l
}

fn first_header_elsewhere(tables: &Tables<'_>) -> Option<usize>
    requires { HeadersNamed (routine_of tables.now) }
    ensures { result ≡ first_below (loop_count (routine_of tables.now)) (header_elsewhere (routine_of tables.now)) }
{
    (0..tables.parent.len()).find(|l| header_elsewhere(tables, *l))
}

// ---- 205

fn first_too_deep(around: &Sets, m: usize) -> Option<usize>
    requires { m ≤ most_loops }
    ensures { result ≡ first_below m (deep_by_sets around.now) }
{
    (0..m).find(|l| MOST_DEPTH < loopsets::set_at(around, *l).size())
}

// ---- 206

// Whether an edge from block u leads into block 0 or out of the exit.
fn entry_or_exit(v: u16, u: usize, exit: usize) -> bool
    ensures { result ≡ of_edge v (λ x. eqb x 0 || eqb u exit) }
{
    v != 65535 && (v == 0 || u == exit)
}

// The same of both edges from block u.
#[tactic(auto, unfolding(wcet::specs::Rules::entry_or_exit_edge, wcet::specs::Table::some_edge))]
fn entry_or_exit_edge(tables: &Tables<'_>, u: usize) -> bool
    requires { Linked (block_count (routine_of tables.now)) tables.now.first.now tables.now.second.now × (u < block_count (routine_of tables.now)) }
    ensures { result ≡ entry_or_exit_edge (routine_of tables.now) u }
{
    let exit = tables.cost.len() - 1;
    entry_or_exit(tables.first[u], u, exit) || entry_or_exit(tables.second[u], u, exit)
}

fn first_entry_or_exit_edge(tables: &Tables<'_>) -> Option<usize>
    requires { Linked (block_count (routine_of tables.now)) tables.now.first.now tables.now.second.now }
    ensures { result ≡ first_below (block_count (routine_of tables.now)) (entry_or_exit_edge (routine_of tables.now)) }
{
    let tables = *tables;
    (0..tables.cost.len()).find(|u| entry_or_exit_edge(&tables, *u))
}

// ---- 207

// Whether an edge from block u to v enters a loop elsewhere than at its header. Within one innermost loop it enters none, and no set is
// looked at. Else it enters its target's innermost loop if it enters any, so it may enter that one, at its header, and no other.
#[tactic(auto, unfolding(crate::specs::Columns::past_by_sets))]
fn past_header(around: &Sets, tables: &Tables<'_>, u: usize, v: u16) -> bool
    requires { Innermost tables.now.loops.now tables.now.header.now × (u < length tables.now.loops.now) × Names (length tables.now.loops.now) v }
    ensures { result ≡ of_edge v (past_by_sets around.now tables.now.loops.now tables.now.header.now u) }
{
    if v == 65535 {
        return false;
    }
    let from = tables.loops[u] as usize;
    let to = tables.loops[v as usize] as usize;
    if from == to {
        return false;
    }
    let target = loopsets::set_at(around, to);
    let entered = target.without(loopsets::set_at(around, from)).size();
    entered != 0 && (entered != 1 || tables.header[to] != v)
}

// The same of both edges from block u.
#[tactic(auto, unfolding(wcet::specs::Table::some_edge))]
fn any_past_header(around: &Sets, tables: &Tables<'_>, u: usize) -> bool
    requires { Innermost tables.now.loops.now tables.now.header.now × Linked (length tables.now.loops.now) tables.now.first.now tables.now.second.now × (u < length tables.now.loops.now) }
    ensures { result ≡ any_past_by_sets around.now tables.now.loops.now tables.now.first.now tables.now.second.now tables.now.header.now u }
{
    past_header(around, tables, u, tables.first[u])
        || past_header(around, tables, u, tables.second[u])
}

fn first_past_header(around: &Sets, tables: &Tables<'_>) -> Option<usize>
    requires { Innermost tables.now.loops.now tables.now.header.now × Linked (length tables.now.loops.now) tables.now.first.now tables.now.second.now }
    ensures { result ≡ first_below (length tables.now.loops.now) (any_past_by_sets around.now tables.now.loops.now tables.now.first.now tables.now.second.now tables.now.header.now) }
{
    let tables = *tables;
    (0..tables.loops.len()).find(|u| any_past_header(around, &tables, *u))
}

// ---- 201 to 207

// 205 to 207, which are read off the sets of the loops around each loop.
fn check_nesting(tables: &Tables<'_>) -> Result<Sets, StructureFault>
    requires { Nestable (routine_of tables.now) }
    ensures { NestingChecked (routine_of tables.now) result }
{
    let around = loopsets::sets_around(tables.parent);
    if let Some(l) = first_too_deep(&around, tables.parent.len()) {
        return Err(StructureFault::Depth(l));
    }
    if let Some(u) = first_entry_or_exit_edge(tables) {
        return Err(StructureFault::EntryOrExit(u));
    }
    if let Some(u) = first_past_header(&around, tables) {
        return Err(StructureFault::PastHeader(u));
    }
    Ok(around)
}

// The structure check: the sets of the loops around each loop, made once for the checks that follow, or the first broken rule of 201 to 207.
pub fn check_structure(tables: &Tables<'_>) -> Result<Sets, StructureFault>
    ensures { StructureChecked (routine_of tables.now) result }
{
    if sizes_wrong(tables) {
        return Err(StructureFault::Sizes);
    }
    if let Some(l) = first_wrong_loop(tables) {
        return Err(StructureFault::Loop(l));
    }
    if let Some(u) = first_wrong_block(tables) {
        return Err(StructureFault::Block(u));
    }
    if let Some(l) = first_header_elsewhere(tables) {
        return Err(StructureFault::Header(l));
    }
    check_nesting(tables)
}
