// Rule 401: the lowest block without a path to the exit. The exit is marked, and then the blocks with an edge to a marked block, in passes over
// all blocks until a pass marks none.
#![tactic(auto)]

ghost use Rattle.std.specs.Prelude.{◌≡◌, not, ◌≤◌, ◌<◌, length};
ghost use Rattle.limits.specs.Limits.{most_blocks};
ghost use Rattle.lists.specs.Search.{first_below};
ghost use Rattle.nesting.specs.Columns.{Names, of_edge, Linked};
ghost use Rattle.exits.specs.Lost.{Listed, Lost};
ghost use Rattle.exits.specs.Marks.{link_columns, marked, can_mark, Passed, MarksPaths};

use limits::MOST_BLOCKS;

// The blocks that are known to have a path to the exit.
type Marks = [bool; MOST_BLOCKS];

// Whether the successor v is present and marked.
fn is_marked(marks: &Marks, v: u16) -> bool
    requires { Names most_blocks v }
    ensures { result ≡ of_edge v (marked marks.now) }
{
    v != 65535 && marks[v as usize]
}

// Whether block u is not marked and has an edge to a marked block.
#[tactic(auto, unfolding(crate::specs::Marks::can_mark, wcet::specs::Table::some_edge))]
fn can_mark(marks: &Marks, first: &[u16], second: &[u16], u: usize) -> bool
    requires { Linked (length first.now) first.now second.now × (u < length first.now) }
    ensures { result ≡ can_mark (link_columns first.now second.now) marks.now u }
{
    !marks[u] && (is_marked(marks, first[u]) || is_marked(marks, second[u]))
}

// Marks the blocks with an edge to a marked block, from the last place of the order to the first. So a pass marks all of a path whose edges lead
// to later places. Returns whether it marked a block.
fn mark_pass(marks: &mut Marks, first: &[u16], second: &[u16], order: &[u16; MOST_BLOCKS]) -> bool
    requires { Linked (length first.now) first.now second.now × Listed (length first.now) order.now × (length marks.old ≡ most_blocks) }
    ensures { Passed (link_columns first.now second.now) marks.old marks.new result }
{
    let mut more = false;
    for i in (0..first.len()).rev() {
        let u = order[i] as usize;
        if can_mark(marks, first, second, u) {
            marks[u] = true;
            more = true;
        }
    }
    more
}

// Marks exactly the blocks with a path to the exit.
fn mark_paths(first: &[u16], second: &[u16], order: &[u16; MOST_BLOCKS]) -> Marks
    requires { (0 < length first.now) × Linked (length first.now) first.now second.now × Listed (length first.now) order.now }
    ensures { MarksPaths (link_columns first.now second.now) result }
{
    let mut marks = [false; MOST_BLOCKS];
    marks[first.len() - 1] = true;
    while mark_pass(&mut marks, first, second, order) {}
    marks
}

// The lowest of n blocks that is not marked, if there is one.
fn first_unmarked(marks: &Marks, n: usize) -> Option<usize>
    requires { n ≤ most_blocks }
    ensures { result ≡ first_below n (λ u. not (marked marks.now u)) }
{
    (0..n).find(|u| !marks[*u])
}

// The lowest block without a path to the exit, if there is one. Every order of the blocks gives the same reply. A topological order of the
// forward edges makes it fast: the first pass marks every block with a path of forward edges, and each back edge of a path takes one more pass.
pub fn first_lost(first: &[u16], second: &[u16], order: &[u16; MOST_BLOCKS]) -> Option<usize>
    requires { (0 < length first.now) × Linked (length first.now) first.now second.now × Listed (length first.now) order.now }
    ensures { Lost first.now second.now result }
{
    let marks = mark_paths(first, second, order);
    first_unmarked(&marks, first.len())
}
