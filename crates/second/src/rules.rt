// The rules 201 to 209, 431 and 451 to 453, and the bound, written from documents 01 and 02 apart from the library: one rule after the other, one place
// after the other, one edge at a time. For 451 to 453 the tables hold the second certificate: its figures and multipliers, and its least visits in the
// place of the limits.
use crate::tables::Tables;
use pieces::answers::{Accepted, Refusal};
use pieces::at;

// Refuses at the lowest of so many places that breaks a rule.
fn keep<F: Fn(usize) -> bool>(number: u32, places: usize, is_broken: F) -> Result<(), Refusal>
    requires { F.IsAlwaysCallable is_broken }
{
    for place in 0..places {
        if is_broken(place) {
            return Err(Refusal { number, place });
        }
    }
    Ok(())
}

// What 202 asks of a loop's limit and multiplier, but for a limit of 0, and 451 of its least visits and multiplier.
fn numbers_broken(t: &Tables<'_>, k: usize) -> bool {
    let visits = at(t.limit, k);
    let multiplier = at(t.multiplier, k);
    if k == 0 {
        visits != 1 || multiplier != 0
    } else {
        visits > 65535 || multiplier > 1 << 40
    }
}

fn loop_broken(t: &Tables<'_>, k: usize) -> bool {
    let place_broken = if k == 0 {
        t.parent_of(k) != 0 || t.header_of(k) != 0
    } else {
        t.parent_of(k) >= k || t.header_of(k) >= t.blocks()
    };
    place_broken || numbers_broken(t, k) || at(t.limit, k) == 0
}

fn figure_broken(t: &Tables<'_>, u: usize) -> bool {
    at(t.figure, u).unsigned_abs() > 1 << 60
}

fn block_broken(t: &Tables<'_>, u: usize) -> bool {
    at(t.cost, u) > 1000000
        || t.loop_of(u) >= t.loops()
        || any_edge(t, u, |v| v >= t.blocks())
        || figure_broken(t, u)
}

// Whether an edge of a block is one that a test finds.
fn any_edge<F: Fn(usize) -> bool>(t: &Tables<'_>, u: usize, is_found: F) -> bool
    requires { F.IsAlwaysCallable is_found }
{
    let [first, second] = t.successors(u);
    first.is_some_and(&is_found) || second.is_some_and(&is_found)
}

fn sizes_broken(t: &Tables<'_>) -> bool {
    let n = t.blocks();
    let m = t.loops();
    let of_blocks = [t.inner.len(), t.first.len(), t.second.len(), t.figure.len()];
    let of_loops = [t.header.len(), t.limit.len(), t.multiplier.len()];
    of_blocks != [n; 4] || of_loops != [m; 3] || !matches!(n, 2..=1024) || !matches!(m, 1..=64)
}

// The multiplier, once for each visit after the first.
fn weight(multiplier: i64, visits: u32) -> i64 {
    (1..visits).fold(0i64, |sum, _| sum.saturating_add(multiplier))
}

// The two sides of an edge's inequality, the cost on the left and D on the right, with the figure of v added to both. The multiplier times the visits less
// one is added to the left; where there are no visits, or the edge returns, that is -1 times, and the multiplier is added to the right. The rules before
// 208 and 453 keep figures within 2^60 and multipliers within 2^40, so that nothing saturates.
fn sides_of(t: &Tables<'_>, u: usize, v: usize) -> (i64, i64) {
    let left = i64::from(at(t.cost, v)).saturating_add(at(t.figure, v));
    let right = at(t.figure, u);
    let Some(k) = t.headed_by(v) else {
        return (left, right);
    };
    let multiplier = i64::try_from(at(t.multiplier, k)).unwrap_or(i64::MAX);
    let visits = at(t.limit, k);
    if visits == 0 || t.is_inside(u, k) {
        return (left, right.saturating_add(multiplier));
    }
    (left.saturating_add(weight(multiplier, visits)), right)
}

// A block is marked when every walk from it without a returning edge comes to an end. An edge does not stand in the way of that if it is missing,
// if it returns or if it ends at a marked block.
fn ends(t: &Tables<'_>, u: usize, marks: &[bool]) -> bool {
    !any_edge(t, u, |v| !at(marks, v) && !t.returns(u, v))
}

// One round over all blocks, and whether it marks a further one. By an index, since any mark is read while one is written.
fn marks_more(t: &Tables<'_>, marks: &mut [bool]) -> bool {
    let mut more = false;
    for u in (0..marks.len()).rev() {
        if !marks[u] && ends(t, u, marks) {
            marks[u] = true;
            more = true;
        }
    }
    more
}

// Whether there is a closed walk of one edge or more, none of which returns: then, and only then, some block is never marked. Where a round marks
// no further block, no later one does.
fn has_closed_walk(t: &Tables<'_>) -> bool {
    let mut room = [false; 1024];
    let n = t.blocks().min(1024);
    let marks = &mut room[..n];
    for _ in 0..n {
        if !marks_more(t, marks) {
            break;
        }
    }
    marks.contains(&false)
}

impl Tables<'_> {
    // 201: the columns fit together, and neither table is too small or too large.
    pub fn keep_sizes(&self) -> Result<(), Refusal> {
        keep(201, 1, |_| sizes_broken(self))
    }

    // 201 to 207: the tables of a walk.
    pub fn keep_structure(&self) -> Result<(), Refusal> {
        self.keep_sizes()?;
        keep(202, self.loops(), |k| loop_broken(self, k))?;
        keep(203, self.blocks(), |u| block_broken(self, u))?;
        keep(204, self.loops(), |k| self.loop_of(self.header_of(k)) != k)?;
        keep(205, self.loops(), |k| self.depth(self.header_of(k)) > 16)?;
        keep(206, self.blocks(), |u| {
            any_edge(self, u, |v| v == 0 || self.is_exit(u))
        })?;
        keep(207, self.blocks(), |u| {
            any_edge(self, u, |v| self.passes_header(u, v))
        })
    }

    // 201 to 207 and 209: the tables of a program.
    pub fn keep_order(&self) -> Result<(), Refusal> {
        self.keep_structure()?;
        keep(209, 1, |_| has_closed_walk(self))
    }

    // 208, behind 209.
    pub fn keep_figures(&self) -> Result<(), Refusal> {
        keep(208, self.blocks(), |u| {
            any_edge(self, u, |v| {
                let (left, right) = sides_of(self, u, v);
                left > right
            })
        })
    }

    // 431: what a value change dump cannot say.
    pub fn keep_changes(&self) -> Result<(), Refusal> {
        keep(431, self.blocks(), |u| self.has_edge(u, u))
    }

    // 451 to 453, of tables that hold the second certificate.
    pub fn keep_least(&self) -> Result<(), Refusal> {
        keep(451, self.loops(), |k| numbers_broken(self, k))?;
        keep(452, self.blocks(), |u| figure_broken(self, u))?;
        keep(453, self.blocks(), |u| {
            any_edge(self, u, |v| {
                let (left, right) = sides_of(self, u, v);
                left < right
            })
        })
    }

    // The cost of the entry and its figure, less the figure of the exit.
    pub fn bound(&self) -> Accepted {
        let exit = self.figure.last().copied().unwrap_or(0);
        let bound = i64::from(at(self.cost, 0))
            .saturating_add(at(self.figure, 0))
            .saturating_sub(exit);
        Accepted::Value(bound)
    }
}
