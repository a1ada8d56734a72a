// The replies to a pair of tables and to a walk over it, written from document 01 apart from the library: one block at a time, and at each block one loop
// after the other.
use crate::tables::Tables;
use pieces::answers::{Accepted, Answer, Refusal};
use pieces::at;

// What the block behind another one is refused with, whatever the limits are; the first block has none before it.
fn block_fault(t: &Tables<'_>, before: Option<usize>, v: usize) -> Option<u32> {
    if v >= t.blocks() {
        return Some(302);
    }
    match before {
        None => (v != 0).then_some(303),
        Some(u) if t.is_exit(u) => Some(311),
        Some(u) => (!t.has_edge(u, v)).then_some(312),
    }
}

// Follows a walk: 301 to 312, 314, and 313 where a test of an edge finds that it passes a limit. The lowest place counts.
pub fn follow<F: FnMut(usize, usize) -> bool>(
    t: &Tables<'_>,
    blocks: &[u16],
    mut passes_limit: F,
) -> Result<(), Refusal>
    requires { F.IsAlwaysCallable passes_limit }
{
    if !matches!(blocks.len(), 1..=1048576) {
        return Err(Refusal {
            number: 301,
            place: 0,
        });
    }
    let mut before = None;
    for (place, &block) in blocks.iter().enumerate() {
        let v = usize::from(block);
        if let Some(number) = block_fault(t, before, v) {
            return Err(Refusal { number, place });
        }
        if let Some(u) = before
            && passes_limit(u, v)
        {
            return Err(Refusal { number: 313, place });
        }
        before = Some(v);
    }
    if before.is_some_and(|v| t.is_exit(v)) {
        return Ok(());
    }
    Err(Refusal {
        number: 314,
        place: blocks.len(),
    })
}

// The visits to the header of loop k in the present stay, after the edge from u to v.
fn counted(t: &Tables<'_>, k: usize, u: usize, v: usize, count: u32) -> u32 {
    let was_inside = t.is_inside(u, k);
    if t.header_of(k) == v {
        return if was_inside {
            count.saturating_add(1)
        } else {
            1
        };
    }
    if was_inside && !t.is_inside(v, k) {
        0
    } else {
        count
    }
}

// Takes every loop's count over the edge from u to v, and says whether one passes its limit.
fn passes_limit(t: &Tables<'_>, u: usize, v: usize, counts: &mut [u32; 64]) -> bool {
    let mut passed = false;
    for (k, count) in counts.iter_mut().enumerate().take(t.loops()) {
        *count = counted(t, k, u, v, *count);
        passed = passed || *count > at(t.limit, k);
    }
    passed
}

// The steps of a walk.
pub fn steps_of(blocks: &[u16]) -> i64 {
    i64::try_from(blocks.len())
        .unwrap_or(i64::MAX)
        .saturating_sub(1)
}

// The reply to a pair of tables.
pub fn check(t: &Tables<'_>) -> Answer {
    t.keep_order()?;
    t.keep_figures()?;
    Ok(t.bound())
}

// What the tables of a value change dump are refused with.
pub fn check_dumped(t: &Tables<'_>) -> Result<(), Refusal> {
    t.keep_structure()?;
    t.keep_changes()
}

// The reply to a walk over a pair of tables.
pub fn walk(t: &Tables<'_>, blocks: &[u16]) -> Answer {
    t.keep_structure()?;
    // The walk begins inside loop 0, at its header.
    let mut counts = [0u32; 64];
    counts[0] = 1;
    follow(t, blocks, |u, v| passes_limit(t, u, v, &mut counts))?;
    let cost = blocks.iter().fold(0i64, |sum, &v| {
        sum.saturating_add(i64::from(at(t.cost, usize::from(v))))
    });
    Ok(Accepted::Walk {
        cost,
        steps: steps_of(blocks),
    })
}
