// A pair of tables, column by column, and those that a case gives by their size.
use crate::keeping::{holds, lent};
use crate::texts::Table;
use pieces::rows::{BlockRow, LoopRow, NO_SUCCESSOR};
use std::alloc::{AllocError, Global};

#[derive(Drop)]
pub struct BlockColumns {
    pub cost: Vec<u32>,
    pub inner: Vec<u16>,
    pub first: Vec<u16>,
    pub second: Vec<u16>,
    pub figure: Vec<i64>,
}

#[derive(Drop)]
pub struct LoopColumns {
    pub parent: Vec<u16>,
    pub header: Vec<u16>,
    pub limit: Vec<u32>,
    pub multiplier: Vec<u64>,
}

#[derive(Drop)]
pub struct Pair {
    pub blocks: BlockColumns,
    pub loops: LoopColumns,
}

// The columns of one of the two tables.
pub trait Columns: Sized + Drop {
    type Row;

    const TABLE: Table;

    // The rows that the table may have.
    const MOST_ROWS: usize;

    // The places of the columns where a case does not say them: more than the rows may be.
    const PLACES: usize;

    // Columns of so many places, to be lent to a reader.
    fn lent(alloc: Global, places: usize) -> Result<Self, AllocError>;

    // Leaves only the first rows.
    fn truncate(&mut self, rows: usize);

    // Takes the last row off one column, by its number; there may be no such column.
    fn shorten(&mut self, column: usize);

    // Whether columns that were lent hold these rows, and behind them what they held before.
    fn hold(&self, rows: &[Self::Row]) -> bool;
}

impl Columns for BlockColumns {
    type Row = BlockRow;

    const TABLE: Table = Table::Blocks;

    const MOST_ROWS: usize = 1024;

    const PLACES: usize = 1026;

    fn lent(alloc: Global, places: usize) -> Result<BlockColumns, AllocError> {
        Ok(BlockColumns {
            cost: lent(alloc, places)?,
            inner: lent(alloc, places)?,
            first: lent(alloc, places)?,
            second: lent(alloc, places)?,
            figure: lent(alloc, places)?,
        })
    }

    fn truncate(&mut self, rows: usize) {
        self.cost.truncate(rows);
        self.inner.truncate(rows);
        self.first.truncate(rows);
        self.second.truncate(rows);
        self.figure.truncate(rows);
    }

    fn shorten(&mut self, column: usize) {
        match column {
            0 => drop(self.cost.pop()),
            1 => drop(self.inner.pop()),
            2 => drop(self.first.pop()),
            3 => drop(self.second.pop()),
            4 => drop(self.figure.pop()),
            _ => {}
        }
    }

    fn hold(&self, rows: &[BlockRow]) -> bool {
        holds(&self.cost, rows, |row| row.cost)
            && holds(&self.inner, rows, |row| row.inner)
            && holds(&self.first, rows, |row| row.first)
            && holds(&self.second, rows, |row| row.second)
            && holds(&self.figure, rows, |row| row.figure)
    }
}

impl Columns for LoopColumns {
    type Row = LoopRow;

    const TABLE: Table = Table::Loops;

    const MOST_ROWS: usize = 64;

    const PLACES: usize = 66;

    fn lent(alloc: Global, places: usize) -> Result<LoopColumns, AllocError> {
        Ok(LoopColumns {
            parent: lent(alloc, places)?,
            header: lent(alloc, places)?,
            limit: lent(alloc, places)?,
            multiplier: lent(alloc, places)?,
        })
    }

    fn truncate(&mut self, rows: usize) {
        self.parent.truncate(rows);
        self.header.truncate(rows);
        self.limit.truncate(rows);
        self.multiplier.truncate(rows);
    }

    fn shorten(&mut self, column: usize) {
        match column {
            0 => drop(self.parent.pop()),
            1 => drop(self.header.pop()),
            2 => drop(self.limit.pop()),
            3 => drop(self.multiplier.pop()),
            _ => {}
        }
    }

    fn hold(&self, rows: &[LoopRow]) -> bool {
        holds(&self.parent, rows, |row| row.parent)
            && holds(&self.header, rows, |row| row.header)
            && holds(&self.limit, rows, |row| row.limit)
            && holds(&self.multiplier, rows, |row| row.multiplier)
    }
}

impl Pair {
    // Columns of so many rows, or of the places that a table has where these are fewer.
    pub fn lent(alloc: Global, blocks: usize, loops: usize) -> Result<Pair, AllocError> {
        Ok(Pair {
            blocks: BlockColumns::lent(alloc, blocks.min(BlockColumns::PLACES))?,
            loops: LoopColumns::lent(alloc, loops.min(LoopColumns::PLACES))?,
        })
    }

    // Takes the last row off one column: of the blocks 0 to 4, of the loops 5 to 8.
    pub fn shorten(&mut self, column: usize) {
        if column < 5 {
            self.blocks.shorten(column);
        } else {
            self.loops.shorten(column - 5);
        }
    }
}

// A pair of tables by its size: of the loops, block k is the header of loop k.
#[derive(Clone, Copy)]
pub struct Sizes {
    pub blocks: usize,
    pub loops: usize,
    // Whether each loop is inside the one before it, and not only inside loop 0.
    pub nested: bool,
    // Where it is not 0, an edge goes from each block to the next, and from the last but one to this one.
    pub back: usize,
    // Of a program all costs and limits are the greatest, and both edges of a block go to the same one.
    pub of_program: bool,
    // Where it is not 0, this block is the header of the last loop and the end of all edges.
    pub target: usize,
}

// What a column of 16 bits holds of a block; no table has block 65535.
fn block(v: usize) -> u16 {
    u16::try_from(v).unwrap_or(u16::MAX)
}

fn fill<T, F: Fn(usize) -> T>(column: &mut [T], element: F)
where
    T: Copy,
    requires { (f : F) (i : _) → F.pre f i }
{
    for (i, place) in column.iter_mut().enumerate() {
        *place = element(i);
    }
}

impl Sizes {
    fn successor(self, u: usize) -> u16 {
        match (self.blocks.saturating_sub(u), self.target, self.back) {
            (0 | 1, _, _) | (_, 0, 0) => NO_SUCCESSOR,
            (2, 0, back) => block(back),
            (_, 0, _) => block(u.saturating_add(1)),
            (_, target, _) => block(target),
        }
    }

    fn second_successor(self, u: usize) -> u16 {
        if self.of_program {
            self.successor(u)
        } else {
            NO_SUCCESSOR
        }
    }

    fn last_loop(self) -> usize {
        self.loops.saturating_sub(1)
    }

    fn loop_of(self, u: usize) -> u16 {
        let headed = match self.target {
            0 => self.loops,
            header if u == header => return block(self.last_loop()),
            _ => self.last_loop(),
        };
        if u < headed { block(u) } else { 0 }
    }

    fn parent(self, k: usize) -> u16 {
        if self.nested {
            block(k.saturating_sub(1))
        } else {
            0
        }
    }

    fn header(self, k: usize) -> u16 {
        if self.target != 0 && k == self.last_loop() {
            block(self.target)
        } else {
            block(k)
        }
    }

    fn limit(self, k: usize) -> u32 {
        if self.of_program && k != 0 { 65535 } else { 1 }
    }

    // Fills the columns, without figures and multipliers.
    pub fn fill_pair(self, pair: &mut Pair) {
        let cost = if self.of_program { 1000000 } else { 0 };
        fill(&mut pair.blocks.cost, |_| cost);
        fill(&mut pair.blocks.inner, |u| self.loop_of(u));
        fill(&mut pair.blocks.first, |u| self.successor(u));
        fill(&mut pair.blocks.second, |u| self.second_successor(u));
        fill(&mut pair.blocks.figure, |_| 0);
        fill(&mut pair.loops.parent, |k| self.parent(k));
        fill(&mut pair.loops.header, |k| self.header(k));
        fill(&mut pair.loops.limit, |k| self.limit(k));
        fill(&mut pair.loops.multiplier, |_| 0);
    }
}

// A pair of these sizes, filled. `Pair::lent` gives no more places than a table has.
fn filled(alloc: Global, sizes: Sizes) -> Result<Pair, AllocError> {
    let mut pair = Pair {
        blocks: BlockColumns::lent(alloc, sizes.blocks)?,
        loops: LoopColumns::lent(alloc, sizes.loops)?,
    };
    sizes.fill_pair(&mut pair);
    Ok(pair)
}

// n blocks without costs in m loops, of which block k is the header of loop k. With `back` an edge goes from each block to the next, and from the
// last but one to that block.
pub fn sized(
    alloc: Global,
    n: u16,
    m: u16,
    nested: bool,
    back: Option<u16>,
) -> Result<Pair, AllocError> {
    let mut pair = filled(
        alloc,
        Sizes {
            blocks: usize::from(n),
            loops: usize::from(m),
            nested,
            back: back.map_or(0, |back| usize::from(back.max(1))),
            of_program: false,
            target: 0,
        },
    )?;
    // `Sizes` has no edge back to block 0.
    if back == Some(0) && n > 1 {
        if let Some(first) = pair.blocks.first.get_mut(usize::from(n) - 2) {
            *first = 0;
        }
    }
    Ok(pair)
}

// Puts block 0 where the header of the last loop was to be.
fn put_header_0(pair: &mut Pair, last_block: u16, last_loop: u16) {
    for first in pair.blocks.first.iter_mut().take(usize::from(last_block)) {
        *first = 0;
    }
    for second in pair.blocks.second.iter_mut().take(usize::from(last_block)) {
        *second = 0;
    }
    if let Some(inner) = pair.blocks.inner.first_mut() {
        *inner = last_loop;
    }
    if let Some(header) = pair.loops.header.last_mut() {
        *header = 0;
    }
}

// n blocks in m loops, all of the greatest cost and limit. Both edges of a block go to `target`, which is the header of the last loop, or, where there
// is none, to the next block.
pub fn program(alloc: Global, n: u16, m: u16, target: Option<u16>) -> Result<Pair, AllocError> {
    let last_block = n.saturating_sub(1);
    let mut pair = filled(
        alloc,
        Sizes {
            blocks: usize::from(n),
            loops: usize::from(m),
            nested: false,
            back: usize::from(last_block),
            of_program: true,
            target: match target {
                None => 0,
                Some(0) => usize::from(NO_SUCCESSOR),
                Some(header) => usize::from(header),
            },
        },
    )?;
    // `Sizes` has no block 0 for the header: up to here 65535 stands for it, which is no block.
    if target == Some(0) {
        put_header_0(&mut pair, last_block, m.saturating_sub(1));
    }
    Ok(pair)
}
