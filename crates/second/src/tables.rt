// A pair of tables as nine lent columns, and what documents 01 and 02 say of its blocks and loops: which edges a block has, and whether it is inside a
// loop, found by following parents.
use pieces::at;
use pieces::rows::NO_SUCCESSOR;

#[derive(Clone, Copy)]
pub struct Tables<'a> {
    pub cost: &'a [u32],
    pub inner: &'a [u16],
    pub first: &'a [u16],
    pub second: &'a [u16],
    pub figure: &'a [i64],
    pub parent: &'a [u16],
    pub header: &'a [u16],
    pub limit: &'a [u32],
    pub multiplier: &'a [u64],
}

// The block that a column leads to from block u.
fn successor(column: &[u16], u: usize) -> Option<usize> {
    let v = column.get(u).copied()?;
    (v != NO_SUCCESSOR).then_some(usize::from(v))
}

impl Tables<'_> {
    pub fn blocks(&self) -> usize {
        self.cost.len()
    }

    pub fn loops(&self) -> usize {
        self.parent.len()
    }

    // The innermost loop of a block.
    pub fn loop_of(&self, u: usize) -> usize {
        usize::from(at(self.inner, u))
    }

    pub fn parent_of(&self, k: usize) -> usize {
        usize::from(at(self.parent, k))
    }

    pub fn header_of(&self, k: usize) -> usize {
        usize::from(at(self.header, k))
    }

    pub fn successors(&self, u: usize) -> [Option<usize>; 2] {
        [successor(self.first, u), successor(self.second, u)]
    }

    pub fn has_edge(&self, u: usize, v: usize) -> bool {
        self.successors(u).contains(&Some(v))
    }

    // The exit is the last block.
    pub fn is_exit(&self, u: usize) -> bool {
        self.blocks().checked_sub(1) == Some(u)
    }

    // Whether loop k is the block's loop, its parent, and so on up to loop 0.
    pub fn is_inside(&self, u: usize, k: usize) -> bool {
        let mut l = self.loop_of(u);
        for _ in 0..self.loops() {
            if l == k || l == 0 {
                break;
            }
            l = self.parent_of(l);
        }
        l == k
    }

    // How many loops are around a block.
    pub fn depth(&self, u: usize) -> usize {
        (0..self.loops()).filter(|&k| self.is_inside(u, k)).count()
    }

    // The loop that a block is the header of.
    pub fn headed_by(&self, v: usize) -> Option<usize> {
        (0..self.loops()).find(|&k| self.header_of(k) == v)
    }

    // Whether the edge from u to v enters a loop elsewhere than at its header.
    pub fn passes_header(&self, u: usize, v: usize) -> bool {
        (0..self.loops()).any(|k| {
            self.is_inside(v, k) && !self.is_inside(u, k) && v != self.header_of(k)
        })
    }

    // Whether the edge from u to v ends at the header of a loop that u is inside.
    pub fn returns(&self, u: usize, v: usize) -> bool {
        self.headed_by(v).is_some_and(|k| self.is_inside(u, k))
    }
}
