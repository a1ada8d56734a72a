// The loops around each loop, one set for each, and what is read off the sets: membership by shift and mask, the loops of one set that are
// not in another by and-not, how many there are by a count of ones, the lowest by a count of trailing zeros. A set is one word here, and no
// other layer knows that.
#![tactic(auto)]

ghost use Rattle.std.specs.Prelude.{◌≡◌, not, ◌&&◌, ◌||◌, ℕ, ◌≤◌, ◌<◌, eqb, length};
ghost use Rattle.limits.specs.Limits.{most_loops};
ghost use Rattle.lists.specs.Search.{count_below};
ghost use Rattle.loopsets.specs.Sets.{member, set_at, LowestOf, Parents, sets_around};

use limits::MOST_LOOPS;

// A word for the set of each loop.
pub type Sets = [u64; MOST_LOOPS];

// A set of loops.
#[derive(Clone, Copy, PartialEq, Eq)]
pub struct LoopSet {
    pub word: u64,
}

impl LoopSet {
    // Whether loop k is in the set.
    pub fn contains(self, k: usize) -> bool
        requires { k < most_loops }
        ensures { result ≡ member self k }
    {
        (self.word >> k) & 1 == 1
    }

    // The set with loop l in it.
    pub fn with(self, l: usize) -> LoopSet
        requires { l < most_loops }
        ensures { (k : ℕ) → member result k ≡ (eqb l k || member self k) }
    {
        LoopSet {
            word: (1u64 << l) | self.word,
        }
    }

    // The loops of the set that are not in the other.
    pub fn without(self, other: LoopSet) -> LoopSet
        ensures { (k : ℕ) → k < most_loops → member result k ≡ (member self k && not (member other k)) }
    {
        LoopSet {
            word: self.word & !other.word,
        }
    }

    // How many loops are in the set.
    pub fn size(self) -> u32
        ensures { result ≡ count_below most_loops (member self) }
    {
        u64::count_ones(self.word)
    }

    // The lowest loop in the set; MOST_LOOPS where the set is empty.
    pub fn lowest(self) -> usize
        ensures { LowestOf self result }
    {
        u64::trailing_zeros(self.word) as usize
    }

    // The set without loop l.
    pub fn without_loop(self, l: usize) -> LoopSet
        requires { l < most_loops }
        ensures { (k : ℕ) → k < most_loops → member result k ≡ (member self k && not (eqb l k)) }
    {
        LoopSet {
            word: self.word & !(1u64 << l),
        }
    }
}

// The set of loop l.
pub fn set_at(sets: &Sets, l: usize) -> LoopSet
    requires { l < most_loops }
    ensures { result ≡ set_at sets.now l }
{
    LoopSet { word: sets[l] }
}

// The loops around each loop of the parent column: loop 0 around itself, and around any other loop itself and the loops around its parent.
// The sets after the last loop are empty.
pub fn sets_around(parent: &[u16]) -> Sets
    requires { (0 < length parent.now) × (length parent.now ≤ most_loops) × Parents parent.now }
    ensures { result ≡ sets_around parent.now }
{
    let mut around = [0u64; MOST_LOOPS];
    around[0] = 1;
    for l in 1..parent.len() {
        let p = parent[l] as usize;
        let s = set_at(&around, p);
        let t = s.with(l);
        around[l] = t.word;
    }
    around
}
