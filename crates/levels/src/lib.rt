// The nesting depths of the loops, and for one depth the loop of that depth around each loop. Around a block there is at most one loop of each
// depth, so one pass over the blocks can serve all loops of a depth.
#![tactic(auto)]

ghost use Rattle.std.specs.Prelude.{◌≡◌, ℕ, ◌≤◌, ◌<◌, length, get_or};
ghost use Rattle.limits.specs.Limits.{most_loops};
ghost use Rattle.loopsets.specs.Sets.{Parents};
ghost use Rattle.levels.specs.Levels.{depth, DepthsOf, Level};

use limits::MOST_LOOPS;

// There is no such loop. (An Option for each loop would double the column, which the turns of the figures read.)
pub const NO_LOOP: u16 = 65535;

// The depth of each loop, and the greatest of them.
#[derive(Drop)]
pub struct Depths {
    pub each: [u16; MOST_LOOPS],
    pub most: u16,
}

pub fn depths_of(parent: &[u16]) -> Depths
    requires { (0 < length parent.now) × (length parent.now ≤ most_loops) × Parents parent.now }
    ensures { DepthsOf parent.now result }
{
    let mut each = [1u16; MOST_LOOPS];
    let mut most = 1u16;
    for l in 1..parent.len() {
        let p = parent[l] as usize;
        let depth = each[p] + 1;
        each[l] = depth;
        most = most.max(depth);
    }
    Depths { each, most }
}

// For each loop the loop of depth d around it; `NO_LOOP` where the loop itself is less deep.
pub fn level_of(parent: &[u16], depths: &Depths, d: u16) -> [u16; MOST_LOOPS]
    requires { (length parent.now ≤ most_loops) × Parents parent.now × ((l : ℕ) → l < length parent.now → get_or depths.now.each l 0 ≡ depth parent.now l) }
    ensures { Level parent.now d result }
{
    let mut level = [NO_LOOP; MOST_LOOPS];
    for l in 0..parent.len() {
        let depth = depths.each[l];
        if d < depth {
            level[l] = level[parent[l] as usize];
        } else if depth == d {
            level[l] = l as u16;
        }
    }
    level
}
