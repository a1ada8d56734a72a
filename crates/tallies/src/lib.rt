// The tally of a recorded walk (document 02, §7): for each loop the number of stays in it, and the greatest number of visits to its header in one
// stay.
#![tactic(auto)]

ghost use Rattle.std.specs.Prelude.{◌≡◌, ◌≤◌, ◌<◌, length, get_or};
ghost use Rattle.limits.specs.Limits.{longest_walk};
ghost use Rattle.tallies.specs.Tally.{seen_after, first_tallies, noted, TallyFits};

use limits::MOST_LOOPS;

#[derive(Clone, Copy)]
pub struct LoopTally {
    pub stays: u32,
    pub greatest: u32,
}

// A tally for each loop.
pub type Tallies = [LoopTally; MOST_LOOPS];

impl LoopTally {
    // A step to a block of the loop: `visits` are the visits to the loop's header in the present stay if the step ended at it, and 0 if it ended at
    // another block. The first visit begins a stay. A number that does not change is not stored, as `max` would: the next read of it would have to
    // wait for the store. The greatest number is read first, so that the compiler keeps it so.
    fn see(&mut self, visits: u32)
        requires { self.old.stays ≤ longest_walk }
        ensures { self.new ≡ seen_after self.old visits }
    {
        let greatest = self.greatest;
        if visits == 1 {
            self.stays += 1;
        }
        if greatest < visits {
            self.greatest = visits;
        }
    }
}

// The tallies at the first block: one stay in loop 0, with one visit to its header.
pub fn first_tallies() -> Tallies
    ensures { result ≡ first_tallies }
{
    let mut tallies = [LoopTally {
        stays: 0,
        greatest: 0,
    }; MOST_LOOPS];
    tallies[0] = LoopTally {
        stays: 1,
        greatest: 1,
    };
    tallies
}

// Updates the tallies after a step to block v. A block that is no header has 0 visits, which change nothing.
pub fn note_step(tallies: &mut Tallies, loops: &[u16], v: u16, visits: u32)
    requires { (v < length loops.now) × TallyFits tallies.old (get_or loops.now v 0) }
    ensures { tallies.new ≡ noted tallies.old (get_or loops.now v 0) visits }
{
    tallies[loops[v as usize] as usize].see(visits);
}
