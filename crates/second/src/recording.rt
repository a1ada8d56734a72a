// What a recording shows of the limits, written from document 02 apart from the library: one loop after the other, each over the whole walk.
use crate::stepping::{follow, steps_of};
use crate::tables::Tables;
use pieces::answers::{Accepted, Answer, Refusal};

// What a beginning of the walk shows of one loop: whether its last block is inside, the stays so far, the header's visits in the last one if that is
// not over, and the most visits of a stay.
#[derive(Clone, Copy, Default)]
struct Seen {
    within: bool,
    stays: u32,
    visits: u32,
    greatest: u32,
}

impl Seen {
    // One block more: outside the loop, or inside it and its header or not.
    fn with_block(self, within: bool, is_header: bool) -> Self {
        if !within {
            return Seen {
                within,
                visits: 0,
                ..self
            };
        }
        let visits = self.visits.saturating_add(u32::from(is_header));
        Seen {
            within,
            stays: self.stays.saturating_add(u32::from(!self.within)),
            visits,
            greatest: self.greatest.max(visits),
        }
    }
}

fn seen_of(t: &Tables<'_>, k: usize, blocks: &[u16]) -> Seen {
    blocks.iter().fold(Seen::default(), |seen, &block| {
        let v = usize::from(block);
        seen.with_block(t.is_inside(v, k), v == t.header_of(k))
    })
}

// The reply to a recording: 202 to 207, 421, then the walk, for which no limit counts. Where it accepts, the stays of each loop and the most visits of a
// stay to its header stand in the two columns.
pub fn tally(t: &Tables<'_>, blocks: &[u16], stays: &mut [u32], greatest: &mut [u32]) -> Answer {
    t.keep_structure()?;
    if stays.len() != t.loops() || greatest.len() != t.loops() {
        return Err(Refusal {
            number: 421,
            place: 0,
        });
    }
    follow(t, blocks, |_, _| false)?;
    for (k, (stays, greatest)) in stays.iter_mut().zip(greatest).enumerate() {
        let seen = seen_of(t, k, blocks);
        *stays = seen.stays;
        *greatest = seen.greatest;
    }
    Ok(Accepted::Value(steps_of(blocks)))
}
