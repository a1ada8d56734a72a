// The second certificate, written from document 02 apart from the library: the tables once more, with its figures, multipliers and least visits in
// the place of the figures, multipliers and limits.
use crate::tables::Tables;
use pieces::answers::Answer;

// The columns of a second certificate.
#[derive(Clone, Copy)]
pub struct Certificate<'a> {
    pub figure: &'a [i64],
    pub multiplier: &'a [u64],
    pub least: &'a [u32],
}

// The reply to a pair of tables with a second certificate: 201 to 207 and 209, then 451 to 453 or the lower bound.
pub fn shortest(t: &Tables<'_>, low: &Certificate<'_>) -> Answer {
    let certified = Tables {
        figure: low.figure,
        multiplier: low.multiplier,
        limit: low.least,
        ..*t
    };
    certified.keep_sizes()?;
    t.keep_order()?;
    certified.keep_least()?;
    Ok(certified.bound())
}
