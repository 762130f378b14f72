//! The points at which leaves are asked.
ghost use Rattle.std.specs.Prelude.{◌≡◌, Ok};
ghost use Rattle.std.specs.Result.{result_and, result_map_both};
ghost use Rattle.lattice.specs.Space.{In};
ghost use Rattle.solid.specs.declared.TheConstants.{MOST_REACH};
ghost use Rattle.solid.specs.Answer.{check_asked};
ghost use Rattle.piles.specs.Leaves.{leaf_reach, block};

use super::axis::outside;
use lattice::Point;
use solid::{MOST_REACH, QuestionFault, check_asked};

/// Every leaf answers at the points whose coordinates are at most this, in size: as far as a solid
/// may.
pub(crate) const LEAF_REACH: u32 = MOST_REACH;

/// A point within the reach of every leaf. Who asks many leaves at one point checks it once.
#[derive(Clone, Copy)]
pub struct LeafPoint {
    pub at: Point,
    ghost in_reach: { In MOST_REACH at },
}

impl LeafPoint {
    /// The point, as one that leaves are asked at. Refused, with 17, where a coordinate is above
    /// the leaves' reach in size.
    pub fn new(at: Point) -> Result<LeafPoint, QuestionFault>
        ensures { result_map_both (λ (p : LeafPoint). p.at) (λ e. e) result
            ≡ result_and (check_asked leaf_reach at) (Ok at) }
    {
        check_asked(LEAF_REACH, at)?;
        Ok(LeafPoint { at })
    }

    /// How far the point lies off the box from `lo` to `hi`; 0 in it. Where `lo` is above `hi` on
    /// an axis no point lies in the box, and the number is above 0.
    #[inline(always)]
    pub fn off_block(self, lo: LeafPoint, hi: LeafPoint) -> u32
        ensures { result ≡ (block lo.at hi.at).clear self.at }
    {
        let x = outside(lo.at.x, hi.at.x, self.at.x);
        let y = outside(lo.at.y, hi.at.y, self.at.y);
        let z = outside(lo.at.z, hi.at.z, self.at.z);
        x.max(y.max(z)).max(0) as u32
    }
}
