//! The box.
ghost use Rattle.std.specs.Prelude.{◌≡◌, min, IsTrue};
ghost use Rattle.std.specs.Result.{result_map_both};
ghost use Rattle.lattice.specs.Space.{IsPlacement, ordered};
ghost use Rattle.lattice.proofs.Distance.{placement_in};
ghost use Rattle.piles.specs.Leaves.{block};
ghost use Rattle.piles.proofs.Boxes.{block_lawful};
ghost use Rattle.leaves.specs.Made.{box_made};

use super::fault::{LeafFault, check_point};
use super::leaf_point::{LEAF_REACH, LeafPoint};
use lattice::{Point, ordered};
use solid::{Exact, MOST_CLEARANCE, QuestionFault, Solid};

/// The points that lie from `lo` to `hi` on each axis.
#[derive(Clone, Copy)]
pub struct AxisBox {
    pub lo: Point,
    pub hi: Point,
    ghost lo_is_placement: { IsPlacement lo },
    ghost hi_is_placement: { IsPlacement hi },
    ghost in_order: { IsTrue (ordered lo hi) },
}

/// Where a box's numbers stand among those of its making.
const LO_PLACE: u32 = 1;

const HI_PLACE: u32 = 4;

impl AxisBox {
    /// The box of those corners. Their coordinates, numbers 1 to 3 and 4 to 6, lie in
    /// -16384..=16383, and the first that does not is refused; then a `lo` above `hi` on an axis
    /// is.
    pub fn new(lo: Point, hi: Point) -> Result<AxisBox, LeafFault>
        ensures { result_map_both (λ (b : AxisBox). (b.lo, b.hi)) (λ e. e) result
            ≡ box_made lo hi }
    {
        check_point(lo, LO_PLACE)?;
        check_point(hi, HI_PLACE)?;
        if !ordered(lo, hi) {
            return Err(LeafFault::Crossed);
        }
        Ok(AxisBox { lo, hi })
    }

    /// The clearance, or `most` where that is smaller.
    #[inline(always)]
    pub fn clear_up_to(&self, p: LeafPoint, most: u32) -> u32
        ensures { result ≡ min most ((block self.now.lo self.now.hi).clear p.at) }
    {
        let (lo, hi) = (LeafPoint { at: self.lo }, LeafPoint { at: self.hi });
        most.min(p.off_block(lo, hi))
    }
}

impl Solid for AxisBox {
    ghost body = { λ s. block s.lo s.hi };

    ghost lawful = { λ s. block_lawful s.lo s.hi
        (placement_in s.lo s.lo_is_placement) (placement_in s.hi s.hi_is_placement) s.in_order };

    fn reach(&self) -> u32 {
        LEAF_REACH
    }

    fn clearance(&self, p: Point) -> Result<u32, QuestionFault> {
        self.clearance_up_to(p, MOST_CLEARANCE)
    }

    fn clearance_up_to(&self, p: Point, most: u32) -> Result<u32, QuestionFault> {
        Ok(self.clear_up_to(LeafPoint::new(p)?, most))
    }
}

impl Exact for AxisBox {
    fn exactly(&self) {}
}
