//! The ball.
ghost use Rattle.std.specs.Prelude.{◌≡◌, ℕ, ◌+◌, ◌-◌, ◌*◌, ◌≤◌, max, min, unsigned_abs};
ghost use Rattle.std.specs.Result.{result_map_both};
ghost use Rattle.lattice.specs.Space.{IsPlacement, gap};
ghost use Rattle.lattice.proofs.Distance.{placement_in};
ghost use Rattle.piles.specs.Leaves.{least, fits, ball};
ghost use Rattle.piles.specs.Stands.{SmallestStands};
ghost use Rattle.piles.proofs.Balls.{ball_lawful};
ghost use Rattle.leaves.specs.declared.ball.TheConstants.{MOST_RADIUS};
ghost use Rattle.leaves.specs.Ball.{most_gap};
ghost use Rattle.leaves.specs.Made.{ball_made};

use super::fault::{LeafFault, check_point};
use super::leaf_point::{LEAF_REACH, LeafPoint};
use lattice::Point;
use refusal::count_in;
use solid::{Exact, QuestionFault, Solid};

/// The points whose squared offsets from the centre add to at most the radius squared.
#[derive(Clone, Copy)]
pub struct Ball {
    pub centre: Point,
    pub radius: u32,
    ghost centre_is_placement: { IsPlacement centre },
    ghost radius_in_range: { radius ≤ unsigned_abs MOST_RADIUS },
}

/// The range of a radius.
pub const LEAST_RADIUS: i32 = 0;

pub const MOST_RADIUS: i32 = 16_383;

/// Where a ball's numbers stand among those of its making.
const CENTRE_PLACE: u32 = 1;

const RADIUS_PLACE: u32 = 4;

impl Ball {
    /// The ball of that centre and radius. The centre's coordinates, numbers 1 to 3, lie in
    /// -16384..=16383 and the radius, number 4, in 0..=16383; the first that does not is refused.
    pub fn new(centre: Point, radius: i32) -> Result<Ball, LeafFault>
        ensures value { result_map_both (λ (b : Ball). (b.centre, b.radius)) (λ e. e) result
            ≡ ball_made centre radius }
        ensures smallest { SmallestStands }
    {
        check_point(centre, CENTRE_PLACE)?;
        let radius = count_in(radius, LEAST_RADIUS, MOST_RADIUS, RADIUS_PLACE)?;
        Ok(Ball { centre, radius })
    }

    /// The offsets of a point from the centre.
    #[inline(always)]
    fn offsets(&self, p: LeafPoint) -> Offsets
        ensures x { result.x ≡ gap p.at.x self.now.centre.x }
        ensures y { result.y ≡ gap p.at.y self.now.centre.y }
        ensures z { result.z ≡ gap p.at.z self.now.centre.z }
    {
        Offsets {
            x: (p.at.x - self.centre.x).unsigned_abs(),
            y: (p.at.y - self.centre.y).unsigned_abs(),
            z: (p.at.z - self.centre.z).unsigned_abs(),
        }
    }

    /// Do the squares of the offsets, each `k` less but not below 0, add to at most that of the
    /// radius?
    fn fits(self, offsets: Offsets, k: u32) -> bool
        ensures { result ≡ fits self.radius offsets.x offsets.y offsets.z k }
    {
        offsets.less(k).squared() <= square(self.radius)
    }

    /// The smallest `k` that fits. A `k` that leaves the greatest offset above the radius does not,
    /// and one that leaves it at half the radius does, so it is sought between those two; the first
    /// of them often is the answer, as at every member and wherever one offset outweighs the
    /// others.
    fn smallest(self, offsets: Offsets) -> u32
        ensures { result ≡ least (max offsets.x (max offsets.y offsets.z))
            (fits self.radius offsets.x offsets.y offsets.z) }
    {
        let greatest = offsets.greatest();
        let mut low = greatest.saturating_sub(self.radius);
        if self.fits(offsets, low) {
            return low;
        }
        let mut high = greatest.saturating_sub(self.radius / 2);
        while low < high {
            let mid = low + (high - low) / 2;
            if self.fits(offsets, mid) {
                high = mid;
            } else {
                low = mid + 1;
            }
        }
        low
    }

    /// The smallest `k` that fits, of offsets one by one.
    // Few questions come to it. Out of line, and with its numbers in registers, it leaves a loop
    // that asks many balls short.
    #[inline(never)]
    fn smallest_of(&self, x: u32, y: u32, z: u32) -> u32
        requires x_in_range { x ≤ most_gap }
        requires y_in_range { y ≤ most_gap }
        requires z_in_range { z ≤ most_gap }
        ensures { result ≡ least (max x (max y z)) (fits self.now.radius x y z) }
    {
        self.smallest(Offsets { x, y, z })
    }

    /// The clearance, or `most` where that is smaller. It is at least the greatest offset less the
    /// radius, which tells of most balls that they are far enough off.
    #[inline(always)]
    pub fn clear_up_to(&self, p: LeafPoint, most: u32) -> u32
        ensures { result ≡ min most ((ball self.now.centre self.now.radius).clear p.at) }
    {
        let offsets = self.offsets(p);
        if offsets.greatest().saturating_sub(self.radius) >= most {
            return most;
        }
        most.min(self.smallest_of(offsets.x, offsets.y, offsets.z))
    }
}

impl Solid for Ball {
    ghost body = { λ s. ball s.centre s.radius };

    ghost lawful = { λ s. ball_lawful s.centre s.radius
        (placement_in s.centre s.centre_is_placement) };

    fn reach(&self) -> u32 {
        LEAF_REACH
    }

    fn clearance(&self, p: Point) -> Result<u32, QuestionFault> {
        let asked = LeafPoint::new(p)?;
        Ok(self.smallest(self.offsets(asked)))
    }

    fn clearance_up_to(&self, p: Point, most: u32) -> Result<u32, QuestionFault> {
        Ok(self.clear_up_to(LeafPoint::new(p)?, most))
    }
}

impl Exact for Ball {
    fn exactly(&self) {}
}

/// The square of a length.
fn square(n: u32) -> u64
    ensures { result ≡ n * n }
{
    n as u64 * n as u64
}

/// How far a point lies from a centre on each axis. Within the reach that is at most 1,064,960, the
/// reach and 16,384 more, so that the three squares and their sum fit into 64 bits.
#[derive(Clone, Copy)]
struct Offsets {
    x: u32,
    y: u32,
    z: u32,
    ghost x_in_range: { x ≤ most_gap },
    ghost y_in_range: { y ≤ most_gap },
    ghost z_in_range: { z ≤ most_gap },
}

impl Offsets {
    /// The greatest of them.
    #[inline(always)]
    fn greatest(self) -> u32
        ensures { result ≡ max self.x (max self.y self.z) }
    {
        self.x.max(self.y.max(self.z))
    }

    /// Each of them `k` less, but not below 0.
    fn less(self, k: u32) -> Offsets
        ensures x { result.x ≡ self.x - k }
        ensures y { result.y ≡ self.y - k }
        ensures z { result.z ≡ self.z - k }
    {
        Offsets {
            x: self.x.saturating_sub(k),
            y: self.y.saturating_sub(k),
            z: self.z.saturating_sub(k),
        }
    }

    /// The sum of their squares.
    fn squared(self) -> u64
        ensures { result ≡ self.x * self.x + self.y * self.y + self.z * self.z }
    {
        square(self.x) + square(self.y) + square(self.z)
    }
}
