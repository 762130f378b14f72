//! The intersection of two solids.
ghost use Rattle.std.specs.Prelude.{◌≡◌};
ghost use Rattle.piles.specs.Layers.{meet};
ghost use Rattle.piles.proofs.Kept.{meet_lawful};

use crate::unite::smaller_reach;
use lattice::Point;
use solid::{MOST_CLEARANCE, QuestionFault, Solid, check_asked};

/// Members of both solids. It is not exact: the nearest members of the two may lie apart.
#[derive(Drop)]
pub struct Meet<S, T> {
    left: S,
    right: T,
}

impl<S: Solid, T: Solid> Meet<S, T> {
    ghost use Rattle.layers.specs.Made.{meet_of};
    ghost use Rattle.layers.specs.Piled.{MeetsPiles};

    pub fn new(left: S, right: T) -> Meet<S, T>
        ensures value { result ≡ meet_of left right }
        ensures piled { MeetsPiles (S.Solid.body left) (T.Solid.body right)
            (⟦<Meet<S, T> as Solid>⟧.body result) }
    {
        Meet { left, right }
    }
}

impl<S: Solid, T: Solid> Solid for Meet<S, T> {
    ghost body = { λ m. meet (S.Solid.body m.left) (T.Solid.body m.right) };

    ghost lawful = { λ m. meet_lawful _ _ (S.Solid.lawful m.left) (T.Solid.lawful m.right) };

    fn reach(&self) -> u32 {
        smaller_reach(&self.left, &self.right)
    }

    fn clearance(&self, p: Point) -> Result<u32, QuestionFault> {
        self.clearance_up_to(p, MOST_CLEARANCE)
    }

    fn clearance_up_to(&self, p: Point, most: u32) -> Result<u32, QuestionFault> {
        let left = self.left.clearance_up_to(p, most)?;
        // Where the first reaches the limit, so does the greater of the two.
        if left == most {
            check_asked(self.right.reach(), p)?;
            return Ok(most);
        }
        let right = self.right.clearance_up_to(p, most)?;
        Ok(left.max(right))
    }
}
