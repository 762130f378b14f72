//! The union of two solids.
ghost use Rattle.std.specs.Prelude.{◌≡◌, min};
ghost use Rattle.piles.specs.Layers.{unite};
ghost use Rattle.piles.proofs.Kept.{unite_lawful};

use lattice::Point;
use solid::{Exact, MOST_CLEARANCE, QuestionFault, Solid};

/// Members of either solid. It is exact over two exact solids.
#[derive(Drop)]
pub struct Unite<S, T> {
    left: S,
    right: T,
}

impl<S: Solid, T: Solid> Unite<S, T> {
    ghost use Rattle.layers.specs.Made.{unite_of};
    ghost use Rattle.layers.specs.Piled.{UnitesPiles};

    pub fn new(left: S, right: T) -> Unite<S, T>
        ensures value { result ≡ unite_of left right }
        ensures piled { UnitesPiles (S.Solid.body left) (T.Solid.body right)
            (⟦<Unite<S, T> as Solid>⟧.body result) }
    {
        Unite { left, right }
    }
}

impl<S: Solid, T: Solid> Solid for Unite<S, T> {
    ghost body = { λ u. unite (S.Solid.body u.left) (T.Solid.body u.right) };

    ghost lawful = { λ u. unite_lawful _ _ (S.Solid.lawful u.left) (T.Solid.lawful u.right) };

    fn reach(&self) -> u32 {
        smaller_reach(&self.left, &self.right)
    }

    fn clearance(&self, p: Point) -> Result<u32, QuestionFault> {
        self.clearance_up_to(p, MOST_CLEARANCE)
    }

    fn clearance_up_to(&self, p: Point, most: u32) -> Result<u32, QuestionFault> {
        let left = self.left.clearance_up_to(p, most)?;
        self.right.clearance_up_to(p, left)
    }
}

impl<S: Exact, T: Exact> Exact for Unite<S, T> {
    fn exactly(&self) {
        self.left.exactly();
        self.right.exactly();
    }
}

/// The reach of what stands on two solids.
pub(crate) fn smaller_reach<S: Solid, T: Solid>(left: &S, right: &T) -> u32
    ensures { result ≡ min (S.Solid.body left.now).reach (T.Solid.body right.now).reach }
{
    left.reach().min(right.reach())
}
