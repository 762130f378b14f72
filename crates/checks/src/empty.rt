//! A solid that is no leaf and no layer.
ghost use Rattle.std.specs.Prelude.{◌≡◌, ◌≤◌, min};
ghost use Rattle.solid.specs.declared.TheConstants.{MOST_REACH};
ghost use Rattle.checks.specs.Empty.{empty, empty_lawful};

use lattice::Point;
use solid::{MOST_REACH, QuestionFault, Solid, check_asked};

/// A solid without members: every point has clearance 1. Its reach is the one that it is given.
#[derive(Clone, Copy)]
pub struct Empty {
    reach: u32,
    ghost near_enough: { reach ≤ MOST_REACH },
}

impl Empty {
    /// An empty solid of that reach, or of the greatest if it is more.
    pub fn new(reach: u32) -> Empty
        ensures { ⟦<Empty as Solid>⟧.body result ≡ empty (min reach MOST_REACH) }
    {
        Empty {
            reach: reach.min(MOST_REACH),
        }
    }
}

impl Solid for Empty {
    ghost body = { λ s. empty s.reach };

    ghost lawful = { λ s. empty_lawful s.reach s.near_enough };

    fn reach(&self) -> u32 {
        self.reach
    }

    fn clearance(&self, p: Point) -> Result<u32, QuestionFault> {
        check_asked(self.reach, p)?;
        Ok(1)
    }
}
