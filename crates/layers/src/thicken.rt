//! An exact solid that is thickened.
ghost use Rattle.std.specs.Prelude.{◌≡◌, IfOk, unsigned_abs};
ghost use Rattle.piles.specs.Layers.{thicken};
ghost use Rattle.piles.specs.Stands.{NearDecides};
ghost use Rattle.piles.proofs.Kept.{thicken_lawful};
ghost use Rattle.layers.specs.Checks.{thicken_number};

use crate::fault::{FIRST, LayerFault};
use lattice::Point;
use piles::{LEAST_THICKNESS, MOST_THICKNESS};
use refusal::count_in;
use solid::{Exact, MOST_CLEARANCE, QuestionFault, Solid};

/// A distance to thicken by, which lies in 0..=1023; another is refused with 4.
pub fn check_thickness(by: i32) -> Result<u32, LayerFault>
    ensures { result ≡ thicken_number by }
{
    Ok(count_in(by, LEAST_THICKNESS, MOST_THICKNESS, FIRST)?)
}

/// The points that have a member of the solid below within a distance. Only an exact solid can be
/// thickened: over another, a clearance less the distance might be 0 where no member is near.
#[derive(Drop)]
pub struct Thicken<S: Exact> {
    below: S,
    by: u32,
}

impl<S: Exact + Drop> Thicken<S> {
    ghost use Rattle.layers.specs.Made.{thicken_answer};
    ghost use Rattle.layers.specs.Piled.{ThickensPiles};

    /// Refuses with 4 a distance outside 0..=1023. What it means is said by looking through a cube
    /// about a point; `near` says that a member is found there exactly where there is one within
    /// the distance.
    pub fn new(below: S, by: i32) -> Result<Thicken<S>, LayerFault>
        ensures value { result ≡ thicken_answer below by }
        ensures near { NearDecides }
        ensures piled { IfOk result (λ made.
            ThickensPiles (unsigned_abs by) (S.Solid.body below)
            (⟦<Thicken<S> as Solid>⟧.body made)) }
    {
        below.exactly();
        let by = check_thickness(by)?;
        Ok(Thicken { below, by })
    }
}

impl<S: Exact> Solid for Thicken<S> {
    ghost body = { λ t. thicken t.by (S.Solid.body t.below) };

    ghost lawful = { λ t. thicken_lawful t.by _ (S.Solid.lawful t.below) };

    fn reach(&self) -> u32 {
        self.below.reach()
    }

    fn clearance(&self, p: Point) -> Result<u32, QuestionFault> {
        self.clearance_up_to(p, MOST_CLEARANCE)
    }

    fn clearance_up_to(&self, p: Point, most: u32) -> Result<u32, QuestionFault> {
        self.below.exactly();
        let clear = self.below.clearance_up_to(p, most.saturating_add(self.by))?;
        Ok(clear.saturating_sub(self.by))
    }
}

impl<S: Exact> Exact for Thicken<S> {
    fn exactly(&self) {
        self.below.exactly();
    }
}
