//! What the leaves and the layers mean, what a pile of them is, and that all of them are lawful.
//! The definitions stand in `specs/`, the laws in `proofs/`; the crates above cite both.
#![tactic(auto)]

ghost use Rattle.std.specs.Prelude.{◌≡◌};
ghost use Rattle.solid.specs.Answer.{membership};
ghost use Rattle.piles.specs.Stands.{AnswersAlgebra, PilesStand};

use lattice::Point;
use solid::{QuestionFault, Solid};

/// The least distance to thicken by.
pub const LEAST_THICKNESS: i32 = 0;

/// The largest distance to thicken by.
pub const MOST_THICKNESS: i32 = 1023;

/// The least bound that a cap may set. The largest is that of every clearance.
pub const LEAST_CAP: i32 = 1;

/// Is the point a member? Refused as the clearance is. Of a pile the answer is that of set algebra,
/// and every pile is lawful.
pub fn is_member<S: Solid>(solid: &S, p: Point) -> Result<bool, QuestionFault>
    ensures value { result ≡ membership (S.Solid.body solid.now) p }
    ensures algebra { AnswersAlgebra (S.Solid.body solid.now) p result }
    ensures piles { PilesStand }
{
    let c = solid.clearance(p)?;
    Ok(c == 0)
}
