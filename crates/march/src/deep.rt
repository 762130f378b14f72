//! Solids that answer on all of the working range.
ghost use Rattle.std.specs.Prelude.{◌≡◌, ◌<◌, MatchResult};
ghost use Rattle.march.specs.declared.deep.TheConstants.{WORKING_RANGE};
ghost use Rattle.march.specs.Deep.{IsDeep};

use crate::fault::StepFault;
use solid::Solid;

/// The working range is the points whose coordinates are at most this, in size.
pub const WORKING_RANGE: u32 = 32_767;

/// A solid that is lent, and answers on all of the working range. Every point of a ray lies there.
#[derive(Drop)]
pub struct Deep<'a, S: Solid> {
    pub(crate) solid: &'a S,
    ghost is_deep: { IsDeep (S.Solid.body solid.now) },
}

impl<'a, S: Solid> Deep<'a, S> {
    ghost use Rattle.march.specs.Lent.{lent_solid};

    /// That solid; refused, with 16, where its reach is under the working range.
    pub fn of(solid: &'a S) -> Result<Deep<'a, S>, StepFault>
        ensures { MatchResult result
            (λ deep. lent_solid deep ≡ solid.now)
            (λ _. (S.Solid.body solid.now).reach < WORKING_RANGE) }
    {
        if solid.reach() < WORKING_RANGE {
            return Err(StepFault::Shallow);
        }
        Ok(Deep { solid })
    }
}
