//! A solid that is moved.
ghost use Rattle.std.specs.Prelude.{◌≡◌, IfOk};
ghost use Rattle.piles.specs.Layers.{shift};
ghost use Rattle.piles.proofs.Kept.{shift_lawful};
ghost use Rattle.layers.specs.Checks.{check_offset};

use crate::fault::{FIRST, LayerFault, SECOND, THIRD};
use lattice::{MOST_OFFSET, Point};
use refusal::in_range;
use solid::{Exact, MOST_CLEARANCE, QuestionFault, Solid, check_asked};

/// Checks an offset of a solid of that reach: refuses with 4 the first part outside -16383..=16383,
/// then with 11 an offset of which a part is above the reach, in size.
pub fn check_offset(reach: u32, by: Point) -> Result<(), LayerFault>
    ensures { result ≡ check_offset reach by }
{
    in_range(by.x, -MOST_OFFSET, MOST_OFFSET, FIRST)?;
    in_range(by.y, -MOST_OFFSET, MOST_OFFSET, SECOND)?;
    in_range(by.z, -MOST_OFFSET, MOST_OFFSET, THIRD)?;
    if by.norm() > reach {
        return Err(LayerFault::PastReach);
    }
    Ok(())
}

/// The solid below, moved by an offset, and exact if that one is. An offset that passes the reach
/// below counts as none; `new` makes no such shift.
#[derive(Drop)]
pub struct Shift<S> {
    below: S,
    by: Point,
}

impl<S: Solid + Drop> Shift<S> {
    ghost use Rattle.layers.specs.Made.{shift_answer};
    ghost use Rattle.layers.specs.Piled.{ShiftsPiles};

    /// Refuses with 4 the first part outside -16383..=16383, then with 11 an offset of which a part
    /// is above the reach below, in size.
    pub fn new(below: S, by: Point) -> Result<Shift<S>, LayerFault>
        ensures value { result ≡ shift_answer (S.Solid.body below).reach below by }
        ensures piled { IfOk result (λ made.
            ShiftsPiles by (S.Solid.body below) (⟦<Shift<S> as Solid>⟧.body made)) }
    {
        check_offset(below.reach(), by)?;
        Ok(Shift { below, by })
    }
}

impl<S: Solid> Solid for Shift<S> {
    ghost body = { λ s. shift s.by (S.Solid.body s.below) };

    ghost lawful = { λ s. shift_lawful s.by _ (S.Solid.lawful s.below) };

    fn reach(&self) -> u32 {
        let below = self.below.reach();
        let offset = self.by.norm();
        if offset <= below {
            below - offset
        } else {
            below
        }
    }

    fn clearance(&self, p: Point) -> Result<u32, QuestionFault> {
        self.clearance_up_to(p, MOST_CLEARANCE)
    }

    fn clearance_up_to(&self, p: Point, most: u32) -> Result<u32, QuestionFault> {
        let below = self.below.reach();
        let offset = self.by.norm();
        if offset > below {
            return self.below.clearance_up_to(p, most);
        }
        check_asked(below - offset, p)?;
        self.below.clearance_up_to(p.wrapping_sub(self.by), most)
    }
}

impl<S: Exact> Exact for Shift<S> {
    fn exactly(&self) {
        self.below.exactly();
    }
}
