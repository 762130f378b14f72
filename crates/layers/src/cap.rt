//! A solid whose clearances have a bound.
ghost use Rattle.std.specs.Prelude.{◌≡◌, ◌≤◌, IfOk, unsigned_abs};
ghost use Rattle.std.specs.Result.{result_map_both};
ghost use Rattle.solid.specs.declared.TheConstants.{MOST_CLEARANCE};
ghost use Rattle.piles.specs.declared.TheConstants.{LEAST_CAP};
ghost use Rattle.piles.specs.Layers.{cap};
ghost use Rattle.piles.proofs.Kept.{cap_lawful};

use crate::fault::{FIRST, LayerFault};
use lattice::Point;
use piles::LEAST_CAP;
use refusal::count_in;
use solid::{MOST_CLEARANCE, QuestionFault, Solid};

/// The solid below, with no clearance above a bound. It is not exact: at the bound the nearest
/// member may be farther off.
#[derive(Drop)]
pub struct Cap<S> {
    below: S,
    most: u32,
    ghost most_in_range: { (unsigned_abs LEAST_CAP ≤ most) × (most ≤ MOST_CLEARANCE) },
}

impl<S: Solid + Drop> Cap<S> {
    ghost use Rattle.layers.specs.Made.{cap_parts, cap_answer};
    ghost use Rattle.layers.specs.Piled.{CapsPiles};

    /// Refuses with 4 a bound outside 1..=2097151.
    pub fn new(below: S, most: i32) -> Result<Cap<S>, LayerFault>
        ensures value { result_map_both cap_parts (λ e. e) result ≡ cap_answer below most }
        ensures piled { IfOk result (λ made.
            CapsPiles (S.Solid.body below) (⟦<Cap<S> as Solid>⟧.body made)) }
    {
        let most = count_in(most, LEAST_CAP, MOST_CLEARANCE as i32, FIRST)?;
        Ok(Cap { below, most })
    }
}

impl<S: Solid> Solid for Cap<S> {
    ghost body = { λ c. cap c.most (S.Solid.body c.below) };

    ghost lawful = { λ c. cap_lawful c.most _ c.most_in_range.0 (S.Solid.lawful c.below) };

    fn reach(&self) -> u32 {
        self.below.reach()
    }

    fn clearance(&self, p: Point) -> Result<u32, QuestionFault> {
        self.clearance_up_to(p, MOST_CLEARANCE)
    }

    fn clearance_up_to(&self, p: Point, most: u32) -> Result<u32, QuestionFault> {
        self.below.clearance_up_to(p, most.min(self.most))
    }
}
