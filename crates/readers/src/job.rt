//! A job: the view, and the numbers of the pile.
ghost use Rattle.std.specs.Prelude.{◌≤◌, IsOk, unsigned_abs};
ghost use Rattle.lattice.specs.Space.{IsOffset};
ghost use Rattle.piles.specs.declared.TheConstants.{MOST_THICKNESS};
ghost use Rattle.march.specs.Checks.{view_answer};

use lattice::Point;
use leaves::AxisBox;
use march::ViewNumbers;

/// The words of a job: one that says so, and nineteen numbers.
pub const JOB_WORDS: usize = 20;

/// What a job asks for. All its numbers are in range.
#[derive(Clone, Copy)]
pub struct Job {
    pub view: ViewNumbers,
    /// How far the scene is thickened.
    pub guard: u32,
    /// The offset of the surface.
    pub shift: Point,
    /// The box that the pile is cut to.
    pub clip: AxisBox,
    ghost view_in_range: { IsOk (view_answer view) },
    ghost guard_in_range: { guard ≤ unsigned_abs MOST_THICKNESS },
    ghost shift_in_range: { IsOffset shift },
}
