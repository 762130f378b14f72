//! Why a view, a pixel, a ray or a step is refused.
ghost use Rattle.std.specs.Prelude.{◌≡◌, Some};
ghost use Rattle.refusal.specs.Texts.{refusal_text};
ghost use Rattle.march.specs.Codes.{view_code, pixel_code, step_code, ray_code};
ghost use Rattle.march.specs.declared.fault.ViewFault.TheVariants.{Range, Row};
ghost use Rattle.march.specs.declared.fault.RayFault.TheVariants.{View, NoPixel};

use lattice::NoRow;
use refusal::{OutOfRange, Refusal, RefusalCode, Rule};
use std::fmt;

/// Why a view's numbers are refused. Places are those of a job: origin 1 to 3, rows 4 to 6,
/// width 7, height 8, far 9.
#[derive(Clone, Copy, PartialEq, Eq, Debug)]
pub enum ViewFault {
    /// 4: the number at this place is outside its range.
    Range { place: u32 },
    /// 5: the number at this place is no row of the table of directions that moves.
    Row { place: u32 },
}

impl Refusal for ViewFault {
    ghost code = { view_code };

    fn number(&self) -> u32 {
        match self {
            ViewFault::Range { .. } => Rule::Range.number(),
            ViewFault::Row { .. } => Rule::Row.number(),
        }
    }

    fn place(&self) -> u32 {
        match self {
            ViewFault::Range { place } | ViewFault::Row { place } => *place,
        }
    }
}

impl fmt::Display for ViewFault {
    ghost output = { λ fault. Some (refusal_text (view_code fault)) };

    fn fmt<W: fmt::Write>(&self, f: &mut fmt::Formatter<W>) -> fmt::Result {
        RefusalCode::of(self).fmt(f)
    }
}

impl From<NoRow> for ViewFault {
    ghost from_gives = { λ e r. r ≡ Row e.place };

    fn from(fault: NoRow) -> ViewFault {
        ViewFault::Row { place: fault.place }
    }
}

impl From<OutOfRange> for ViewFault {
    ghost from_gives = { λ e r. r ≡ Range e.place };

    fn from(fault: OutOfRange) -> ViewFault {
        ViewFault::Range { place: fault.place }
    }
}

/// Why a call that names a pixel of a view is refused.
#[derive(Clone, Copy, PartialEq, Eq, Debug)]
pub enum PixelFault {
    /// 19: the view has no such pixel.
    NoPixel,
}

impl Refusal for PixelFault {
    ghost code = { pixel_code };

    fn number(&self) -> u32 {
        match self {
            PixelFault::NoPixel => Rule::NoPixel.number(),
        }
    }

    fn place(&self) -> u32 {
        0
    }
}

impl fmt::Display for PixelFault {
    ghost output = { λ fault. Some (refusal_text (pixel_code fault)) };

    fn fmt<W: fmt::Write>(&self, f: &mut fmt::Formatter<W>) -> fmt::Result {
        RefusalCode::of(self).fmt(f)
    }
}

/// Why a step is refused.
#[derive(Clone, Copy, PartialEq, Eq, Debug)]
pub enum StepFault {
    /// 16: the solid's reach is under the working range, on all of which it would have to answer.
    Shallow,
}

impl Refusal for StepFault {
    ghost code = { step_code };

    fn number(&self) -> u32 {
        match self {
            StepFault::Shallow => Rule::Shallow.number(),
        }
    }

    fn place(&self) -> u32 {
        0
    }
}

impl fmt::Display for StepFault {
    ghost output = { λ fault. Some (refusal_text (step_code fault)) };

    fn fmt<W: fmt::Write>(&self, f: &mut fmt::Formatter<W>) -> fmt::Result {
        RefusalCode::of(self).fmt(f)
    }
}

/// Why a ray is not made.
#[derive(Clone, Copy, PartialEq, Eq, Debug)]
pub enum RayFault {
    /// The view's numbers are refused.
    View(ViewFault),
    /// 19: the view has no such pixel.
    NoPixel,
}

impl Refusal for RayFault {
    ghost code = { ray_code };

    fn number(&self) -> u32 {
        match self {
            RayFault::View(fault) => fault.number(),
            RayFault::NoPixel => Rule::NoPixel.number(),
        }
    }

    fn place(&self) -> u32 {
        match self {
            RayFault::View(fault) => fault.place(),
            RayFault::NoPixel => 0,
        }
    }
}

impl fmt::Display for RayFault {
    ghost output = { λ fault. Some (refusal_text (ray_code fault)) };

    fn fmt<W: fmt::Write>(&self, f: &mut fmt::Formatter<W>) -> fmt::Result {
        RefusalCode::of(self).fmt(f)
    }
}

impl From<ViewFault> for RayFault {
    ghost from_gives = { λ f r. r ≡ View f };

    fn from(cause: ViewFault) -> RayFault {
        RayFault::View(cause)
    }
}

impl From<PixelFault> for RayFault {
    ghost from_gives = { λ _ r. r ≡ NoPixel };

    fn from(_fault: PixelFault) -> RayFault {
        RayFault::NoPixel
    }
}
