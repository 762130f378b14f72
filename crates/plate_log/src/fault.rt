//! Why a plate refuses a call.
ghost use Rattle.std.specs.Prelude.{◌≡◌, Some};
ghost use Rattle.refusal.specs.Texts.{refusal_text};
ghost use Rattle.plate_log.specs.Codes.{plate_code};
ghost use Rattle.plate_log.specs.declared.fault.PlateFault.TheVariants.{View, NoPixel, Shallow};

use march::{PixelFault, StepFault, ViewFault};
use refusal::{Refusal, RefusalCode, Rule};
use std::fmt;

/// Why a plate refuses a call.
#[derive(Clone, Copy, PartialEq, Eq, Debug)]
pub enum PlateFault {
    /// 4 or 5: a number of the view is refused, at its place.
    View(ViewFault),
    /// 18: there are fewer records than pixels.
    TooFewRecords,
    /// 19: the view has no such pixel.
    NoPixel,
    /// 16: the solid's reach is under 32,767, so that it does not answer on all of the working
    /// range.
    Shallow,
    /// 20: a pixel still marches.
    StillMarching,
    /// 21: the bytes have no room for the image.
    NoRoom,
}

impl Refusal for PlateFault {
    ghost code = { plate_code };

    fn number(&self) -> u32 {
        match self {
            PlateFault::View(fault) => fault.number(),
            PlateFault::TooFewRecords => Rule::Buffer.number(),
            PlateFault::NoPixel => Rule::NoPixel.number(),
            PlateFault::Shallow => Rule::Shallow.number(),
            PlateFault::StillMarching => Rule::StillMarching.number(),
            PlateFault::NoRoom => Rule::NoRoom.number(),
        }
    }

    fn place(&self) -> u32 {
        match self {
            PlateFault::View(fault) => fault.place(),
            _ => 0,
        }
    }
}

impl fmt::Display for PlateFault {
    ghost output = { λ fault. Some (refusal_text (plate_code fault)) };

    fn fmt<W: fmt::Write>(&self, f: &mut fmt::Formatter<W>) -> fmt::Result {
        RefusalCode::of(self).fmt(f)
    }
}

impl From<ViewFault> for PlateFault {
    ghost from_gives = { λ f r. r ≡ View f };

    fn from(fault: ViewFault) -> PlateFault {
        PlateFault::View(fault)
    }
}

impl From<PixelFault> for PlateFault {
    ghost from_gives = { λ _ r. r ≡ NoPixel };

    fn from(_fault: PixelFault) -> PlateFault {
        PlateFault::NoPixel
    }
}

impl From<StepFault> for PlateFault {
    ghost from_gives = { λ _ r. r ≡ Shallow };

    fn from(_fault: StepFault) -> PlateFault {
        PlateFault::Shallow
    }
}
