//! Why the making of a layer is refused.
ghost use Rattle.std.specs.Prelude.{◌≡◌, Some};
ghost use Rattle.refusal.specs.Texts.{refusal_text};

use refusal::{OutOfRange, Refusal, RefusalCode, Rule};
use std::fmt;

/// Why the making of a layer is refused. What was to lie below is let go; a caller that wants to
/// keep it lends it.
#[derive(Clone, Copy, PartialEq, Eq, Debug)]
pub enum LayerFault {
    /// 4: the number at this place is outside its range.
    Range { place: u32 },
    /// 11: the offset passes the reach below.
    PastReach,
}

impl Refusal for LayerFault {
    ghost use Rattle.layers.specs.Codes.{layer_code};

    ghost code = { layer_code };

    fn number(&self) -> u32 {
        match *self {
            LayerFault::Range { place: _ } => Rule::Range.number(),
            LayerFault::PastReach => Rule::PastReach.number(),
        }
    }

    fn place(&self) -> u32 {
        match *self {
            LayerFault::Range { place } => place,
            LayerFault::PastReach => 0,
        }
    }
}

impl fmt::Display for LayerFault {
    ghost use Rattle.layers.specs.Codes.{layer_code};

    ghost output = { λ fault. Some (refusal_text (layer_code fault)) };

    fn fmt<W: fmt::Write>(&self, f: &mut fmt::Formatter<W>) -> fmt::Result {
        RefusalCode::of(self).fmt(f)
    }
}

impl From<OutOfRange> for LayerFault {
    ghost use Rattle.layers.specs.declared.fault.LayerFault.TheVariants.{Range};

    ghost from_gives = { λ e r. r ≡ Range e.place };

    fn from(fault: OutOfRange) -> LayerFault {
        LayerFault::Range { place: fault.place }
    }
}

/// Where a call's numbers stand. An offset has three; a distance or a bound is the first alone.
pub(crate) const FIRST: u32 = 1;

pub(crate) const SECOND: u32 = 2;

pub(crate) const THIRD: u32 = 3;
