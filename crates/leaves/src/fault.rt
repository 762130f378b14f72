//! Why a leaf's numbers are refused.
ghost use Rattle.std.specs.Prelude.{◌≡◌, ◌+◌, ◌^◌, ◌<◌, OnOk, Some};
ghost use Rattle.refusal.specs.Texts.{refusal_text};
ghost use Rattle.lattice.specs.Space.{IsPlacement};
ghost use Rattle.leaves.specs.Codes.{leaf_code, surface_code};
ghost use Rattle.leaves.specs.declared.fault.LeafFault.TheVariants.{Range};
ghost use Rattle.leaves.specs.Made.{point_in_range};

use lattice::{LEAST_COORDINATE, MOST_COORDINATE, Point};
use refusal::{OutOfRange, Refusal, RefusalCode, Rule, in_range};
use std::fmt;

/// Why a ball or a box is not made.
#[derive(Clone, Copy, PartialEq, Eq, Debug)]
pub enum LeafFault {
    /// 4: the number at this place, counted from 1, is outside its range.
    Range { place: u32 },
    /// 6: a box's lower corner is above its upper one on an axis.
    Crossed,
}

impl Refusal for LeafFault {
    ghost code = { leaf_code };

    fn number(&self) -> u32 {
        match self {
            LeafFault::Range { place: _ } => Rule::Range.number(),
            LeafFault::Crossed => Rule::Corners.number(),
        }
    }

    fn place(&self) -> u32 {
        match self {
            LeafFault::Range { place } => *place,
            LeafFault::Crossed => 0,
        }
    }
}

impl fmt::Display for LeafFault {
    ghost output = { λ fault. Some (refusal_text (leaf_code fault)) };

    fn fmt<W: fmt::Write>(&self, f: &mut fmt::Formatter<W>) -> fmt::Result {
        RefusalCode::of(self).fmt(f)
    }
}

impl From<OutOfRange> for LeafFault {
    ghost from_gives = { λ e r. r ≡ Range e.place };

    fn from(fault: OutOfRange) -> LeafFault {
        LeafFault::Range { place: fault.place }
    }
}

/// Why a surface is not made.
#[derive(Clone, Copy, PartialEq, Eq, Debug)]
pub enum SurfaceFault {
    /// 13: the width or the depth is outside 1..64.
    Size,
    /// 18: there are fewer heights than columns.
    Buffer,
}

impl Refusal for SurfaceFault {
    ghost code = { surface_code };

    fn number(&self) -> u32 {
        match self {
            SurfaceFault::Size => Rule::Size.number(),
            SurfaceFault::Buffer => Rule::Buffer.number(),
        }
    }

    fn place(&self) -> u32 {
        0
    }
}

impl fmt::Display for SurfaceFault {
    ghost output = { λ fault. Some (refusal_text (surface_code fault)) };

    fn fmt<W: fmt::Write>(&self, f: &mut fmt::Formatter<W>) -> fmt::Result {
        RefusalCode::of(self).fmt(f)
    }
}

/// Checks the three numbers of a point, the first of which stands at the place `first`.
#[tactic(auto, unfolding(crate::specs::Made::point_in_range))]
pub(crate) fn check_point(p: Point, first: u32) -> Result<(), LeafFault>
    requires { first + 2 < 2 ^ 32 }
    ensures value { result ≡ point_in_range p first }
    ensures placement { OnOk result (IsPlacement p) }
{
    in_range(p.x, LEAST_COORDINATE, MOST_COORDINATE, first)?;
    in_range(p.y, LEAST_COORDINATE, MOST_COORDINATE, first + 1)?;
    in_range(p.z, LEAST_COORDINATE, MOST_COORDINATE, first + 2)?;
    Ok(())
}
