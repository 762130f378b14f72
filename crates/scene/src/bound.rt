//! Boxes about the bodies of a scene, by which most of them are passed over.
ghost use Rattle.std.specs.Prelude.{◌≡◌};
ghost use Rattle.solid.specs.Body.{Body};
ghost use Rattle.piles.specs.Leaves.{ball, block};

use lattice::Point;
use leaves::{AxisBox, Ball, LeafPoint};
use solid::MOST_REACH;

/// The points that lie from `lo` to `hi` on each axis; none where `lo` is above `hi` on one.
#[derive(Clone, Copy)]
pub struct Bound {
    pub lo: LeafPoint,
    pub hi: LeafPoint,
}

/// The farthest coordinate at which a leaf is asked.
const FARTHEST: i32 = MOST_REACH as i32;

impl Bound {
    ghost use Rattle.scene.specs.Bounds.{IsBound, Holds};

    /// A bound about nothing.
    pub(crate) fn nothing() -> Bound {
        Bound {
            lo: LeafPoint {
                at: Point {
                    x: FARTHEST,
                    y: FARTHEST,
                    z: FARTHEST,
                },
            },
            hi: LeafPoint {
                at: Point {
                    x: -FARTHEST,
                    y: -FARTHEST,
                    z: -FARTHEST,
                },
            },
        }
    }

    /// A bound about all points at which a leaf is asked.
    pub(crate) fn everything() -> Bound
        ensures { (b : Body) → IsBound result b }
    {
        Bound {
            lo: LeafPoint {
                at: Point {
                    x: -FARTHEST,
                    y: -FARTHEST,
                    z: -FARTHEST,
                },
            },
            hi: LeafPoint {
                at: Point {
                    x: FARTHEST,
                    y: FARTHEST,
                    z: FARTHEST,
                },
            },
        }
    }

    /// The box about a ball.
    pub(crate) fn about_ball(leaf: &Ball) -> Bound
        ensures { IsBound result (ball leaf.now.centre leaf.now.radius) }
    {
        let (m, r) = (leaf.centre, leaf.radius as i32);
        Bound {
            lo: LeafPoint {
                at: Point {
                    x: m.x - r,
                    y: m.y - r,
                    z: m.z - r,
                },
            },
            hi: LeafPoint {
                at: Point {
                    x: m.x + r,
                    y: m.y + r,
                    z: m.z + r,
                },
            },
        }
    }

    /// The box itself.
    pub(crate) fn about_box(leaf: &AxisBox) -> Bound
        ensures { IsBound result (block leaf.now.lo leaf.now.hi) }
    {
        Bound {
            lo: LeafPoint { at: leaf.lo },
            hi: LeafPoint { at: leaf.hi },
        }
    }

    /// How far a point lies off the bound.
    #[inline(always)]
    pub(crate) fn off(&self, p: LeafPoint) -> u32
        ensures { result ≡ (block self.now.lo.at self.now.hi.at).clear p.at }
    {
        p.off_block(self.lo, self.hi)
    }

    /// The number of the cell in which its middle lies. Cells that lie near one another mostly have
    /// numbers near one another. What is about everything comes last.
    pub(crate) fn cell_number(&self) -> u32 {
        let (lo, hi) = (self.lo.at, self.hi.at);
        if lo.x == -FARTHEST {
            return u32::MAX;
        }
        spread(cell(lo.x, hi.x)) | spread(cell(lo.y, hi.y)) << 1 | spread(cell(lo.z, hi.z)) << 2
    }

    /// The bound about this one and another.
    pub(crate) fn with(self, other: Bound) -> Bound
        ensures this { Holds result self }
        ensures other { Holds result other }
    {
        let (lo, hi) = (self.lo.at, self.hi.at);
        let (low, high) = (other.lo.at, other.hi.at);
        Bound {
            lo: LeafPoint {
                at: Point {
                    x: lo.x.min(low.x),
                    y: lo.y.min(low.y),
                    z: lo.z.min(low.z),
                },
            },
            hi: LeafPoint {
                at: Point {
                    x: hi.x.max(high.x),
                    y: hi.y.max(high.y),
                    z: hi.z.max(high.z),
                },
            },
        }
    }
}

/// Leaves lie within this, in size.
const FARTHEST_LEAF: i32 = 32_768;

/// So long is the side of a cell; 1,024 of them reach across all leaves.
const CELL_SIDE: u32 = 64;

/// The cell, on one axis, in which the middle of two coordinates lies.
fn cell(lo: i32, hi: i32) -> u32 {
    let middle = (lo.wrapping_add(hi) / 2).clamp(-FARTHEST_LEAF, FARTHEST_LEAF - 1);
    middle.abs_diff(-FARTHEST_LEAF) / CELL_SIDE
}

/// The ten lowest bits of a number, each three places above the last.
fn spread(n: u32) -> u32 {
    let n = (n | n << 16) & 0x0300_00ff;
    let n = (n | n << 8) & 0x0300_f00f;
    let n = (n | n << 4) & 0x030c_30c3;
    (n | n << 2) & 0x0924_9249
}
