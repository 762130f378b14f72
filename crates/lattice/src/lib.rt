//! The lattice on which the kit works: points of three whole numbers, their distance, and
//! the directions in which a probe may travel.
#![tactic(auto)]

ghost use Rattle.std.specs.Prelude.{◌≡◌, ℕ, ◌+◌, ◌≤◌};
ghost use Rattle.lattice.specs.Space.{dist, norm, within, back, back_wrapped, FitsI32, ordered};

mod direction;

pub use direction::{Direction, NoRow};

/// The coordinates of a ball's centre, a box's corners and a view's origin lie in
/// -16,384..=16,383.
pub const LEAST_COORDINATE: i32 = -16_384;

pub const MOST_COORDINATE: i32 = 16_383;

/// The largest part, in size, of an offset by which a solid is moved.
pub const MOST_OFFSET: i32 = 16_383;

/// A point of the lattice.
#[derive(Clone, Copy, PartialEq, Eq, Debug)]
pub struct Point {
    pub x: i32,
    pub y: i32,
    pub z: i32,
}

impl Point {
    /// The point of these three numbers.
    pub fn new(x: i32, y: i32, z: i32) -> Point
        ensures { result ≡ record { x = x; y = y; z = z } }
    {
        Point { x, y, z }
    }

    /// The largest of the three absolute differences.
    pub fn distance(self, other: Point) -> u32
        ensures { result ≡ dist self other }
    {
        let x = self.x.abs_diff(other.x);
        let y = self.y.abs_diff(other.y);
        let z = self.z.abs_diff(other.z);
        x.max(y.max(z))
    }

    /// The largest part, in size.
    pub fn norm(self) -> u32
        ensures { result ≡ norm self }
    {
        self.x
            .unsigned_abs()
            .max(self.y.unsigned_abs().max(self.z.unsigned_abs()))
    }

    /// Is no part above `reach` in size?
    pub fn within(self, reach: u32) -> bool
        ensures { result ≡ within reach self }
    {
        self.x.unsigned_abs() <= reach
            && self.y.unsigned_abs() <= reach
            && self.z.unsigned_abs() <= reach
    }

    /// The point from which `by` leads here. A coordinate that no `i32` holds wraps around.
    #[inline(always)]
    pub fn wrapping_sub(self, by: Point) -> Point
        ensures value { result ≡ back_wrapped by self }
        ensures held { FitsI32 (back by self) → result ≡ back by self }
    {
        Point {
            x: self.x.wrapping_sub(by.x),
            y: self.y.wrapping_sub(by.y),
            z: self.z.wrapping_sub(by.z),
        }
    }
}

/// Is `lo` above `hi` on no axis? Two corners that are in order and in range are a box; this is its
/// test, and so takes any two points.
pub fn ordered(lo: Point, hi: Point) -> bool
    ensures { result ≡ ordered lo hi }
{
    lo.x <= hi.x && lo.y <= hi.y && lo.z <= hi.z
}
