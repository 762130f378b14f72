//! Steps in a direction.
ghost use Rattle.std.specs.Prelude.{◌≡◌, ◌≤◌, pos, ◌+ℤ◌, ◌*ℤ◌, unsigned_abs};
ghost use Rattle.lattice.specs.Space.{In};
ghost use Rattle.march.specs.declared.deep.TheConstants.{WORKING_RANGE};
ghost use Rattle.march.specs.declared.view.TheConstants.{MOST_FAR};
ghost use Rattle.march.specs.View.{along};

use lattice::{Direction, Point};

/// n steps of a part of a direction, on one axis.
fn along_axis(from: i32, n: u32, d: i32) -> i32
    requires from { unsigned_abs from ≤ WORKING_RANGE }
    requires steps { (n ≤ unsigned_abs MOST_FAR) × (unsigned_abs d ≤ 1) }
    ensures { result ≡ from +ℤ (pos n *ℤ d) }
{
    from + n as i32 * d
}

/// The point n steps from p.
pub(crate) fn along(p: Point, n: u32, d: Direction) -> Point
    requires { In WORKING_RANGE p × (n ≤ unsigned_abs MOST_FAR) }
    ensures { result ≡ along p n d }
{
    Point {
        x: along_axis(p.x, n, d.x),
        y: along_axis(p.y, n, d.y),
        z: along_axis(p.z, n, d.z),
    }
}
