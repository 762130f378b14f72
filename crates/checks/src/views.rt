//! The views of the tests.
use lattice::Point;
use march::ViewNumbers;

/// A view straight down from an origin, its columns along x and its rows along y.
pub(crate) fn straight_down(origin: Point, width: i32, height: i32, far: i32) -> ViewNumbers {
    ViewNumbers {
        origin,
        ray: 12,
        across: 22,
        down: 16,
        width,
        height,
        far,
    }
}
