//! A ray: the points that a probe passes.
ghost use Rattle.std.specs.Prelude.{◌≡◌, ◌≤◌, unsigned_abs};
ghost use Rattle.march.specs.declared.ray.TheConstants.{MOST_START};
ghost use Rattle.march.specs.declared.view.TheConstants.{MOST_FAR};

use crate::along::along;
use crate::deep::Deep;
use crate::pixel::Pixel;
use lattice::{Direction, Point};
use solid::Solid;

/// No coordinate of a ray's start is above this, in size: an origin's is at most 16,384, and from
/// there a ray's start lies at most 63 steps across and 63 down.
const MOST_START: u32 = 16_510;

/// The ray of a pixel: the points start + t toward, for t = 0..far. All of them lie in the working
/// range.
#[derive(Clone, Copy)]
pub struct Ray {
    pub(crate) start: Point,
    pub(crate) toward: Direction,
    pub(crate) far: u32,
    ghost x_in_range: { unsigned_abs start.x ≤ MOST_START },
    ghost y_in_range: { unsigned_abs start.y ≤ MOST_START },
    ghost z_in_range: { unsigned_abs start.z ≤ MOST_START },
    ghost far_in_range: { far ≤ unsigned_abs MOST_FAR },
}

impl Ray {
    ghost use Rattle.march.specs.Lent.{lent_body};
    ghost use Rattle.march.specs.View.{along, clear_along};
    ghost use Rattle.march.specs.March.{after_probe};

    /// The point at t.
    pub(crate) fn at(&self, t: u32) -> Point
        requires { t ≤ self.now.far }
        ensures { result ≡ along self.now.start t self.now.toward }
    {
        along(self.start, t, self.toward)
    }

    /// Asks at t: what that leaves of a march with so many probes before it.
    pub(crate) fn probe<S: Solid>(&self, t: u32, probes: u32, solid: &Deep<'_, S>) -> Pixel
        requires { (t ≤ self.now.far) × (probes ≤ t) }
        ensures { result
            ≡ after_probe self.now.far t probes (clear_along (lent_body solid.now) self.now t) }
    {
        // Every point of a ray lies in the working range, where the solid answers. One step past
        // the end is a miss already, so no larger clearance is asked for.
        let clearance = solid
            .solid
            .clearance_up_to(self.at(t), self.far - t + 1)
            .unwrap();
        Pixel::after_probe(self.far, t, probes, clearance)
    }
}
