//! A pixel's state.
ghost use Rattle.std.specs.Prelude.{◌≡◌, ◌≤◌, unsigned_abs};
ghost use Rattle.march.specs.declared.view.TheConstants.{MOST_FAR};

use crate::deep::Deep;
use crate::ray::Ray;
use solid::Solid;

/// How far the ray of a pixel has come. It marches, at `t` along its ray, or it has settled, as a
/// hit at a depth or as a miss; `probes` counts the questions that were asked for it.
#[derive(Clone, Copy, PartialEq, Eq, Debug)]
pub enum Pixel {
    Marching { t: u32, probes: u32 },
    Hit { depth: u32, probes: u32 },
    Miss { probes: u32 },
}

impl Pixel {
    ghost use Rattle.march.specs.Lent.{lent_body};
    ghost use Rattle.march.specs.March.{after_probe, after_step};
    ghost use Rattle.march.specs.View.{clear_along, far_of};

    /// What a probe at t, answered by that clearance, leaves of a march with so many probes before
    /// it.
    pub(crate) fn after_probe(far: u32, t: u32, probes: u32, clearance: u32) -> Pixel
        requires { (t ≤ far) × (far ≤ unsigned_abs MOST_FAR) × (probes ≤ t) }
        ensures { result ≡ after_probe far t probes clearance }
    {
        let probes = probes + 1;
        if clearance == 0 {
            return Pixel::Hit { depth: t, probes };
        }
        if clearance > far - t {
            return Pixel::Miss { probes };
        }
        Pixel::Marching {
            t: t + clearance,
            probes,
        }
    }

    /// The pixel after one step along its ray, over a solid that answers on all of the working
    /// range. A settled pixel stays as it is. So does one with a t past the end of the ray, or with
    /// more probes than its t: no march leaves such a pixel.
    pub fn stepped<S: Solid>(self, ray: &Ray, solid: &Deep<'_, S>) -> Pixel
        ensures { result
            ≡ after_step (clear_along (lent_body solid.now) ray.now) (far_of ray.now) self }
    {
        match self {
            Pixel::Marching { t, probes } if t <= ray.far && probes <= t => {
                ray.probe(t, probes, solid)
            }
            _ => self,
        }
    }
}
