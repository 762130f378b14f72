//! A ray on its march.
ghost use Rattle.std.specs.Prelude.{◌≡◌, ◌≤◌};

use crate::deep::Deep;
use crate::fault::{RayFault, StepFault};
use crate::pixel::Pixel;
use crate::ray::Ray;
use crate::settled::{Outcome, Settled};
use crate::view::{View, ViewNumbers};
use lattice::Point;
use solid::Solid;

/// A ray that marches. It has come to `t`, and `probes` counts the questions that it asked. It has
/// no depth yet.
#[derive(Drop)]
pub struct Marching {
    ray: Ray,
    t: u32,
    probes: u32,
    ghost t_in_range: { t ≤ ray.far },
    ghost probes_in_range: { probes ≤ t },
}

/// What a step leaves: a ray that marches on, or one that has settled.
#[derive(Drop)]
pub enum Stepped {
    On(Marching),
    Done(Settled),
}

impl Marching {
    ghost use Rattle.march.specs.Lent.{lent_body};
    ghost use Rattle.march.specs.Rays.{plain_ray_in, ray_answer, plain_ray, point_along};
    ghost use Rattle.march.specs.Rays.{plain_stepped, step_of, plain_stepped_in, step_answer};
    ghost use Rattle.march.specs.Rays.{settled_pixel, end_of, settled_pixel_in, settle_answer};
    ghost use Rattle.march.specs.Rays.{IsFirstContact, FirstContactIn};

    /// The ray of pixel (i, j), at its start; refused as the view is, then with 19 for no such
    /// pixel.
    pub fn new(numbers: ViewNumbers, i: u32, j: u32) -> Result<Marching, RayFault>
        ensures { plain_ray_in result ≡ ray_answer numbers i j }
    {
        let view = View::new(numbers)?;
        let ray = view.ray_of(i, j)?;
        Ok(Marching {
            ray,
            t: 0,
            probes: 0,
        })
    }

    /// How far it has come.
    pub fn t(&self) -> u32
        ensures { result ≡ (plain_ray self.now).t }
    {
        self.t
    }

    /// How often it has asked.
    pub fn probes(&self) -> u32
        ensures { result ≡ (plain_ray self.now).probes }
    {
        self.probes
    }

    /// The point at which it asks next.
    pub fn next_point(&self) -> Point
        ensures { result ≡ point_along (plain_ray self.now) (plain_ray self.now).t }
    {
        self.ray.at(self.t)
    }

    /// One step over a solid that answers on all of the working range.
    fn advance<S: Solid>(self, solid: &Deep<'_, S>) -> Stepped
        ensures { plain_stepped result ≡ step_of (lent_body solid.now) (plain_ray self) }
    {
        match self.ray.probe(self.t, self.probes, solid) {
            Pixel::Marching { t, probes } => Stepped::On(Marching {
                ray: self.ray,
                t,
                probes,
            }),
            Pixel::Hit { depth, probes } => Stepped::Done(Settled {
                outcome: Outcome::Hit { depth },
                probes,
            }),
            Pixel::Miss { probes } => Stepped::Done(Settled {
                outcome: Outcome::Miss,
                probes,
            }),
        }
    }

    /// One step: it asks the solid at its next point, and then it has settled or marches on.
    /// Refused, with 16, over a reach under the working range, it hands the ray back as it was.
    pub fn step<S: Solid>(self, solid: &S) -> Result<Stepped, (StepFault, Marching)>
        ensures { plain_stepped_in result ≡ step_answer (S.Solid.body solid.now) self }
    {
        match Deep::of(solid) {
            Ok(deep) => Ok(self.advance(&deep)),
            Err(fault) => Err((fault, self)),
        }
    }

    /// Steps over a solid that answers on all of the working range until it settles.
    fn run<S: Solid>(self, solid: &Deep<'_, S>) -> Settled
        ensures value { settled_pixel result ≡ end_of (lent_body solid.now) (plain_ray self) }
        ensures law { IsFirstContact (lent_body solid.now) (plain_ray self) result }
    {
        let mut ray = self;
        loop {
            match ray.advance(solid) {
                Stepped::On(next) => ray = next,
                Stepped::Done(settled) => return settled,
            }
        }
    }

    /// Steps until it settles. Refused, with 16, over a reach under the working range, it hands the
    /// ray back.
    pub fn settle<S: Solid>(self, solid: &S) -> Result<Settled, (StepFault, Marching)>
        ensures value { settled_pixel_in result ≡ settle_answer (S.Solid.body solid.now) self }
        ensures law { FirstContactIn (S.Solid.body solid.now) self result }
    {
        match Deep::of(solid) {
            Ok(deep) => Ok(self.run(&deep)),
            Err(fault) => Err((fault, self)),
        }
    }
}
