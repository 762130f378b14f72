//! Rays that march to first contact, knowing only what a solid means.
#![tactic(auto)]

mod along;
mod deep;
mod fault;
mod marching;
mod pixel;
mod ray;
mod settled;
mod view;

pub use deep::{Deep, WORKING_RANGE};
pub use fault::{PixelFault, RayFault, StepFault, ViewFault};
pub use marching::{Marching, Stepped};
pub use pixel::Pixel;
pub use ray::Ray;
pub use settled::{Outcome, Settled};
pub use view::{LEAST_SIDE, MOST_FAR, MOST_PIXELS, MOST_SIDE, View, ViewNumbers};
