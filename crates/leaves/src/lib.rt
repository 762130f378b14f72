//! The leaves: solids that stand on no other, each known by its own numbers.
#![tactic(auto)]

mod axis;
mod axis_box;
mod ball;
mod fault;
mod leaf_point;
mod surface;

pub use axis_box::AxisBox;
pub use ball::{Ball, LEAST_RADIUS, MOST_RADIUS};
pub use fault::{LeafFault, SurfaceFault};
pub use leaf_point::LeafPoint;
pub use surface::{LONGEST_SIDE, MOST_COLUMNS, SHORTEST_SIDE, Sheet, Surface, SurfaceSize};
