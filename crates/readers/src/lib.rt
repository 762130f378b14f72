//! The readers of a job, of a scene and of a surface.
#![tactic(auto)]

mod fault;
mod job;
mod jobs;
mod kind;
mod scenes;
mod surfaces;

pub use fault::{JobFault, SceneFault, SurfaceReadFault};
pub use job::{JOB_WORDS, Job};
pub use jobs::read_job;
pub use kind::NodeKind;
pub use scenes::read_scene;
pub use surfaces::read_surface;
