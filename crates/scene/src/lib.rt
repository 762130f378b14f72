//! A scene: a tree of solids, laid down node by node, which is a solid itself.
#![tactic(auto)]

mod bound;
mod draft;
mod exact;
mod fault;
mod node;
mod parts;
mod scene;
mod search;
mod stack;
mod table;

pub use draft::Draft;
pub use exact::ExactScene;
pub use fault::{DraftFault, ExactFault};
pub use scene::Scene;
pub use table::MOST_NODES;
