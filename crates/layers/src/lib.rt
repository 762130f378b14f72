//! The layers: solids made over other solids. Each holds the solids below it by value, and a
//! solid that is lent is a solid too, so a layer may also stand over references.
#![tactic(auto)]

mod cap;
mod fault;
mod meet;
mod shift;
mod thicken;
mod unite;

pub use cap::Cap;
pub use fault::LayerFault;
pub use meet::Meet;
pub use shift::{Shift, check_offset};
pub use thicken::{Thicken, check_thickness};
pub use unite::Unite;
