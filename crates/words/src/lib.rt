//! The words of a file: 32 bits each, the least significant byte first.
#![tactic(auto)]

mod fault;
mod kind;
mod reader;
mod writing;

pub use fault::{WordFault, place_as_u32};
pub use kind::{FIRST_OF_TWO, Kind, UnknownKind};
pub use reader::Reader;
pub use writing::{PutFault, WORD, put};
