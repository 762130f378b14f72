//! What a plate's log is, and what is promised of every log. The definitions stand in `specs/`,
//! the proofs in `proofs/`; the plate's own contracts cite both.
#![tactic(auto)]

mod fault;

pub use fault::PlateFault;

/// The words of an image before its pixels: its start and its far.
pub const HEAD: usize = 2;
