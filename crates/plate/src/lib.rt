//! The plate: pixels over the caller's records, swept and touched until every ray has settled,
//! read one by one, and written as an image.
#![tactic(auto)]

mod image;
mod pixels;
mod plate;

pub use plate::Plate;
pub use plate_log::PlateFault;
