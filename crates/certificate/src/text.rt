//! Certificates as texts: versions 1 to 3 are read, and 2 or 3 is written.

mod cause;
mod items;
mod lines;
mod numeral;
mod parts;
mod reading;
mod version;
mod words;
mod writing;

pub use cause::{Cause, ReadError};
pub use reading::read;
pub use version::TEXT_SPANS;
pub use writing::write;
