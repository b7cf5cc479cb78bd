// The listing of a sheet: as text, from a programme or from the bytes of a file.
#![tactic(auto)]

mod listings;
mod pages;
mod texts;
pub mod theorems;

pub use listings::listing;
pub use pages::{LONGEST_LISTED, Refused, page};
