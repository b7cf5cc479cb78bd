// The file of a sheet: its records, reading the first, loading them all, writing them, and lines of calls with loads among them.
#![tactic(auto)]

mod heads;
mod lines;
mod loading;
mod records;
mod refusals;
pub mod theorems;
mod writing;

pub use heads::{algebra_of, head};
pub use lines::{Answer, Request, perform, run};
pub use loading::{Expected, load};
pub use refusals::{Fault, FileRefusal, Reason};
pub use writing::{LONGEST_FILE, write};
