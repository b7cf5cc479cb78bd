// A programme: an algebra, and a sheet of entries and ties that every tie closes.
#![tactic(auto)]

mod attempt;
mod closing;
mod fitting;
mod lines;
mod linkage;
mod naming;
mod programmes;
mod refusals;
mod sheets;
pub mod theorems;
mod ties;

pub use fitting::Misfit;
pub use lines::{Call, Turn, perform_each, run};
pub use linkage::ENTRIES;
pub use naming::NAME_BYTES;
pub use programmes::Programme;
pub use refusals::Refusal;
pub use ties::Tie;
