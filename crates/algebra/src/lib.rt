// Algebras of readings: what may stand between two entries of a sheet, which way round, and what follows from two steps.
#![tactic(auto)]

mod housed;
mod instant;
mod interface;
mod intervals;
mod lettering;
mod members;
mod region;
mod span;
mod standards;
mod table;
mod tabled;
pub mod theorems;
mod times;

pub use housed::House;
pub use instant::Instants;
pub use interface::{Algebra, IDENTITY, NO_HOUSE_RULE, ReadingSet, Stamp};
pub use lettering::{letters, reading_of, set_of, spelled};
pub use members::Members;
pub use region::Regions;
pub use span::Spans;
pub use standards::{Standard, UnknownCode, UnknownName};
pub use table::Tables;
pub use tabled::Tabled;
pub use times::Timed;
