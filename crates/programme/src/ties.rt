// Ties as they are asked for.
use algebra::ReadingSet;

/// A tie: the reading from the first entry to the second is one of the mask's.
// Any three numbers, as callers hand them in: that its entries are there and differ is asked of it, and not kept by the type.
#[derive(Clone, Copy, PartialEq, Eq, Debug)]
pub struct Tie {
    pub first: usize,
    pub second: usize,
    pub mask: ReadingSet,
}
