// The interface of an algebra whose things are made of numbers.
ghost use Rattle.std.specs.Prelude.{◌≡◌, ℕ, ◌<◌, Decides};
ghost use Rattle.algebra.specs.Things.{Relation};
ghost use Rattle.algebra.specs.Timed.{Group, Measured, Reads};

use crate::interface::Algebra;

/// An algebra that knows its things by their numbers: how many make one, which groups of numbers are things, and which
/// reading stands from one to another. Its calls answer for every group, also for one that is no thing.
pub trait Timed: Algebra {
    ghost size: { Self → ℕ };

    ghost thing: { Self → Group → Type 0 };

    ghost stand: { Self → ℕ → Relation Group };

    /// How many numbers make one thing.
    fn numbers(&self) -> usize
        ensures value { result ≡ size self.now }
        ensures some { 0 < result }
        ensures measured { Measured (Self.Algebra.meaning self.now) (size self.now)
            (thing self.now) (stand self.now) };

    /// Whether the group is a thing.
    fn is_thing(&self, group: &[i32]) -> bool
        ensures { Decides result (thing self.now group.now) };

    /// The reading that stands from the first group to the second; none where one of them is no thing.
    fn reading(&self, first: &[i32], second: &[i32]) -> Option<u32>
        ensures { Reads (Self.Algebra.meaning self.now) (thing self.now)
            (stand self.now) first.now second.now result };
}
