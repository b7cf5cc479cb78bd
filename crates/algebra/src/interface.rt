// The interface that every algebra offers.
ghost use Rattle.std.specs.Prelude.{◌≡◌, bit_and};
ghost use Rattle.algebra.specs.Meaning.{Meaning, Lawful, converse_of, composition_of};

/// A set of readings: bit k stands for reading k. Every `u32` is one; a bit outside an algebra's universe counts as absent.
pub type ReadingSet = u32;

/// The house mask of an algebra that no house rule cuts.
pub const NO_HOUSE_RULE: ReadingSet = 0xFFFF_FFFF;

/// Reading 0 alone: what stands from a thing to itself.
pub const IDENTITY: ReadingSet = 0x1;

/// How a file names an algebra.
#[derive(Clone, Copy, PartialEq, Eq, Debug)]
pub struct Stamp {
    pub code: u8,
    pub house: ReadingSet,
}

/// An algebra means one value, `meaning`, and keeps the laws. Its calls are answered by that value, and change nothing.
pub trait Algebra {
    ghost meaning: { Self → Meaning };

    /// The readings that there are.
    fn universe(&self) -> ReadingSet
        ensures { result ≡ (meaning self.now).universe };

    /// The converses of the readings of `set`.
    fn converse(&self, set: ReadingSet) -> ReadingSet
        ensures { result ≡ converse_of (meaning self.now) set };

    /// The readings that may stand from x to z, where one of `first` stands from x to y and one of `second` from y to z.
    fn compose(&self, first: ReadingSet, second: ReadingSet) -> ReadingSet
        ensures { result ≡ composition_of (meaning self.now) first second };

    /// What of `target` lies in the composition of `first` and `second`: the step that closing repeats.
    fn refine(&self, target: ReadingSet, first: ReadingSet, second: ReadingSet) -> ReadingSet
        ensures { result ≡ bit_and target (composition_of (meaning self.now) first second) }
    {
        target & self.compose(first, second)
    }

    fn stamp(&self) -> Stamp
        ensures { result ≡ (meaning self.now).stamp };

    ghost lawful: { (x : Self) → Lawful (meaning x) };
}
