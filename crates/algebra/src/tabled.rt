// Algebras that their tables tell whole.
ghost use Rattle.std.specs.Prelude.{◌≡◌};
ghost use Rattle.algebra.specs.Meaning.{Meaning, Lawful};
ghost use Rattle.algebra.specs.Tables.{tabled, rows_of};

use crate::interface::{Algebra, ReadingSet, Stamp};
use crate::table::Tables;

/// An algebra that has tables. All its calls are theirs.
pub trait Tabled {
    ghost described: { Self → Meaning };

    /// The tables that tell what it means.
    fn tables(&self) -> Tables
        ensures { described self.now ≡ tabled result.code result.universe result.converses.now
            (rows_of result.compositions.now) };

    ghost lawful: { (x : Self) → Lawful (described x) };
}

impl<T: Tabled> Algebra for T {
    ghost meaning = { T.described };

    ghost lawful = { T.Tabled.lawful };

    fn universe(&self) -> ReadingSet {
        self.tables().universe
    }

    fn converse(&self, set: ReadingSet) -> ReadingSet {
        self.tables().converse(set)
    }

    fn compose(&self, first: ReadingSet, second: ReadingSet) -> ReadingSet {
        self.tables().compose(first, second)
    }

    fn refine(&self, target: ReadingSet, first: ReadingSet, second: ReadingSet) -> ReadingSet {
        self.tables().refine(target, first, second)
    }

    fn stamp(&self) -> Stamp {
        self.tables().stamp()
    }
}
