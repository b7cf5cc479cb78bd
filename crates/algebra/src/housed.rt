// House rules: an algebra with fewer readings.
ghost use Rattle.algebra.specs.House.{housed};
ghost use Rattle.algebra.specs.HouseLaws.{house_laws};

use crate::interface::{Algebra, IDENTITY, ReadingSet, Stamp};

/// The algebra `below`, cut to reading 0 and the readings that `mask` has together with their converses.
#[derive(Clone, Copy)]
pub struct House<B> {
    pub below: B,
    pub mask: ReadingSet,
}

impl<B: Algebra> Algebra for House<B> {
    ghost meaning = { λ h. housed (B.Algebra.meaning h.below) h.mask };

    ghost lawful = { λ x. house_laws (B.Algebra.meaning x.below) (B.Algebra.lawful x.below) x.mask };

    fn universe(&self) -> ReadingSet {
        IDENTITY | (self.mask & self.below.converse(self.mask))
    }

    fn converse(&self, set: ReadingSet) -> ReadingSet {
        let kept = self.universe();
        self.below.converse(set & kept) & kept
    }

    fn compose(&self, first: ReadingSet, second: ReadingSet) -> ReadingSet {
        let kept = self.universe();
        self.below.compose(first & kept, second & kept) & kept
    }

    fn refine(&self, target: ReadingSet, first: ReadingSet, second: ReadingSet) -> ReadingSet {
        let kept = self.universe();
        self.below
            .refine(target & kept, first & kept, second & kept)
    }

    fn stamp(&self) -> Stamp {
        let Stamp { code, house } = self.below.stamp();
        Stamp {
            code,
            house: house & self.mask,
        }
    }
}
