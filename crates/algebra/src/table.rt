// Tables of an algebra. Their calls visit the readings of a set from the lowest up, and spend nothing on those that are absent.
ghost use Rattle.std.specs.Prelude.{◌≡◌, ℕ, ◌^◌, ◌<◌, ◌≤◌, length, map, bit_and, slice_index};
ghost use Rattle.algebra.specs.Masks.{union};
ghost use Rattle.algebra.specs.Meaning.{converses, compositions};
ghost use Rattle.algebra.specs.Tables.{turned, composed, rows_of, Square};

use crate::interface::{NO_HOUSE_RULE, ReadingSet, Stamp};
use crate::members::Members;

/// The code and the readings of an algebra, the converse of each, and the composition of each with each, by rows.
// Two tables, and not one of pairs: a call reads one of them alone.
#[derive(Clone, Copy)]
pub struct Tables {
    pub(crate) code: u8,
    pub(crate) universe: ReadingSet,
    pub(crate) converses: &'static [u32],
    pub(crate) compositions: &'static [&'static [ReadingSet]],
    ghost few: { length converses.now ≤ 32 },
    ghost within: { universe < 2 ^ length converses.now },
    ghost readings: { (k : ℕ) → k < length converses.now → slice_index converses.now k < 32 },
    ghost square: { Square (length converses.now) (rows_of compositions.now) },
}

impl Tables {
    pub(crate) fn stamp(&self) -> Stamp
        ensures { result ≡ record { code = self.now.code; house = 0xFFFFFFFF } }
    {
        Stamp {
            code: self.code,
            house: NO_HOUSE_RULE,
        }
    }

    /// The converses of the readings of `set`.
    pub(crate) fn converse(&self, set: ReadingSet) -> ReadingSet
        ensures { result ≡ converses self.now.universe (turned self.now.converses.now) set }
    {
        let mut sum = 0;
        for k in Members::from(set & self.universe) {
            sum |= 1 << self.converses[k];
        }
        sum
    }

    /// The compositions of the readings of `first` with those of `second`.
    pub(crate) fn compose(&self, first: ReadingSet, second: ReadingSet) -> ReadingSet
        ensures { result ≡ compositions self.now.universe
            (composed (rows_of self.now.compositions.now)) first second }
    {
        let columns = second & self.universe;
        let mut sum = 0;
        for k in Members::from(first & self.universe) {
            sum |= union_at(self.compositions[k], columns);
        }
        sum
    }

    /// What of `target` lies in that composition. It leaves off as soon as all of it does, mostly after one row.
    pub(crate) fn refine(
        &self,
        target: ReadingSet,
        first: ReadingSet,
        second: ReadingSet,
    ) -> ReadingSet
        ensures { result ≡ bit_and target
            (compositions self.now.universe (composed (rows_of self.now.compositions.now)) first second) }
    {
        let columns = second & self.universe;
        let mut sum = 0;
        for k in Members::from(first & self.universe) {
            sum |= union_at(self.compositions[k], columns);
            if target & sum == target {
                return target;
            }
        }
        target & sum
    }
}

/// The union of the sets of `row` at the readings of `set`.
fn union_at(row: &[ReadingSet], set: ReadingSet) -> ReadingSet
    requires few { length row.now ≤ 32 }
    requires within { set < 2 ^ length row.now }
    ensures { result ≡ union set (turned row.now) 32 }
{
    let mut sum = 0;
    for k in Members::from(set) {
        sum |= row[k];
    }
    sum
}
