// Answers that are known beforehand, proved together from the meanings.
#![tactic(auto)]

ghost use Rattle.known_answers.specs.Known.{Known};
ghost use Rattle.known_answers.specs.Networks.{KnownLinks};

use algebra::{Algebra, House, Instants, ReadingSet, Regions, Spans};

/// What the engine answers in each case.
#[derive(Clone, Copy)]
pub struct Answers {
    /// Instants: `=` or `<`, then `<`.
    pub instants_less: ReadingSet,
    /// Spans: meets, then during.
    pub meets_during: ReadingSet,
    /// Spans: overlaps, then overlaps.
    pub overlaps_twice: ReadingSet,
    /// Regions: tangential part, then its converse.
    pub part_whole: ReadingSet,
    /// Regions: the converse of tangential part, then tangential part.
    pub whole_part: ReadingSet,
    /// Spans under a house rule that has precedes without its converse: the universe.
    pub one_sided: ReadingSet,
}

pub fn known_answers() -> Answers
    ensures numbers { Known result }
    ensures links { KnownLinks }
{
    Answers {
        instants_less: Instants.compose(0x3, 0x2),
        meets_during: Spans.compose(0x8, 0x200),
        overlaps_twice: Spans.compose(0x20, 0x20),
        part_whole: Regions.compose(0x10, 0x20),
        whole_part: Regions.compose(0x20, 0x10),
        one_sided: House {
            below: Spans,
            mask: 0x2,
        }
        .universe(),
    }
}
