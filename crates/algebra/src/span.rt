// Spans: Allen's interval algebra.
ghost use Rattle.std.specs.Prelude.{◌≡◌, ◌<ℤ◌};
ghost use Rattle.std.specs.Ordering.{int_cmp};
ghost use Rattle.algebra.specs.Spans.{spans, Span, SpansStand};
ghost use Rattle.algebra.specs.Timed.{SpanGroup, SpanGroupsStand};
ghost use Rattle.algebra.specs.SpanLaws.{span_laws};
ghost use Rattle.algebra.specs.Readings.{span_number};

use crate::intervals::COMPOSITIONS;
use crate::standards::Standard;
use crate::table::Tables;
use crate::tabled::Tabled;
use crate::times::Timed;
use std::cmp::Ordering;

/// Spans of time, each from a start to a later end. The readings from 0 up are `e p P m M o O s S d D f F`: equal, precedes,
/// meets, overlaps, starts, during and finishes, each but the first followed by its converse.
#[derive(Clone, Copy)]
pub struct Spans;

/// The readings, by number.
#[derive(Clone, Copy)]
enum Reading {
    Equals,
    Precedes,
    Preceded,
    Meets,
    Met,
    Overlaps,
    Overlapped,
    Starts,
    Started,
    During,
    Contains,
    Finishes,
    Finished,
}

impl Reading {
    fn number(self) -> u32
        ensures { result ≡ span_number self }
    {
        self as u32
    }
}

/// A span is its start and its end.
const NUMBERS: usize = 2;

impl Tabled for Spans {
    ghost described = { λ _. spans };

    ghost lawful = { λ _. span_laws };

    fn tables(&self) -> Tables {
        Tables {
            code: Standard::Spans as u8,
            universe: 0x1FFF,
            converses: &[0, 2, 1, 4, 3, 6, 5, 8, 7, 10, 9, 12, 11],
            compositions: COMPOSITIONS,
        }
    }
}

// Not one impl with that of instants: what makes a thing and how two stand differ, and what is left is three lines.
impl Timed for Spans {
    ghost size = { λ _. 2 };

    ghost thing = { λ _. SpanGroup };

    ghost stand = { λ _. SpanGroupsStand };

    fn numbers(&self) -> usize {
        NUMBERS
    }

    fn is_thing(&self, group: &[i32]) -> bool {
        group.len() == NUMBERS && group[0] < group[1]
    }

    fn reading(&self, first: &[i32], second: &[i32]) -> Option<u32> {
        if !self.is_thing(first) || !self.is_thing(second) {
            return None;
        }
        Some(between(first[0], first[1], second[0], second[1]).number())
    }
}

/// The reading from the span of the first two numbers to that of the others.
fn between(start: i32, end: i32, from: i32, to: i32) -> Reading
    requires { (start <ℤ end) × (from <ℤ to) }
    ensures { (x y : Span) → x.start ≡ start → x.end ≡ end → y.start ≡ from → y.end ≡ to →
        SpansStand (span_number result) x y }
{
    if end < from {
        Reading::Precedes
    } else if end == from {
        Reading::Meets
    } else if to < start {
        Reading::Preceded
    } else if to == start {
        Reading::Met
    } else {
        overlapping(start.cmp(&from), end.cmp(&to))
    }
}

/// The reading between two spans that share some time, by the order of their starts and that of their ends.
fn overlapping(starts: Ordering, ends: Ordering) -> Reading
    ensures { (x y : Span) → starts ≡ int_cmp x.start y.start → ends ≡ int_cmp x.end y.end →
        y.start <ℤ x.end → x.start <ℤ y.end → SpansStand (span_number result) x y }
{
    match (starts, ends) {
        (Ordering::Less, Ordering::Less) => Reading::Overlaps,
        (Ordering::Less, Ordering::Equal) => Reading::Finished,
        (Ordering::Less, Ordering::Greater) => Reading::Contains,
        (Ordering::Greater, Ordering::Less) => Reading::During,
        (Ordering::Greater, Ordering::Equal) => Reading::Finishes,
        (Ordering::Greater, Ordering::Greater) => Reading::Overlapped,
        (Ordering::Equal, Ordering::Less) => Reading::Starts,
        (Ordering::Equal, Ordering::Equal) => Reading::Equals,
        (Ordering::Equal, Ordering::Greater) => Reading::Started,
    }
}
