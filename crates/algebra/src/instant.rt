// Instants: the point algebra.
ghost use Rattle.std.specs.Prelude.{◌≡◌};
ghost use Rattle.algebra.specs.Instants.{instants, InstantsStand};
ghost use Rattle.algebra.specs.Timed.{InstantGroup, InstantGroupsStand};
ghost use Rattle.algebra.specs.InstantLaws.{instant_laws};
ghost use Rattle.algebra.specs.Readings.{instant_number};

use crate::standards::Standard;
use crate::table::Tables;
use crate::tabled::Tabled;
use crate::times::Timed;
use std::cmp::Ordering;

/// Whole numbers on a line: 0 is `=`, 1 is `<`, 2 is `>`.
#[derive(Clone, Copy)]
pub struct Instants;

/// The readings, by number.
#[derive(Clone, Copy)]
enum Reading {
    Equal,
    Earlier,
    Later,
}

impl Reading {
    fn number(self) -> u32
        ensures { result ≡ instant_number self }
    {
        self as u32
    }
}

/// An instant is one number.
const NUMBERS: usize = 1;

impl Tabled for Instants {
    ghost described = { λ _. instants };

    ghost lawful = { λ _. instant_laws };

    fn tables(&self) -> Tables {
        Tables {
            code: Standard::Instants as u8,
            universe: 0x7,
            converses: &[0, 2, 1],
            compositions: &[&[0x1, 0x2, 0x4], &[0x2, 0x2, 0x7], &[0x4, 0x7, 0x4]],
        }
    }
}

impl Timed for Instants {
    ghost size = { λ _. 1 };

    ghost thing = { λ _. InstantGroup };

    ghost stand = { λ _. InstantGroupsStand };

    fn numbers(&self) -> usize {
        NUMBERS
    }

    fn is_thing(&self, group: &[i32]) -> bool {
        group.len() == NUMBERS
    }

    fn reading(&self, first: &[i32], second: &[i32]) -> Option<u32> {
        if !self.is_thing(first) || !self.is_thing(second) {
            return None;
        }
        Some(between(first[0], second[0]).number())
    }
}

/// The reading from the first number to the second.
fn between(first: i32, second: i32) -> Reading
    ensures { InstantsStand (instant_number result) first second }
{
    match first.cmp(&second) {
        Ordering::Equal => Reading::Equal,
        Ordering::Less => Reading::Earlier,
        Ordering::Greater => Reading::Later,
    }
}
