// Fitting: whether numbers for the entries, a group for each, meet the ties.
ghost use Rattle.std.specs.Prelude.{◌≡◌, ℕ, ◌+◌, ◌*◌, ◌<◌, ◌≤◌, true, false, ◌⊎◌, length, Decides};
ghost use Rattle.algebra.specs.Things.{In as Between};
ghost use Rattle.programme.specs.Fitted.{misfit_number, group_at, Fitting};

use crate::programmes::Programme;
use algebra::{Members, ReadingSet, Timed};

/// Why numbers cannot be held against the ties. Each misfit has a number; where both apply, the one with the smaller is
/// answered.
#[derive(Clone, Copy, PartialEq, Eq, Debug)]
pub enum Misfit {
    /// There is not just one group of numbers for each entry.
    Miscounted = 11,
    /// The group of some entry is no thing.
    NoThing = 12,
}

impl Misfit {
    /// What a misfit is known by outside.
    pub fn number(self) -> u8
        ensures { result ≡ misfit_number self }
    {
        self as u8
    }
}

impl<B: Timed> Programme<B> {
    /// Holds the numbers, a group for each entry in turn, against the ties: gives the first tied pair that they do not meet,
    /// and none where they meet every tie. Pairs rise by the smaller number, then by the larger, which stands second.
    pub fn fits(&self, numbers: &[i32]) -> Result<Option<(usize, usize)>, Misfit>
        ensures { Fitting (B.Algebra.meaning self.now.algebra)
            (B.Timed.size self.now.algebra) (B.Timed.thing self.now.algebra)
            (B.Timed.stand self.now.algebra) self.now.sheet numbers.now result }
    {
        let size = self.algebra.numbers();
        let count = self.sheet.count;
        if count.checked_mul(size) != Some(numbers.len()) {
            return Err(Misfit::Miscounted);
        }
        if !all_things(&self.algebra, numbers, size) {
            return Err(Misfit::NoThing);
        }
        let mut first = None;
        // By number, under the label that a pair is found by: chunks with `enumerate` and `skip` are no shorter here.
        'rows: for i in 0..count {
            for j in i + 1..count {
                let from = group(numbers, size, i);
                let to = group(numbers, size, j);
                if !met(&self.algebra, self.sheet.given[i][j], from, to) {
                    first = Some((i, j));
                    break 'rows;
                }
            }
        }
        Ok(first)
    }
}

/// The group of entry i.
fn group(numbers: &[i32], size: usize, i: usize) -> &[i32]
    requires { i * size + size ≤ length numbers.now }
    ensures { result.now ≡ group_at size numbers.now i }
{
    &numbers[i * size..][..size]
}

/// Whether each whole group is a thing.
fn all_things<B: Timed>(algebra: &B, numbers: &[i32], size: usize) -> bool
    requires { 0 < size }
    ensures all { result ≡ true → (i : ℕ) → i * size + size ≤ length numbers.now →
        B.Timed.thing algebra.now (group_at size numbers.now i) }
    ensures other { result ≡ false → ((i : ℕ) × (i * size + size ≤ length numbers.now) ×
        ¬ (B.Timed).thing algebra.now (group_at size numbers.now i)) }
{
    numbers
        .chunks_exact(size)
        .all(|group| algebra.is_thing(group))
}

/// Whether the reading that stands from one thing to another is in what is given for the pair, if anything is.
fn met<B: Timed>(algebra: &B, given: ReadingSet, from: &[i32], to: &[i32]) -> bool
    requires first { B.Timed.thing algebra.now from.now }
    requires second { B.Timed.thing algebra.now to.now }
    ensures { Decides result ((given ≡ 0) ⊎
        Between (B.Timed.stand algebra.now) given from.now to.now) }
{
    given == 0
        || algebra
            .reading(from, to)
            .is_some_and(|reading| Members::from(given).contains(reading as usize))
}
