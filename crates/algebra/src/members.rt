// Sets of small numbers, as bits.
ghost use Rattle.std.specs.Prelude.{◌≡◌};
ghost use Rattle.std.specs.Iterator.{at_most};
ghost use Rattle.algebra.specs.Masks.{has};
ghost use Rattle.algebra.specs.Members.{Visits};

use crate::interface::ReadingSet;

/// How many bits there are.
const WIDTH: usize = u64::BITS as usize;

/// The members of a set of bits, rising: bit k stands for k.
#[derive(Clone, Copy)]
pub struct Members(pub u64);

impl Members {
    /// Whether k is a member.
    pub fn contains(self, k: usize) -> bool
        ensures { result ≡ has self.0 k }
    {
        k < WIDTH && (self.0 >> k) & 1 == 1
    }
}

impl From<ReadingSet> for Members {
    ghost from_gives = { λ set members. members.0 ≡ set };

    fn from(set: ReadingSet) -> Members {
        Members(u64::from(set))
    }
}

impl Iterator for Members {
    type Item = usize;

    ghost next_gives = { λ members found rest. Visits members.0 found rest.0 };

    ghost remaining = { λ members. at_most members.0 };

    fn next(&mut self) -> Option<usize> {
        if self.0 == 0 {
            return None;
        }
        let lowest = self.0.trailing_zeros() as usize;
        self.0 &= self.0 - 1;
        Some(lowest)
    }
}
