// Closing: narrowing the sets of a network until every triangle of links is closed.
ghost use Rattle.std.specs.Prelude.{◌≡◌, ℕ, ◌<◌, true, ◌≢◌, List};
ghost use Rattle.network.specs.Ties.{Tie as LedgerTie, Proper};
ghost use Rattle.network.specs.Closing.{adding};
ghost use Rattle.programme.specs.Networks.{bit_at, Reflects, tie_of};
ghost use Rattle.programme.specs.Steps.{Triangle, Link, Move, Met, Around, Ready};

use crate::linkage::Network;
use crate::ties::Tie;
use algebra::{Algebra, Members};

// Numbers of entries are below 48, and plain numbers for the reason that stands beside `Network`.
impl Network {
    /// Takes the tie: links its pair and what follows, cuts its sets by the mask, and closes. What is linked already needs no
    /// filling in, and a set within the mask no cut, so that nothing is looked at again for it.
    pub(crate) fn settle<B: Algebra>(&mut self, algebra: &B, asked: Tie)
        requires { (asked.first < 48) × ((asked.second < 48) × (asked.first ≢ asked.second)) }
        ensures { (ties : List LedgerTie) → Proper 48 ties →
            Reflects (B.Algebra.meaning algebra.now) self.old ties →
            Reflects (B.Algebra.meaning algebra.now) self.new
            (adding ties (tie_of asked.first asked.second asked.mask)) }
    {
        let Tie {
            first,
            second,
            mask,
        } = asked;
        if !self.linked(first, second) {
            self.link(first, second);
            self.fill();
        }
        let old = self.set(first, second);
        if old & mask != old {
            self.trim(first, second, mask, algebra.converse(mask));
        }
        self.close(algebra);
    }

    /// Looks at the triangles of each pending pair until none is pending, also where a set has become empty.
    fn close<B: Algebra>(&mut self, algebra: &B)
        ensures { (ties : List LedgerTie) → Ready (B.Algebra.meaning algebra.now) ties self.old →
            Reflects (B.Algebra.meaning algebra.now) self.new ties }
    {
        while let Some((i, j)) = self.take() {
            self.around(algebra, i, j);
        }
    }

    /// Narrows every triangle on the link of i and j.
    fn around<B: Algebra>(&mut self, algebra: &B, i: usize, j: usize)
        requires { (i < 48) × (j < 48) }
        ensures moved { Move (B.Algebra.meaning algebra.now) (Link i j) self.old self.new }
        ensures met { (k : ℕ) → k < 48 →
            bit_at self.old.links i k ≡ true → bit_at self.old.links j k ≡ true →
            Around (B.Algebra.meaning algebra.now) self.new i k j }
    {
        for k in Members(self.neighbours(i) & self.neighbours(j)) {
            self.triangle(algebra, i, k, j);
        }
    }

    /// Narrows each side of a triangle by the two others.
    fn triangle<B: Algebra>(&mut self, algebra: &B, i: usize, k: usize, j: usize)
        requires { (i < 48) × ((k < 48) × (j < 48)) }
        ensures moved { Move (B.Algebra.meaning algebra.now) (Triangle i k j) self.old self.new }
        ensures met { Around (B.Algebra.meaning algebra.now) self.new i k j }
    {
        self.narrow(algebra, i, k, j);
        self.narrow(algebra, i, j, k);
        self.narrow(algebra, k, i, j);
    }

    /// Cuts the set from i to j by what leads round by k, and the one from j to i with it.
    fn narrow<B: Algebra>(&mut self, algebra: &B, i: usize, k: usize, j: usize)
        requires { (i < 48) × ((k < 48) × (j < 48)) }
        ensures moved { Move (B.Algebra.meaning algebra.now) (Triangle i k j) self.old self.new }
        ensures met { Met (B.Algebra.meaning algebra.now) i k j self.old self.new }
    {
        let old = self.set(i, j);
        let new = algebra.refine(old, self.set(i, k), self.set(k, j));
        if new == old {
            return;
        }
        self.trim(i, j, new, algebra.converse(new));
    }
}
