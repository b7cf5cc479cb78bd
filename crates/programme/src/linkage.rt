// The network of a sheet: which pairs of entries are linked, and the set of readings on each.
ghost use Rattle.std.specs.Prelude.{◌≡◌, ℕ, ◌<◌, true, [], Decides};
ghost use Rattle.algebra.specs.Masks.{has};
ghost use Rattle.algebra.specs.Meaning.{Meaning};
ghost use Rattle.programme.specs.Networks.{bit_at, cell, Reflects, Empties, EmptiesIn};
ghost use Rattle.programme.specs.Steps.{Pended, Grown, Same, Each, Below, Implied, FullFrom, Trimmed, Taken};

use algebra::{Members, ReadingSet};

/// Room for this many entries.
pub const ENTRIES: usize = 48;

/// A row with a bit for each entry. What stands above is no entry.
const ALL: u64 = (1 << ENTRIES) - 1;

/// An entry with more links has many.
const FEW_LINKS: usize = 4;

/// Rows of bits and of sets, by the numbers of entries. A link and its set stand in both directions.
// Three arrays and not one of rows: `rows[i].links` is no plainer than `links[i]`, and `take` scans one array.
// An entry's number below 48 is a plain `usize` with a `requires`: a type for it would be unwrapped at every index.
#[derive(Clone, Copy)]
pub struct Network {
    /// Bit j of row i: i and j are linked.
    links: [u64; ENTRIES],
    /// Bit j of row i, i below j: the triangles on this link are to be looked at again. None between calls.
    pending: [u64; ENTRIES],
    /// What may stand from i to j; the universe where they are not linked.
    sets: [[ReadingSet; ENTRIES]; ENTRIES],
}

impl Network {
    /// No links, and nothing to do.
    pub(crate) fn blank(universe: ReadingSet) -> Network
        ensures { (m : Meaning) → m.universe ≡ universe → Reflects m result [] }
    {
        Network {
            links: [0; ENTRIES],
            pending: [0; ENTRIES],
            sets: [[universe; ENTRIES]; ENTRIES],
        }
    }

    /// Whether i and j are linked.
    pub(crate) fn linked(&self, i: usize, j: usize) -> bool
        requires { (i < 48) × (j < 48) }
        ensures { result ≡ bit_at self.now.links i j }
    {
        Members(self.links[i]).contains(j)
    }

    /// What may stand from i to j, as far as it has been narrowed.
    pub(crate) fn set(&self, i: usize, j: usize) -> ReadingSet
        requires { (i < 48) × (j < 48) }
        ensures { result ≡ cell self.now.sets i j }
    {
        self.sets[i][j]
    }

    /// Whether some linked pair has the empty set.
    pub(crate) fn emptied(&self) -> bool
        ensures { Decides result (Empties self.now) }
    {
        (0..ENTRIES).any(|i| self.empties(i))
    }

    /// Whether i has the empty set on some link. A row with many links is read in one run first, which is faster than link by link.
    fn empties(&self, i: usize) -> bool
        requires { i < 48 }
        ensures { Decides result (EmptiesIn self.now i) }
    {
        let linked = self.neighbours(i);
        if linked == 0 {
            return false;
        }
        if Members(linked).nth(FEW_LINKS).is_some() && !self.sets[i].contains(&0) {
            return false;
        }
        for j in Members(linked) {
            if self.sets[i][j] == 0 {
                return true;
            }
        }
        false
    }

    /// The entries that i is linked with, as bits.
    pub(crate) fn neighbours(&self, i: usize) -> u64
        requires { i < 48 }
        ensures only { (j : ℕ) → has result j ≡ true → (j < 48) × (bit_at self.now.links i j ≡ true) }
        ensures all { (j : ℕ) → j < 48 → bit_at self.now.links i j ≡ true → has result j ≡ true }
    {
        self.links[i] & ALL
    }

    /// Links i and j. Nothing has been narrowed by way of a new link yet, so it is pending.
    pub(crate) fn link(&mut self, i: usize, j: usize)
        requires { (i < 48) × (j < 48) }
        ensures grown { Grown (Same i j) self.old self.new }
        ensures there { bit_at self.new.links i j ≡ true }
    {
        self.links[i] |= 1 << j;
        self.links[j] |= 1 << i;
        self.pend(i, j);
    }

    /// Links i with each of the others.
    fn link_each(&mut self, i: usize, others: u64)
        requires low { i < 48 }
        requires others { (j : ℕ) → has others j ≡ true → j < 48 }
        ensures grown { Grown (Each i others) self.old self.new }
        ensures all { (j : ℕ) → has others j ≡ true → bit_at self.new.links i j ≡ true }
    {
        for j in Members(others) {
            self.link(i, j);
        }
    }

    /// Links the lower neighbours of k with one another, where they are not linked yet.
    fn link_below(&mut self, k: usize)
        requires { k < 48 }
        ensures grown { Grown (Below self.old k) self.old self.new }
        ensures all { (a b : ℕ) → Below self.old k a b → bit_at self.new.links a b ≡ true }
    {
        let mut lower = Members(self.links[k] & ((1 << k) - 1));
        while let Some(i) = lower.next() {
            self.link_each(i, lower.0 & !self.links[i]);
        }
    }

    /// Links the lower neighbours of every entry. From the greatest down one pass does: it adds only lower pairs.
    pub(crate) fn fill(&mut self)
        ensures grown { Grown (Implied self.old) self.old self.new }
        ensures full { FullFrom 0 self.new }
    {
        for k in (0..ENTRIES).rev() {
            self.link_below(k);
        }
    }

    /// Cuts the set from i to j and the one from j to i, so that neither ever grows; the pair is pending.
    pub(crate) fn trim(&mut self, i: usize, j: usize, there: ReadingSet, back: ReadingSet)
        requires { (i < 48) × (j < 48) }
        ensures { Trimmed i j there back self.old self.new }
    {
        self.sets[i][j] &= there;
        self.sets[j][i] &= back;
        self.pend(i, j);
    }

    /// Notes that the triangles on the link of i and j are to be looked at, once, in the row of the lower.
    fn pend(&mut self, i: usize, j: usize)
        requires { (i < 48) × (j < 48) }
        ensures { Pended i j self.old self.new }
    {
        if i < j {
            self.pending[i] |= 1 << j;
        } else {
            self.pending[j] |= 1 << i;
        }
    }

    /// Takes a pending pair off, if there is one.
    pub(crate) fn take(&mut self) -> Option<(usize, usize)>
        ensures { Taken self.old self.new result }
    {
        // By number, since the number of the row is answered.
        for i in 0..ENTRIES {
            let mut row = Members(self.pending[i]);
            if let Some(j) = row.next()
                && j < ENTRIES
            {
                self.pending[i] = row.0;
                return Some((i, j));
            }
        }
        None
    }
}
