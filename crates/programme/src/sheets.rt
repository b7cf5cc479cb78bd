// Sheets: the entries of a programme, what the ties between them give, and the network that the ties settle.
ghost use Rattle.std.specs.Prelude.{◌≡◌, ℕ, ◌<◌, ◌≤◌, ◌≢◌, cond, ◌==◌, Decides, slice_index_or};
ghost use Rattle.algebra.specs.Meaning.{Meaning};
ghost use Rattle.programme.specs.Spelled.{nobody, Short};

use crate::linkage::{ENTRIES, Network};
use crate::naming::Name;
use crate::ties::Tie;
use algebra::{Algebra, ReadingSet};

/// A sheet has the entries and what the ties between them give and settle. It is plain, so that a call can put it back as it
/// was.
// An array beside its count: there is no heap here, and `ArrayVec` is not `Copy`. `given` stands apart from the sets of the network,
// which closing alone writes.
#[derive(Clone, Copy)]
pub(crate) struct Sheet {
    pub(crate) names: [Name; ENTRIES],
    pub(crate) count: usize,
    /// What the ties themselves allow from one entry to another; 0 where no tie joins them.
    pub(crate) given: [[ReadingSet; ENTRIES]; ENTRIES],
    pub(crate) network: Network,
    ghost small: { count ≤ 48 },
}

/// What a tie cuts: what is given already, and everything where nothing is.
fn ground(set: ReadingSet, universe: ReadingSet) -> ReadingSet
    ensures { result ≡ cond (set == 0) universe set }
{
    if set == 0 { universe } else { set }
}

impl Sheet {
    ghost use Rattle.programme.specs.Ledgers.{blank};
    ghost use Rattle.programme.specs.Shown.{Shows};
    ghost use Rattle.programme.specs.Written.{Entered, GivenCut, GivenCuts};

    /// A sheet with no entries.
    pub(crate) fn blank(universe: ReadingSet) -> Sheet
        ensures shown { (m : Meaning) → m.universe ≡ universe → Shows m result blank }
        ensures short { Short result.names }
    {
        Sheet {
            names: [Name::none(); ENTRIES],
            count: 0,
            given: [[0; ENTRIES]; ENTRIES],
            network: Network::blank(universe),
        }
    }

    /// Whether some entry has this name.
    pub(crate) fn knows(&self, name: Name) -> bool
        ensures { Decides result
            ((k : ℕ) × (k < self.now.count) × (slice_index_or self.now.names k nobody ≡ name)) }
    {
        self.names[..self.count].contains(&name)
    }

    /// Adds an entry.
    pub(crate) fn enter(&mut self, name: Name)
        requires { self.old.count < 48 }
        ensures { Entered self.old name self.new }
    {
        self.names[self.count] = name;
        self.count += 1;
    }

    /// Cuts what is given one way round.
    fn cut(&mut self, from: usize, to: usize, mask: ReadingSet, universe: ReadingSet)
        requires { (from < 48) × (to < 48) }
        ensures { GivenCut universe self.old from to mask self.new }
    {
        self.given[from][to] = ground(self.given[from][to], universe) & mask;
    }

    /// Counts a tie in what is given, both ways round.
    pub(crate) fn give<B: Algebra>(&mut self, algebra: &B, asked: Tie)
        requires { (asked.first < 48) × ((asked.second < 48) × (asked.first ≢ asked.second)) }
        ensures { GivenCuts (B.Algebra.meaning algebra.now) self.old asked.first asked.second
            asked.mask self.new }
    {
        let universe = algebra.universe();
        let Tie {
            first,
            second,
            mask,
        } = asked;
        self.cut(first, second, mask, universe);
        self.cut(second, first, algebra.converse(mask), universe);
    }
}
