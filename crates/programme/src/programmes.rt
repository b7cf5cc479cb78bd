// Programmes: an algebra and a sheet, and the calls on them. Each call answers as the ledger says.
ghost use Rattle.std.specs.Prelude.{◌≡◌, ◌<◌, ◌≤◌, [], length, IfOk, Ok, Err, slice_index_or};
ghost use Rattle.programme.specs.Spelled.{Short};
ghost use Rattle.programme.specs.Ledgers.{Ledger, blank, enter, tie, attempt};
ghost use Rattle.programme.specs.Shown.{Shows};
ghost use Rattle.programme.specs.Kept.{Keeps};
ghost use Rattle.programme.specs.Questions.{Looked, ToldAs};

use crate::attempt::{Attempt, allowed, write_tie};
use crate::linkage::ENTRIES;
use crate::naming::{NAME_BYTES, Name, printable};
use crate::refusals::Refusal;
use crate::sheets::Sheet;
use crate::ties::Tie;
use algebra::{Algebra, IDENTITY, ReadingSet, Stamp};

/// Entries with names, and ties between them that say which readings may stand from one to another.
#[derive(Drop)]
pub struct Programme<B> {
    pub(crate) algebra: B,
    pub(crate) sheet: Sheet,
    ghost short: { Short sheet.names },
}

// Each promise is for every ledger that the sheet shows, and says that the algebra stays. With one ledger as a ghost field the calls
// would promise less, and an `impl Model` whose value is the sheet would forget the algebra.
impl<B: Algebra> Programme<B> {
    /// A programme with no entries.
    pub fn open(algebra: B) -> Programme<B>
        ensures lent { result.algebra ≡ algebra }
        ensures shown { Shows (B.Algebra.meaning algebra) result.sheet blank }
    {
        let universe = algebra.universe();
        Programme {
            algebra,
            sheet: Sheet::blank(universe),
        }
    }

    /// Adds an entry, and answers its number.
    pub fn entry(&mut self, name: &[u8]) -> Result<usize, Refusal>
        ensures lent { self.new.algebra ≡ self.old.algebra }
        ensures kept { Keeps (B.Algebra.meaning self.old.algebra) self.old.sheet
            (enter name.now) result self.new.sheet }
    {
        if name.is_empty() || name.len() > NAME_BYTES {
            return Err(Refusal::Misnamed);
        }
        if !printable(name) {
            return Err(Refusal::Unprintable);
        }
        let held = Name::of(name);
        if self.sheet.knows(held) {
            return Err(Refusal::Known);
        }
        let number = self.sheet.count;
        if number >= ENTRIES {
            return Err(Refusal::Full);
        }
        self.sheet.enter(held);
        Ok(number)
    }

    /// Ties two entries. Refused where the ties then clash.
    pub fn tie(&mut self, asked: Tie) -> Result<usize, Refusal>
        ensures lent { self.new.algebra ≡ self.old.algebra }
        ensures kept { Keeps (B.Algebra.meaning self.old.algebra) self.old.sheet
            (tie asked.first asked.second asked.mask) result self.new.sheet }
    {
        allowed(&self.sheet, &self.algebra, asked)?;
        let mut attempt = Attempt {
            old: Some(self.sheet),
            sheet: &mut self.sheet,
        };
        let reply = write_tie(attempt.sheet, &self.algebra, asked)?;
        attempt.old = None;
        Ok(reply)
    }

    /// Answers as `tie` would, and leaves the sheet as it is.
    // No one function with `tie`, which would take a flag and be as long.
    pub fn try_tie(&mut self, asked: Tie) -> Result<usize, Refusal>
        ensures lent { self.new.algebra ≡ self.old.algebra }
        ensures back { self.new.sheet ≡ self.old.sheet }
        ensures kept { Keeps (B.Algebra.meaning self.old.algebra) self.old.sheet
            (attempt asked.first asked.second asked.mask) result self.new.sheet }
    {
        allowed(&self.sheet, &self.algebra, asked)?;
        let attempt = Attempt {
            old: Some(self.sheet),
            sheet: &mut self.sheet,
        };
        write_tie(attempt.sheet, &self.algebra, asked)
    }

    /// What may stand from the first entry to the second as the ties settle it; nothing is said if they are not linked.
    pub fn look(&self, first: usize, second: usize) -> Result<Option<ReadingSet>, Refusal>
        ensures { (L : Ledger) →
            Shows (B.Algebra.meaning self.now.algebra) self.now.sheet L →
            Looked (B.Algebra.meaning self.now.algebra) L first second result }
    {
        if first >= self.sheet.count || second >= self.sheet.count {
            return Err(Refusal::Absent);
        }
        if first == second {
            return Ok(Some(IDENTITY));
        }
        if !self.sheet.network.linked(first, second) {
            return Ok(None);
        }
        Ok(Some(self.sheet.network.set(first, second)))
    }

    /// What the ties themselves allow from the first entry to the second; 0 if no tie joins them.
    pub fn given(&self, first: usize, second: usize) -> Result<ReadingSet, Refusal>
        ensures { (L : Ledger) →
            Shows (B.Algebra.meaning self.now.algebra) self.now.sheet L →
            ToldAs (B.Algebra.meaning self.now.algebra) L first second result }
    {
        if first >= self.sheet.count || second >= self.sheet.count {
            return Err(Refusal::Absent);
        }
        Ok(self.sheet.given[first][second])
    }

    /// How the algebra is named in a file.
    pub fn stamp(&self) -> Stamp
        ensures { result ≡ (B.Algebra.meaning self.now.algebra).stamp }
    {
        self.algebra.stamp()
    }

    /// How many entries there are.
    pub fn entries(&self) -> usize
        ensures counted { (L : Ledger) →
            Shows (B.Algebra.meaning self.now.algebra) self.now.sheet L →
            result ≡ length L.names }
        ensures few { result ≤ 48 }
    {
        self.sheet.count
    }

    /// The bytes of an entry's name.
    pub fn name(&self, number: usize) -> Result<&[u8], Refusal>
        ensures told { (L : Ledger) →
            Shows (B.Algebra.meaning self.now.algebra) self.now.sheet L →
            elim result [
              | Ok bytes ↦ (number < length L.names) × (bytes.now ≡ slice_index_or L.names number [])
              | Err e ↦ (e ≡ Refusal.Absent) × (length L.names ≤ number)
            ] }
        ensures short { IfOk result (λ bytes. length bytes.now ≤ 12) }
    {
        if number >= self.sheet.count {
            return Err(Refusal::Absent);
        }
        Ok(self.sheet.names[number].bytes())
    }
}

impl<B: Algebra + Copy> Programme<B> {
    /// A programme with the same entries and ties, for work that may have to be given up.
    // No `Clone`, whose `clone` may run out of memory, which `load` could not answer; no `Copy`, so that each copy is seen.
    pub fn duplicate(&self) -> Programme<B>
        ensures lent { result.algebra ≡ self.now.algebra }
        ensures same { result.sheet ≡ self.now.sheet }
    {
        Programme {
            algebra: self.algebra,
            sheet: self.sheet,
        }
    }
}
