// The listing of a programme.
ghost use Rattle.std.specs.Prelude.{◌≡◌, ◌<◌, ◌≤◌, ◌++◌, IfOk, string_bytes, OnOk};
ghost use Rattle.std.specs.Int.{from_bool};
ghost use Rattle.programme.specs.Ledgers.{Ledger};
ghost use Rattle.programme.specs.Grown.{Orderly};
ghost use Rattle.programme.specs.Shown.{Shows};
ghost use Rattle.listing.specs.Listed.{ListingOf};
ghost use Rattle.listing.specs.Added.{EntryAdded, EntriesAdded, PairAdded, RowAdded, LinksAdded};

use crate::texts::{Link, push_ascii, sheet_line};
use algebra::Algebra;
use programme::Programme;
use std::alloc::{AllocError, Global};
use std::fmt::Write;

/// The lines of a programme's entries and links, as far as they have come.
// Each step says that the programme is the same one, since a field that is a reference may be set anew.
#[derive(Drop)]
struct Lines<'a, B> {
    heap: Global,
    programme: &'a Programme<B>,
    text: String,
}

impl<B: Algebra> Lines<'_, B> {
    /// Adds the line of an entry.
    fn add_entry(&mut self, number: usize) -> Result<(), AllocError>
        ensures same { self.new.programme ≡ self.old.programme }
        ensures added { OnOk result (EntryAdded (B.Algebra.meaning self.old.programme.now.algebra)
            self.old.programme.now.sheet number (string_bytes self.old.text) (string_bytes self.new.text)) }
    {
        let Ok(name) = self.programme.name(number) else {
            return Ok(());
        };
        write!(self.text, "{number} ")?;
        push_ascii(&mut self.text, name)?;
        self.text.push_str("\n")
    }

    /// Adds the lines of all entries.
    fn add_entries(&mut self) -> Result<(), AllocError>
        ensures same { self.new.programme ≡ self.old.programme }
        ensures added { OnOk result (EntriesAdded (B.Algebra.meaning self.old.programme.now.algebra)
            self.old.programme.now.sheet (string_bytes self.old.text) (string_bytes self.new.text)) }
    {
        for number in 0..self.programme.entries() {
            self.add_entry(number)?;
        }
        Ok(())
    }

    /// Adds the line of a link, if the two are linked, and answers whether they are tied.
    fn add_link(&mut self, first: usize, second: usize) -> Result<bool, AllocError>
        requires { first < second }
        ensures same { self.new.programme ≡ self.old.programme }
        ensures added { IfOk result (λ tied. PairAdded (B.Algebra.meaning self.old.programme.now.algebra)
            self.old.programme.now.sheet first second (string_bytes self.old.text) (string_bytes self.new.text)
            (from_bool tied)) }
    {
        let Some(settled) = self.programme.look(first, second).unwrap_or(None) else {
            return Ok(false);
        };
        let given = self.programme.given(first, second).unwrap_or(0);
        let link = Link {
            first,
            second,
            given,
            settled,
        };
        let line = link.line(self.heap, self.programme.stamp().code)?;
        self.text.push_str(line.as_str())?;
        Ok(given != 0)
    }

    /// Adds the lines of an entry's links with later ones, and answers how many of them are tied.
    fn add_row(&mut self, first: usize) -> Result<usize, AllocError>
        requires { first < 48 }
        ensures same { self.new.programme ≡ self.old.programme }
        ensures few { IfOk result (λ n. n ≤ 48) }
        ensures added { IfOk result (RowAdded (B.Algebra.meaning self.old.programme.now.algebra)
            self.old.programme.now.sheet first (string_bytes self.old.text) (string_bytes self.new.text)) }
    {
        let mut tied = 0;
        for second in first + 1..self.programme.entries() {
            tied += usize::from(self.add_link(first, second)?);
        }
        Ok(tied)
    }

    /// Adds the lines of all links, and answers how many of them are tied.
    fn add_links(&mut self) -> Result<usize, AllocError>
        ensures same { self.new.programme ≡ self.old.programme }
        ensures added { IfOk result (LinksAdded (B.Algebra.meaning self.old.programme.now.algebra)
            self.old.programme.now.sheet (string_bytes self.old.text) (string_bytes self.new.text)) }
    {
        let mut tied = 0;
        for first in 0..self.programme.entries() {
            tied += self.add_row(first)?;
        }
        Ok(tied)
    }
}

/// The listing of a programme: a line for the sheet, then one for each entry, then one for each link.
pub fn listing<B: Algebra>(heap: Global, programme: &Programme<B>) -> Result<String, AllocError>
    ensures { IfOk result (λ text. (L : Ledger) →
        Shows (B.Algebra.meaning programme.now.algebra) programme.now.sheet L →
        Orderly (B.Algebra.meaning programme.now.algebra) L →
        ListingOf (B.Algebra.meaning programme.now.algebra) L (string_bytes text)) }
{
    let mut lines = Lines {
        heap,
        programme,
        text: String::new(heap),
    };
    lines.add_entries()?;
    let tied = lines.add_links()?;
    let mut text = sheet_line(heap, programme.stamp(), programme.entries(), tied)?;
    text.push_str(lines.text.as_str())?;
    Ok(text)
}
