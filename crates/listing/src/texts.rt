// The lines of a listing.
ghost use Rattle.std.specs.Prelude.{◌≡◌, ◌++◌, IfOk, string_bytes, OnOk};
ghost use Rattle.algebra.specs.Letters.{Ascii};
ghost use Rattle.listing.specs.Listed.{given_letters_of, sheet_line_of, link_line_of};

use algebra::{ReadingSet, Stamp, spelled};
use std::alloc::{AllocError, Global};

/// Adds bytes of ASCII.
pub(crate) fn push_ascii(text: &mut String, bytes: &[u8]) -> Result<(), AllocError>
    ensures { OnOk result (Ascii bytes.now →
        string_bytes text.new ≡ string_bytes text.old ++ bytes.now) }
{
    text.extend(bytes.iter().map(|byte| char::from(*byte)))
}

/// The first line.
pub(crate) fn sheet_line(
    heap: Global,
    stamp: Stamp,
    entries: usize,
    tied: usize,
) -> Result<String, AllocError>
    ensures { IfOk result (λ text. string_bytes text ≡ sheet_line_of stamp entries tied) }
{
    let Stamp { code, house } = stamp;
    format!(in heap; "sheet {code} {house:08X} {entries} {tied}\n")
}

/// A given set in letters, or a dash where there is none.
fn given_letters(heap: Global, code: u8, set: ReadingSet) -> Result<String, AllocError>
    ensures { IfOk result (λ text. string_bytes text ≡ given_letters_of code set) }
{
    if set == 0 {
        return String::from_str(heap, "-");
    }
    spelled(heap, code, set)
}

/// A link as it is listed: its entries, the given set, 0 if they are not tied, and the settled set.
#[derive(Clone, Copy)]
pub(crate) struct Link {
    pub(crate) first: usize,
    pub(crate) second: usize,
    pub(crate) given: ReadingSet,
    pub(crate) settled: ReadingSet,
}

impl Link {
    /// Its line, in the letters of the algebra with this code.
    pub(crate) fn line(self, heap: Global, code: u8) -> Result<String, AllocError>
        ensures { IfOk result (λ text. string_bytes text ≡ link_line_of code self) }
    {
        let Link {
            first,
            second,
            given,
            settled,
        } = self;
        let given = given_letters(heap, code, given)?;
        let settled = spelled(heap, code, settled)?;
        format!(in heap; "{first} {second} {given} {settled}\n")
    }
}
