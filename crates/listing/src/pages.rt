// From the bytes of a file to the listing of its sheet.
ghost use Rattle.std.specs.Prelude.{◌≡◌, ◌≤◌, length, IfOk, Some, string_bytes, MatchResult};
ghost use Rattle.algebra.specs.House.{housed};
ghost use Rattle.algebra.specs.Standard.{meaning_of};
ghost use Rattle.qcue.specs.Headed.{Opened};
ghost use Rattle.listing.specs.Paged.{RefusedAs, ListedAs, refused_text};
ghost use Rattle.listing.specs.declared.pages.Refused.TheVariants.{File};

use crate::listings::listing;
use algebra::{House, Standard};
use programme::Programme;
use qcue::{Fault, algebra_of, load};
use std::alloc::{AllocError, Global};
use std::fmt;

/// A longer file is not listed.
pub const LONGEST_LISTED: usize = 16384;

/// What the refusal of such a file is known by outside.
const TOO_LONG: u8 = 21;

/// Why there is no listing.
#[derive(Clone, Copy, Debug)]
pub enum Refused {
    /// The file is longer than `LONGEST_LISTED`.
    TooLong,
    File(Fault),
}

/// As in `refused 17 at 49 file`.
impl fmt::Display for Refused {
    ghost output = { λ refused. Some (refused_text refused) };

    fn fmt<W: fmt::Write>(&self, f: &mut fmt::Formatter<W>) -> fmt::Result {
        match self {
            Refused::TooLong => write!(f, "refused {TOO_LONG} at {LONGEST_LISTED} program"),
            Refused::File(fault) => write!(f, "{fault}"),
        }
    }
}

impl From<Fault> for Refused {
    ghost from_gives = { λ fault refused. refused ≡ File fault };

    fn from(fault: Fault) -> Refused {
        Self::File(fault)
    }
}

/// The algebra that a file names, unless the file is too long.
fn opened(bytes: &[u8]) -> Result<House<Standard>, Refused>
    ensures { MatchResult result (λ a. (length bytes.now ≤ 16384) ×
        Opened bytes.now (housed (meaning_of a.below) a.mask)) (RefusedAs bytes.now) }
{
    if bytes.len() > LONGEST_LISTED {
        return Err(Refused::TooLong);
    }
    Ok(algebra_of(bytes)?)
}

/// The listing of the sheet in the bytes of a file.
// Two results, one in the other: memory that runs out is the machine's, a refusal is the file's. The programme stays here, since a
// function that hands it out would copy it.
pub fn page(heap: Global, bytes: &[u8]) -> Result<Result<String, Refused>, AllocError>
    ensures { IfOk result (λ answer. MatchResult answer
        (λ text. ListedAs bytes.now (string_bytes text)) (RefusedAs bytes.now)) }
{
    let algebra = match opened(bytes) {
        Ok(algebra) => algebra,
        Err(refused) => return Ok(Err(refused)),
    };
    let mut programme = Programme::open(algebra);
    match load(&mut programme, bytes) {
        Ok(_) => Ok(Ok(listing(heap, &programme)?)),
        Err(fault) => Ok(Err(Refused::File(fault))),
    }
}
