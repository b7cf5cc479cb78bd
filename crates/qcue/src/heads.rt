// The head of a file, which names the algebra to open.
ghost use Rattle.std.specs.Prelude.{Err, MatchResult};
ghost use Rattle.algebra.specs.House.{housed};
ghost use Rattle.algebra.specs.Standard.{meaning_of};
ghost use Rattle.qcue.specs.Headed.{HeadRead, Headed, Opened};

use crate::records::{Record, front, read_stamp};
use crate::refusals::{Fault, FileRefusal};
use algebra::{House, Stamp, Standard};

/// The stamp in the first record, if it is a head that names a standard algebra.
pub fn head(bytes: &[u8]) -> Result<Stamp, Fault>
    ensures { Headed bytes.now result }
{
    first_stamp(bytes).map_err(|refusal| refusal.at(0))
}

/// The algebra that the head names: the standard one with its code, under its house mask.
pub fn algebra_of(bytes: &[u8]) -> Result<House<Standard>, Fault>
    ensures { MatchResult result (λ a. Opened bytes.now (housed (meaning_of a.below) a.mask))
        (λ fault. Headed bytes.now (Err fault)) }
{
    let Stamp { code, house } = head(bytes)?;
    // `head` lets no unknown code through. A match, since the proof that the second arm is never taken needs the arm.
    match Standard::try_from(code) {
        Ok(below) => Ok(House { below, mask: house }),
        Err(unknown) => Err(FileRefusal::from(unknown).at(0)),
    }
}

fn first_stamp(bytes: &[u8]) -> Result<Stamp, FileRefusal>
    ensures { HeadRead bytes.now result }
{
    let (Record::Head(payload), _) = front(bytes)? else {
        return Err(FileRefusal::Misplaced);
    };
    let stamp = read_stamp(payload)?;
    Standard::try_from(stamp.code)?;
    Ok(stamp)
}
