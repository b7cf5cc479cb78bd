// Loading a file, record by record.
ghost use Rattle.std.specs.Prelude.{◌≡◌, ◌+◌, ◌^◌, ◌<◌, ◌≤◌, ◌≢◌, IfOk, MatchResult};
ghost use Rattle.qcue.specs.Records.{length_of, Whole};
ghost use Rattle.qcue.specs.Read.{Step, NoStep};
ghost use Rattle.qcue.specs.Taken.{Takes, TakesAll};
ghost use Rattle.qcue.specs.Performed.{LoadKeeps};
ghost use Rattle.qcue.specs.declared.loading.Expected.TheVariants.{Nothing};

use crate::records::{Record, front, read_end, read_stamp, read_tie};
use crate::refusals::{Fault, FileRefusal, Reason};
use algebra::{Algebra, Stamp};
use programme::{Call, Programme};

/// What may come next in a file: its head; entries, ties or the end; ties or the end; nothing.
#[derive(Clone, Copy, PartialEq, Eq, Debug)]
pub enum Expected {
    Head,
    Entries,
    Ties,
    Nothing,
}

/// How far a file is read: what may come next, and how many ties have come.
#[derive(Clone, Copy)]
pub(crate) struct Loader {
    expected: Expected,
    ties: usize,
}

// That the algebra stays is said of each step, as of the programme's own calls.
impl Loader {
    /// Moves past the record at the front, and answers what it asks of the programme, and its length.
    fn advance<'a>(
        &mut self,
        stamp: Stamp,
        entries: usize,
        bytes: &'a [u8],
    ) -> Result<(Option<Call<'a>>, usize), FileRefusal>
        requires unended { self.old.expected ≢ Nothing }
        requires few { self.old.ties < 2 ^ 63 }
        ensures { MatchResult result (Step stamp entries bytes.now self.old self.new)
            (NoStep stamp entries bytes.now self.old) }
    {
        let (record, length) = front(bytes)?;
        match (self.expected, record) {
            (Expected::Head, Record::Head(payload)) => {
                if read_stamp(payload)? != stamp {
                    return Err(FileRefusal::OtherStamp);
                }
                self.expected = Expected::Entries;
                Ok((None, length))
            }
            (Expected::Entries, Record::Entry(name)) => Ok((Some(Call::Entry(name)), length)),
            (Expected::Entries | Expected::Ties, Record::Tie(payload)) => {
                let call = read_tie(payload)?;
                self.expected = Expected::Ties;
                self.ties += 1;
                Ok((Some(call), length))
            }
            (Expected::Entries | Expected::Ties, Record::End(payload)) => {
                if read_end(payload)? != (entries, self.ties) {
                    return Err(FileRefusal::WrongCount);
                }
                self.expected = Expected::Nothing;
                Ok((None, length))
            }
            _ => Err(FileRefusal::Misplaced),
        }
    }

    /// Takes the record at the front into the programme, and answers its length.
    fn take<B: Algebra + Copy>(
        &mut self,
        programme: &mut Programme<B>,
        bytes: &[u8],
    ) -> Result<usize, Reason>
        requires unended { self.old.expected ≢ Nothing }
        requires few { self.old.ties < 2 ^ 63 }
        ensures lent { programme.new.algebra ≡ programme.old.algebra }
        ensures long { IfOk result (λ n. Whole bytes.now × (n ≡ length_of bytes.now)) }
        ensures few { IfOk result (λ n. self.new.ties ≤ self.old.ties + 1) }
        ensures took { Takes (B.Algebra.meaning programme.old.algebra) programme.old.sheet
            self.old bytes.now programme.new.sheet self.new result }
    {
        let (asked, length) = self.advance(programme.stamp(), programme.entries(), bytes)?;
        if let Some(call) = asked {
            programme.perform(call)?;
        }
        Ok(length)
    }
}

/// Takes every record into the programme.
fn take_all<B: Algebra + Copy>(programme: &mut Programme<B>, bytes: &[u8]) -> Result<usize, Fault>
    ensures lent { programme.new.algebra ≡ programme.old.algebra }
    ensures took { TakesAll (B.Algebra.meaning programme.old.algebra) programme.old.sheet
        bytes.now programme.new.sheet result }
{
    let mut loader = Loader {
        expected: Expected::Head,
        ties: 0,
    };
    // A record tells its own length, so the offset is counted. It is for faults alone: what is read is what remains.
    let mut rest = bytes;
    let mut offset = 0;
    while loader.expected != Expected::Nothing {
        let length = loader
            .take(programme, rest)
            .map_err(|reason| Fault { reason, offset })?;
        rest = &rest[length..];
        offset += length;
    }
    if !rest.is_empty() {
        return Err(FileRefusal::Trailing.at(offset));
    }
    Ok(0)
}

/// Loads a file into a programme that has no entries yet. A file that is refused leaves the programme as it was.
pub fn load<B: Algebra + Copy>(programme: &mut Programme<B>, bytes: &[u8]) -> Result<usize, Fault>
    ensures lent { programme.new.algebra ≡ programme.old.algebra }
    ensures kept { LoadKeeps (B.Algebra.meaning programme.old.algebra) programme.old.sheet
        bytes.now result programme.new.sheet }
{
    if programme.entries() != 0 {
        return Err(FileRefusal::Occupied.at(0));
    }
    let mut copy = programme.duplicate();
    let answer = take_all(&mut copy, bytes)?;
    *programme = copy;
    Ok(answer)
}
