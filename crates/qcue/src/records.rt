// Records: the one at the front of some bytes, and what the payloads hold.
ghost use Rattle.std.specs.Prelude.{◌≡◌, ◌≢◌, length, MatchResult, slice_index};
ghost use Rattle.programme.specs.Ledgers.{tie};
ghost use Rattle.programme.specs.Performed.{ask_of};
ghost use Rattle.qcue.specs.Records.{u32_at};
ghost use Rattle.qcue.specs.Loaded.{Marked, Counts};
ghost use Rattle.qcue.specs.Read.{KindRead, Frame, Front, NoFront, NoStamp};

use crate::refusals::FileRefusal;
use algebra::Stamp;
use programme::{Call, Tie};

/// The four bytes that the first payload of every file begins with.
pub const MARK: [u8; 4] = *b"QCUE";

/// The version of the layout.
pub const VERSION: u8 = 1;

/// The kinds of records, and the number that stands for each.
#[derive(Clone, Copy)]
pub(crate) enum Kind {
    Head = 1,
    Entry = 2,
    Tie = 3,
    End = 4,
}

impl TryFrom<u16> for Kind {
    type Error = FileRefusal;

    ghost try_from_gives = { KindRead };

    fn try_from(number: u16) -> Result<Kind, FileRefusal> {
        match number {
            1 => Ok(Kind::Head),
            2 => Ok(Kind::Entry),
            3 => Ok(Kind::Tie),
            4 => Ok(Kind::End),
            _ => Err(FileRefusal::UnknownKind),
        }
    }
}

/// A record begins with its length and its kind, two bytes each.
pub(crate) const PREFIX: usize = 4;

/// A record, told by its kind. What it holds is a part of the file, which only an entry's name needs no reading of.
#[derive(Clone, Copy)]
pub(crate) enum Record<'a> {
    Head(&'a [u8]),
    Entry(&'a [u8]),
    Tie(&'a [u8]),
    End(&'a [u8]),
}

/// The kind and the payload of the record at the front of the bytes.
fn frame<'a>(bytes: &'a [u8]) -> Result<(Kind, &'a [u8]), FileRefusal>
    ensures { MatchResult result (Frame bytes.now) (NoFront bytes.now) }
{
    if bytes.is_empty() {
        return Err(FileRefusal::Unfinished);
    }
    let [l0, l1, k0, k1, rest @ ..] = bytes else {
        return Err(FileRefusal::Cut);
    };
    let length = u16::from_le_bytes([*l0, *l1]) as usize;
    if length < PREFIX || length - PREFIX > rest.len() {
        return Err(FileRefusal::Cut);
    }
    let kind = Kind::try_from(u16::from_le_bytes([*k0, *k1]))?;
    Ok((kind, &rest[..length - PREFIX]))
}

/// The record at the front of the bytes, and its length.
pub(crate) fn front<'a>(bytes: &'a [u8]) -> Result<(Record<'a>, usize), FileRefusal>
    ensures { MatchResult result (Front bytes.now) (NoFront bytes.now) }
{
    let (kind, payload) = frame(bytes)?;
    let record = match kind {
        Kind::Head => Record::Head(payload),
        Kind::Entry => Record::Entry(payload),
        Kind::Tie => Record::Tie(payload),
        Kind::End => Record::End(payload),
    };
    Ok((record, PREFIX + payload.len()))
}

/// The stamp in a head.
pub(crate) fn read_stamp(payload: &[u8]) -> Result<Stamp, FileRefusal>
    ensures { MatchResult result (λ stamp. (length payload.now ≡ 10) × Marked (λ found. found ≡ stamp) payload.now)
        (NoStamp payload.now) }
{
    let [m0, m1, m2, m3, version, code, h0, h1, h2, h3] = payload else {
        return Err(FileRefusal::WrongLength);
    };
    if [*m0, *m1, *m2, *m3] != MARK || *version != VERSION {
        return Err(FileRefusal::OtherStamp);
    }
    Ok(Stamp {
        code: *code,
        house: u32::from_le_bytes([*h0, *h1, *h2, *h3]),
    })
}

/// The call that a tie asks for.
pub(crate) fn read_tie<'a>(payload: &'a [u8]) -> Result<Call<'a>, FileRefusal>
    ensures { MatchResult result
        (λ call. (length payload.now ≡ 6) × (ask_of call ≡
        tie (slice_index payload.now 0) (slice_index payload.now 1) (u32_at payload.now 2)))
        (λ refusal. (refusal ≡ FileRefusal.WrongLength) × (length payload.now ≢ 6)) }
{
    let [first, second, m0, m1, m2, m3] = payload else {
        return Err(FileRefusal::WrongLength);
    };
    Ok(Call::Tie(Tie {
        first: *first as usize,
        second: *second as usize,
        mask: u32::from_le_bytes([*m0, *m1, *m2, *m3]),
    }))
}

/// How many entries and ties an end counts.
pub(crate) fn read_end(payload: &[u8]) -> Result<(usize, usize), FileRefusal>
    ensures { MatchResult result
        (λ counts. (length payload.now ≡ 3) × Counts counts.0 counts.1 payload.now)
        (λ refusal. (refusal ≡ FileRefusal.WrongLength) × (length payload.now ≢ 3)) }
{
    let [entries, t0, t1] = payload else {
        return Err(FileRefusal::WrongLength);
    };
    Ok((*entries as usize, u16::from_le_bytes([*t0, *t1]) as usize))
}
