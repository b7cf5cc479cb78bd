// Why a file or a buffer is refused, and where.
ghost use Rattle.std.specs.Prelude.{◌≡◌, Some};
ghost use Rattle.qcue.specs.Refusals.{file_number, reason_number, layer_of, fault_text};
ghost use Rattle.qcue.specs.declared.refusals.FileRefusal.TheVariants.{OtherStamp};
ghost use Rattle.qcue.specs.declared.refusals.Reason.TheVariants.{File, Sheet};

use algebra::UnknownCode;
use programme::Refusal;
use std::fmt;

/// What is wrong with a file, whatever the sheet says, or with the buffer for one. Three of these share the number 17.
#[derive(Clone, Copy, PartialEq, Eq, Debug)]
pub enum FileRefusal {
    /// The buffer is shorter than the file.
    TooShort,
    /// The programme has entries already.
    Occupied,
    /// Bytes follow the end.
    Trailing,
    /// No bytes remain, and there was no end.
    Unfinished,
    /// There are too few bytes for a record.
    Cut,
    /// There is no such kind of record.
    UnknownKind,
    /// A record of this kind may not come next.
    Misplaced,
    /// A head, a tie or an end has another length.
    WrongLength,
    /// The head has another mark or version, or the stamp of another algebra.
    OtherStamp,
    /// The end counts other entries or ties than there were.
    WrongCount,
}

impl FileRefusal {
    /// What a refusal is known by outside.
    pub fn number(self) -> u8
        ensures { result ≡ file_number self }
    {
        match self {
            FileRefusal::TooShort => 13,
            FileRefusal::Occupied => 14,
            FileRefusal::Cut => 15,
            FileRefusal::UnknownKind => 16,
            FileRefusal::Trailing | FileRefusal::Unfinished | FileRefusal::Misplaced => 17,
            FileRefusal::WrongLength => 18,
            FileRefusal::OtherStamp => 19,
            FileRefusal::WrongCount => 20,
        }
    }

    /// The fault of the record at this offset.
    pub(crate) fn at(self, offset: usize) -> Fault
        ensures { result ≡ record { reason = File self; offset = offset } }
    {
        Fault {
            reason: Reason::File(self),
            offset,
        }
    }
}

impl From<UnknownCode> for FileRefusal {
    ghost from_gives = { λ _ refusal. refusal ≡ OtherStamp };

    fn from(_: UnknownCode) -> FileRefusal {
        Self::OtherStamp
    }
}

/// Why a record is refused: by the file itself, or by the call that it asks for.
#[derive(Clone, Copy, Debug)]
pub enum Reason {
    File(FileRefusal),
    Sheet(Refusal),
}

impl Reason {
    /// What the reason is known by outside.
    pub fn number(self) -> u8
        ensures { result ≡ reason_number self }
    {
        match self {
            Reason::File(refusal) => refusal.number(),
            Reason::Sheet(refusal) => refusal.number(),
        }
    }

    /// The layer that refused.
    pub fn layer(self) -> &'static str
        ensures { result.now ≡ layer_of self }
    {
        match self {
            Reason::File(_) => "file",
            Reason::Sheet(_) => "sheet",
        }
    }
}

impl From<FileRefusal> for Reason {
    ghost from_gives = { λ refusal r. r ≡ File refusal };

    fn from(refusal: FileRefusal) -> Reason {
        Reason::File(refusal)
    }
}

impl From<Refusal> for Reason {
    ghost from_gives = { λ refusal r. r ≡ Sheet refusal };

    fn from(refusal: Refusal) -> Reason {
        Reason::Sheet(refusal)
    }
}

/// A refused file: why, and the offset of the record that is refused.
#[derive(Clone, Copy, Debug)]
pub struct Fault {
    pub reason: Reason,
    pub offset: usize,
}

/// As in `refused 17 at 49 file`.
impl fmt::Display for Fault {
    ghost output = { λ fault. Some (fault_text fault) };

    fn fmt<W: fmt::Write>(&self, f: &mut fmt::Formatter<W>) -> fmt::Result {
        let number = self.reason.number();
        let offset = self.offset;
        let layer = self.reason.layer();
        write!(f, "refused {number} at {offset} {layer}")
    }
}
