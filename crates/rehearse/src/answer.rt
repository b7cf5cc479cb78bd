// Answers, as they are printed.
use crate::command::Expected;
use algebra::Stamp;
use programme::{Misfit, Refusal};
use qcue::{Fault, FileRefusal, Reason};
use std::{fmt, io};

#[derive(Drop)]
pub enum Answer {
    /// The code and the house mask of the algebra that was opened.
    Opened(Stamp),
    Number(usize),
    /// A set in letters, by rising reading; no set is as the empty one.
    Letters(String),
    Refused(Reason),
    /// A file was refused.
    Faulty(Fault),
    /// The first tied pair that times do not meet, if there is one.
    Unmet(Option<(usize, usize)>),
    Misfitting(Misfit),
    /// Lines, which stand behind that of the command.
    Listing(String),
    NotRead(io::Error),
    NotWritten(io::Error),
    NotUnderstood(Expected),
}

impl From<Refusal> for Answer {
    fn from(refusal: Refusal) -> Answer {
        Answer::Refused(refusal.into())
    }
}

impl From<FileRefusal> for Answer {
    fn from(refusal: FileRefusal) -> Answer {
        Answer::Refused(refusal.into())
    }
}

impl From<Fault> for Answer {
    fn from(fault: Fault) -> Answer {
        Answer::Faulty(fault)
    }
}

impl From<Misfit> for Answer {
    fn from(misfit: Misfit) -> Answer {
        Answer::Misfitting(misfit)
    }
}

impl From<Expected> for Answer {
    fn from(expected: Expected) -> Answer {
        Answer::NotUnderstood(expected)
    }
}

impl fmt::Display for Answer {
    fn fmt<W: fmt::Write>(&self, f: &mut fmt::Formatter<W>) -> fmt::Result {
        match self {
            Answer::Opened(Stamp { code, house }) => write!(f, "{code} {house:08X}"),
            Answer::Number(number) => write!(f, "{number}"),
            Answer::Letters(letters) if letters.is_empty() => write!(f, "none"),
            Answer::Letters(letters) => write!(f, "{letters}"),
            Answer::Refused(reason) => write!(
                f,
                "refused {} ({})",
                reason.number(),
                words(*reason)
            ),
            Answer::Faulty(fault) => write!(f, "{fault} ({})", words(fault.reason)),
            Answer::Unmet(None) => write!(f, "none"),
            Answer::Unmet(Some((first, second))) => write!(f, "{first} {second}"),
            Answer::Misfitting(misfit) => {
                write!(
                    f,
                    "refused {} ({})",
                    misfit.number(),
                    words_of_times(*misfit)
                )
            }
            Answer::Listing(lines) => write!(f, "{lines}"),
            Answer::NotRead(error) => write!(f, "not read ({error})"),
            Answer::NotWritten(error) => write!(f, "not written ({error})"),
            Answer::NotUnderstood(expected) => write!(f, "not understood (expected {expected})"),
        }
    }
}

fn words(reason: Reason) -> &'static str {
    match reason {
        Reason::Sheet(refusal) => words_of_sheet(refusal),
        Reason::File(refusal) => words_of_file(refusal),
    }
}

fn words_of_sheet(refusal: Refusal) -> &'static str {
    match refusal {
        Refusal::Misnamed => "a name has 1 to 12 bytes",
        Refusal::Unprintable => "a byte of the name is below 21 or above 7E",
        Refusal::Known => "the name is there already",
        Refusal::Full => "48 entries stand",
        Refusal::Absent => "no such entry",
        Refusal::Same => "both entries are the same",
        Refusal::Empty => "the set is empty",
        Refusal::Outside => "a reading outside the universe",
        Refusal::Everything => "the whole universe says nothing",
        Refusal::Clash => "the sheet with this tie clashes",
    }
}

fn words_of_file(refusal: FileRefusal) -> &'static str {
    match refusal {
        FileRefusal::TooShort => "the buffer is too short",
        FileRefusal::Occupied => "the programme has entries",
        FileRefusal::Trailing => "bytes follow the end",
        FileRefusal::Unfinished => "no bytes remain, and there was no end",
        FileRefusal::Cut => "too few bytes for a record",
        FileRefusal::UnknownKind => "no such kind of record",
        FileRefusal::Misplaced => "this kind may not come next",
        FileRefusal::WrongLength => "a head, a tie or an end has another length",
        FileRefusal::OtherStamp => "another mark, version or stamp",
        FileRefusal::WrongCount => "the end counts other entries or ties",
    }
}

fn words_of_times(misfit: Misfit) -> &'static str {
    match misfit {
        Misfit::Miscounted => "another count of numbers",
        Misfit::NoThing => "the numbers of an entry make no thing",
    }
}
