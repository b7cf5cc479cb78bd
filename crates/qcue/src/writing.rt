// Writing a programme's file into a buffer.
ghost use Rattle.std.specs.Prelude.{◌≡◌, ◌+◌, ◌^◌, ◌<◌, ◌≤◌, ◌++◌, length};
ghost use Rattle.programme.specs.Networks.{tie_of};
ghost use Rattle.qcue.specs.Records.{le16};
ghost use Rattle.qcue.specs.Read.{kind_number};
ghost use Rattle.qcue.specs.Written.{head_bytes, tie_bytes, end_bytes};
ghost use Rattle.qcue.specs.Laid.{Put, PutEntry, PutEntries, PutPair, PutRow, PutTies, PutFile, WrittenAs};

use crate::records::{Kind, MARK, PREFIX, VERSION};
use crate::refusals::FileRefusal;
use algebra::{Algebra, ReadingSet, Stamp};
use programme::{ENTRIES, NAME_BYTES, Programme};

/// The lengths of the records that have one.
const HEAD_LENGTH: usize = 14;

const TIE_LENGTH: usize = 10;

const END_LENGTH: usize = 7;

/// No file of a programme is longer: it has at most one tie for each pair of entries.
pub const LONGEST_FILE: usize = HEAD_LENGTH
    + ENTRIES * (PREFIX + NAME_BYTES)
    + ENTRIES * (ENTRIES - 1) / 2 * TIE_LENGTH
    + END_LENGTH;

/// What a record begins with.
fn prefix(length: usize, kind: Kind) -> [u8; PREFIX]
    requires { length < 2 ^ 16 }
    ensures { result ≡ le16 length ++ le16 (kind_number kind) }
{
    let [l0, l1] = (length as u16).to_le_bytes();
    let [k0, k1] = (kind as u16).to_le_bytes();
    [l0, l1, k0, k1]
}

fn head_record(stamp: Stamp) -> [u8; HEAD_LENGTH]
    ensures value { result ≡ head_bytes stamp }
    ensures house { stamp.house < 2 ^ 32 }
{
    let [l0, l1, k0, k1] = prefix(HEAD_LENGTH, Kind::Head);
    let [m0, m1, m2, m3] = MARK;
    let [h0, h1, h2, h3] = stamp.house.to_le_bytes();
    [
        l0, l1, k0, k1, m0, m1, m2, m3, VERSION, stamp.code, h0, h1, h2, h3,
    ]
}

// Bytes, as a file has them, and no `Tie` of numbers of any size.
fn tie_record(first: u8, second: u8, mask: ReadingSet) -> [u8; TIE_LENGTH]
    ensures { result ≡ tie_bytes (tie_of first second mask) }
{
    let [l0, l1, k0, k1] = prefix(TIE_LENGTH, Kind::Tie);
    let [m0, m1, m2, m3] = mask.to_le_bytes();
    [l0, l1, k0, k1, first, second, m0, m1, m2, m3]
}

fn end_record(entries: u8, ties: u16) -> [u8; END_LENGTH]
    ensures { result ≡ end_bytes entries ties }
{
    let [l0, l1, k0, k1] = prefix(END_LENGTH, Kind::End);
    let [t0, t1] = ties.to_le_bytes();
    [l0, l1, k0, k1, entries, t0, t1]
}

/// A buffer, and the place in it where the next part goes. A part that it has no room for moves the place alone.
// Each step says that the buffer is the same one, since a field that is a reference may be set anew.
#[derive(Drop)]
struct Writer<'a> {
    buffer: &'a mut [u8],
    at: usize,
}

impl Writer<'_> {
    /// Puts the part at the place, if there is room for it.
    fn put(&mut self, part: &[u8])
        requires { self.old.at + length part.now < 2 ^ 64 }
        ensures same { self.new.buffer.ghost_name ≡ self.old.buffer.ghost_name }
        ensures put { Put part.now self.old.buffer.now self.old.at self.new.buffer.now self.new.at }
    {
        let end = self.at + part.len();
        if end <= self.buffer.len() {
            self.buffer[self.at..end].copy_from_slice(part);
        }
        self.at = end;
    }

    /// Puts the entry with this number.
    fn put_entry<B: Algebra>(&mut self, programme: &Programme<B>, number: usize)
        requires { self.old.at < 2 ^ 32 }
        ensures same { self.new.buffer.ghost_name ≡ self.old.buffer.ghost_name }
        ensures few { self.new.at ≤ self.old.at + 16 }
        ensures entered { PutEntry (B.Algebra.meaning programme.now.algebra) programme.now.sheet
            number self.old.buffer.now self.old.at self.new.buffer.now self.new.at }
    {
        if let Ok(name) = programme.name(number) {
            self.put(&prefix(PREFIX + name.len(), Kind::Entry));
            self.put(name);
        }
    }

    /// Puts all entries.
    fn put_entries<B: Algebra>(&mut self, programme: &Programme<B>)
        requires { self.old.at < 2 ^ 31 }
        ensures same { self.new.buffer.ghost_name ≡ self.old.buffer.ghost_name }
        ensures few { self.new.at ≤ self.old.at + 768 }
        ensures entered { PutEntries (B.Algebra.meaning programme.now.algebra) programme.now.sheet
            self.old.buffer.now self.old.at self.new.buffer.now self.new.at }
    {
        for number in 0..programme.entries() {
            self.put_entry(programme, number);
        }
    }

    /// Puts the tie of two entries, if they are tied.
    fn put_pair<B: Algebra>(&mut self, programme: &Programme<B>, first: usize, second: usize)
        requires { (self.old.at < 2 ^ 32) × ((first < second) × (second < 48)) }
        ensures same { self.new.buffer.ghost_name ≡ self.old.buffer.ghost_name }
        ensures few { self.new.at ≤ self.old.at + 10 }
        ensures paired { PutPair (B.Algebra.meaning programme.now.algebra) programme.now.sheet
            first second self.old.buffer.now self.old.at self.new.buffer.now self.new.at }
    {
        let mask = programme.given(first, second).unwrap_or(0);
        if mask != 0 {
            self.put(&tie_record(first as u8, second as u8, mask));
        }
    }

    /// Puts the ties of an entry with later ones.
    fn put_row<B: Algebra>(&mut self, programme: &Programme<B>, first: usize)
        requires { (self.old.at < 2 ^ 31) × (first < 48) }
        ensures same { self.new.buffer.ghost_name ≡ self.old.buffer.ghost_name }
        ensures few { self.new.at ≤ self.old.at + 480 }
        ensures paired { PutRow (B.Algebra.meaning programme.now.algebra) programme.now.sheet
            first self.old.buffer.now self.old.at self.new.buffer.now self.new.at }
    {
        for second in first + 1..programme.entries() {
            self.put_pair(programme, first, second);
        }
    }

    /// Puts all ties, one for each tied pair.
    // As short as a call of one function for this and `put_entries`, which would take the step as a closure.
    fn put_ties<B: Algebra>(&mut self, programme: &Programme<B>)
        requires { self.old.at < 2 ^ 30 }
        ensures same { self.new.buffer.ghost_name ≡ self.old.buffer.ghost_name }
        ensures few { self.new.at ≤ self.old.at + 23040 }
        ensures tied { PutTies (B.Algebra.meaning programme.now.algebra) programme.now.sheet
            self.old.buffer.now self.old.at self.new.buffer.now self.new.at }
    {
        for first in 0..programme.entries() {
            self.put_row(programme, first);
        }
    }
}

/// Lays the whole file out, as far as the buffer has room for its parts, and answers its length.
fn lay_out<B: Algebra>(programme: &Programme<B>, buffer: &mut [u8]) -> usize
    ensures house { (B.Algebra.meaning programme.now.algebra).stamp.house < 2 ^ 32 }
    ensures laid { PutFile (B.Algebra.meaning programme.now.algebra) programme.now.sheet
        buffer.old buffer.new result }
{
    let mut writer = Writer { buffer, at: 0 };
    writer.put(&head_record(programme.stamp()));
    writer.put_entries(programme);
    let entered = writer.at;
    writer.put_ties(programme);
    let ties = (writer.at - entered) / TIE_LENGTH;
    writer.put(&end_record(programme.entries() as u8, ties as u16));
    writer.at
}

/// Writes the programme's file to the front of the buffer, and answers its length. A buffer that is too short stays as it was.
pub fn write<B: Algebra>(programme: &Programme<B>, buffer: &mut [u8]) -> Result<usize, FileRefusal>
    ensures { WrittenAs (B.Algebra.meaning programme.now.algebra) programme.now.sheet
        buffer.old buffer.new result }
{
    let length = lay_out(programme, &mut []);
    if buffer.len() < length {
        return Err(FileRefusal::TooShort);
    }
    Ok(lay_out(programme, buffer))
}
