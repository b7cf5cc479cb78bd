// Names of entries: what may be a name, and how a sheet holds it.
ghost use Rattle.std.specs.Prelude.{◌≡◌, ℕ, ◌<◌, ◌≤◌, true, false, length, take, slice_index};
ghost use Rattle.programme.specs.Spelled.{name_of};
ghost use Rattle.programme.specs.Ledgers.{Unseen};

/// A name has at most this many bytes.
pub const NAME_BYTES: usize = 12;

/// The bytes of a name, with zeroes up to the full length, and how many there are.
// An array and a length: there is no heap here, `ArrayVec` is not `Copy`, as a sheet has to be, and `ArrayString` wants text.
#[derive(Clone, Copy, PartialEq, Eq)]
pub(crate) struct Name {
    bytes: [u8; NAME_BYTES],
    len: usize,
}

impl Name {
    /// The name with these bytes.
    pub(crate) fn of(text: &[u8]) -> Name
        requires { length text.now ≤ 12 }
        ensures { result ≡ name_of text.now }
    {
        let mut bytes = [0; NAME_BYTES];
        bytes[..text.len()].copy_from_slice(text);
        Name {
            bytes,
            len: text.len(),
        }
    }

    /// A name of no bytes, for the room that no entry has taken.
    pub(crate) fn none() -> Name
        ensures { result.len ≡ 0 }
    {
        Name {
            bytes: [0; NAME_BYTES],
            len: 0,
        }
    }

    /// The bytes that the name has.
    pub(crate) fn bytes(&self) -> &[u8]
        requires { self.now.len ≤ 12 }
        ensures { result.now ≡ take self.now.len self.now.bytes }
    {
        &self.bytes[..self.len]
    }
}

/// Whether every byte of `text` can be seen in print.
pub(crate) fn printable(text: &[u8]) -> bool
    ensures seen { result ≡ true →
        (k : ℕ) → k < length text.now → ¬ Unseen (slice_index text.now k) }
    ensures unseen { result ≡ false →
        ((k : ℕ) × (k < length text.now) × Unseen (slice_index text.now k)) }
{
    text.iter().all(u8::is_ascii_graphic)
}
