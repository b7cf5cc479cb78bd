// Why a call is refused.
ghost use Rattle.std.specs.Prelude.{◌≡◌};
ghost use Rattle.programme.specs.Ledgers.{number};

/// Each refusal has a number. Of several that apply, a call answers the one with the smallest.
#[derive(Clone, Copy, PartialEq, Eq, Debug)]
pub enum Refusal {
    /// The name has no bytes, or more than twelve.
    Misnamed = 1,
    /// A byte of the name cannot be seen in print.
    Unprintable = 2,
    /// An entry has this name already.
    Known = 3,
    /// The sheet has no room for another entry.
    Full = 4,
    /// There is no entry with that number.
    Absent = 5,
    /// Both numbers are the same.
    Same = 6,
    /// The mask has no reading.
    Empty = 7,
    /// The mask has a bit outside the universe.
    Outside = 8,
    /// The mask is the whole universe, so the tie would say nothing.
    Everything = 9,
    /// With this tie, some link has no reading left.
    Clash = 10,
}

impl Refusal {
    /// What a refusal is known by outside.
    pub fn number(self) -> u8
        ensures { result ≡ number self }
    {
        self as u8
    }
}
