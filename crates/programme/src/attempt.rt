// One tie: whether it is allowed, what it writes, and a guard that puts the sheet back unless it is kept.
ghost use Rattle.std.specs.Prelude.{◌≡◌, ◌<◌, ◌≤◌, ◌≢◌, Ok, Err, unwrap_or};
ghost use Rattle.programme.specs.Ledgers.{Ledger, tie, number, Below, Answered};
ghost use Rattle.programme.specs.Shown.{Shows};
ghost use Rattle.programme.specs.Written.{TieWritten};

use crate::refusals::Refusal;
use crate::sheets::Sheet;
use crate::ties::Tie;
use algebra::Algebra;

/// A sheet that is written to, and the sheet as it was, unless what is written is to be kept.
// The algebra comes beside a sheet and a tie, and not with them in a struct: the guard borrows the sheet alone.
pub(crate) struct Attempt<'a> {
    pub(crate) sheet: &'a mut Sheet,
    pub(crate) old: Option<Sheet>,
}

/// Whichever way a call ends, the sheet is put back unless it is kept.
impl Drop for Attempt<'_> {
    fn drop(self)
        ensures { self.exit.0.now ≡ unwrap_or self.entry.old self.entry.sheet.now }
    {
        let Attempt { sheet, old } = self;
        if let Some(old) = old {
            *sheet = old;
        }
    }
}

/// Refuses a tie for what can be seen before anything is worked out.
pub(crate) fn allowed<B: Algebra>(sheet: &Sheet, algebra: &B, asked: Tie) -> Result<(), Refusal>
    ensures told { (L : Ledger) → Shows (B.Algebra.meaning algebra.now) sheet.now L →
        elim result [
          | Ok u ↦ Below (B.Algebra.meaning algebra.now) L (tie asked.first asked.second asked.mask) 10
          | Err e ↦ Answered (B.Algebra.meaning algebra.now) L (tie asked.first asked.second asked.mask) (Err e)
        ] }
    ensures early { elim result [
      | Ok u ↦ (asked.first < sheet.now.count) × (asked.second < sheet.now.count) × (asked.first ≢ asked.second)
      | Err e ↦ number e < 10
    ] }
{
    let Tie {
        first,
        second,
        mask,
    } = asked;
    if first >= sheet.count || second >= sheet.count {
        return Err(Refusal::Absent);
    }
    if first == second {
        return Err(Refusal::Same);
    }
    if mask == 0 {
        return Err(Refusal::Empty);
    }
    let universe = algebra.universe();
    if mask & universe != mask {
        return Err(Refusal::Outside);
    }
    if mask == universe {
        return Err(Refusal::Everything);
    }
    Ok(())
}

/// Counts the tie in what is given and settles the network, and refuses the tie if that leaves some link empty.
pub(crate) fn write_tie<B: Algebra>(
    sheet: &mut Sheet,
    algebra: &B,
    asked: Tie,
) -> Result<usize, Refusal>
    requires { (asked.first < sheet.old.count) × ((asked.second < sheet.old.count) ×
        (asked.first ≢ asked.second)) }
    ensures { TieWritten (B.Algebra.meaning algebra.now) sheet.old asked.first asked.second asked.mask
        result sheet.new }
{
    sheet.give(algebra, asked);
    sheet.network.settle(algebra, asked);
    if sheet.network.emptied() {
        return Err(Refusal::Clash);
    }
    Ok(0)
}
