// Theorems: each is the contract of a function that does nothing, so that the check of the crate fails without its proof.
ghost use Rattle.programme.specs.Fitted.{InstantsArrange, SpansArrange};
ghost use Rattle.programme.specs.Grown.{BlankOrderly, StaysOrderly};
ghost use Rattle.programme.specs.Ledgers.{OneAnswer};
ghost use Rattle.programme.specs.Performed.{OneLine};

/// A ledger has one answer to what is asked, and a line leads from a ledger to one list of answers and one ledger.
pub fn answers_are_determined()
    ensures answer { OneAnswer }
    ensures line { OneLine }
{}

/// Calls lead to orderly ledgers alone: the blank one is orderly, and every answer leaves an orderly ledger.
pub fn ledgers_stay_orderly()
    ensures blank { BlankOrderly }
    ensures answer { StaysOrderly }
{}

/// Numbers that meet every tie of a ledger arrange its entries by the readings between them, so its ties do not clash.
pub fn fitting_numbers_arrange()
    ensures instants { InstantsArrange }
    ensures spans { SpansArrange }
{}
