// Theorems: each is the contract of a function that does nothing, so that the check of the crate fails without its proof.
ghost use Rattle.qcue.specs.Loaded.{OneLoad};
ghost use Rattle.qcue.specs.Held.{LoadsExactly};
ghost use Rattle.qcue.specs.Written.{OneList};
ghost use Rattle.qcue.specs.Performed.{OneLine};

/// A file has one answer, and leads to one ledger; so does a line.
pub fn answers_are_determined()
    ensures file { OneLoad }
    ensures line { OneLine }
{}

/// A file loads into a blank ledger exactly when it keeps the layout, has the algebra's stamp, and its entries and ties would be
/// taken one by one.
pub fn files_load_exactly()
    ensures { LoadsExactly }
{}

/// A ledger has one list of tied pairs, so that each byte of its file is determined.
pub fn tied_pairs_are_one()
    ensures { OneList }
{}
