// Theorems: each is the contract of a function that does nothing, so that the check of the crate fails without its proof.
ghost use Rattle.listing.specs.Listed.{OneListing};

/// A ledger has one listing.
pub fn listings_are_one()
    ensures { OneListing }
{}
