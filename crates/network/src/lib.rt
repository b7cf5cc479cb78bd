// The theory of links between entries, as theorems: each is the contract of a function that does nothing, so that the check
// of the crate fails without its proof.
#![tactic(auto)]

ghost use Rattle.network.specs.Statements.{OneGiven, Least, Sound, Unique, ClashShows};
ghost use Rattle.network.specs.Statements.{Begins, Starts, Narrowing, Finishing, Implied, Weaker, Alike};
ghost use Rattle.network.specs.Statements.{Complete, Consistent, Exact, Inhabited};

/// A pair has one given set.
pub fn given_sets_are_one()
    ensures { OneGiven }
{}

/// The links are the least set of pairs that has the ties, goes both ways and is filled in.
pub fn links_are_least()
    ensures { Least }
{}

/// Every arrangement that meets the ties meets each settled link.
pub fn settled_links_are_sound()
    ensures { Sound }
{}

/// Two settled nets are equal on every link, so any of them shows whether the ties clash.
pub fn settled_nets_are_one()
    ensures equal { Unique }
    ensures clash { ClashShows }
{}

/// Closing step by step: with no ties every net is settled; from a settled net and a tie more, cutting links by what leads
/// round by a third entry keeps what a settled net needs, and ends in one where nothing more is cut.
pub fn closing_settles()
    ensures begins { Begins }
    ensures starts { Starts }
    ensures narrows { Narrowing }
    ensures finishes { Finishing }
{}

/// Ties that follow from others do not clash where those do not; ties that follow from each other settle the same.
pub fn weaker_ties_clash_no_more()
    ensures implied { Implied }
    ensures weaker { Weaker }
    ensures alike { Alike }
{}

/// On instants a settled link is empty exactly when no times meet the ties, unless some pair is given exactly 'earlier or
/// later'.
pub fn clashes_of_instants_are_exact()
    ensures complete { Complete }
    ensures consistent { Consistent }
    ensures exact { Exact }
{}

/// An example: the settled net of two ties between three entries.
pub fn settled_nets_exist()
    ensures { Inhabited }
{}
