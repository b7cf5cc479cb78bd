// Theorems about the algebras, each as the contract of a function that does nothing: the check of the crate fails without
// its proof.
ghost use Rattle.std.specs.Prelude.{ℤ};
ghost use Rattle.algebra.specs.Things.{Describes, DescribesSets};
ghost use Rattle.algebra.specs.Instants.{instants, InstantsStand};
ghost use Rattle.algebra.specs.Spans.{spans, Span, SpansStand};
ghost use Rattle.algebra.specs.Statements.{EqualByMembership, ConverseByMembership, CompositionByMembership, HouseOverHouse};

/// What sets, their converses and their compositions are, reading by reading, over every lawful algebra.
pub fn sets_by_membership()
    ensures equal { EqualByMembership }
    ensures converse { ConverseByMembership }
    ensures composition { CompositionByMembership }
{}

/// Instants describe whole numbers: exactly one reading stands between two, and a composition has just the readings that
/// three numbers can show; the same of sets.
pub fn instants_describe_numbers()
    ensures readings { Describes instants ℤ InstantsStand }
    ensures sets { DescribesSets instants ℤ InstantsStand }
{}

/// Spans describe pairs of whole numbers, the start smaller than the end, in the same way.
pub fn spans_describe_intervals()
    ensures readings { Describes spans Span SpansStand }
    ensures sets { DescribesSets spans Span SpansStand }
{}

/// A house rule over a house rule means what one rule with both masks means.
pub fn house_rules_join()
    ensures { HouseOverHouse }
{}
