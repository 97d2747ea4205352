//! The laws by which expressions are rewritten.

ghost use Rattle.laws.specs.Rewriting as law;

/// The sides of a join may change places.
pub fn joins_commute()
    ensures { law.JoinsCommute }
{}

/// Of three sides the last two may be joined first, if each condition is asked where its columns are.
pub fn joins_associate()
    ensures { law.JoinsAssociate }
{}

/// Two selections are one.
pub fn selects_merge()
    ensures { law.SelectsMerge }
{}

/// A selection from a join goes below it, to the left side.
pub fn selects_go_below()
    ensures { law.SelectsGoBelow }
{}

/// A selection from a join goes into its condition.
pub fn selects_go_in()
    ensures { law.SelectsGoIn }
{}

/// A join's condition goes below it, to the left side.
pub fn conditions_go_below()
    ensures { law.ConditionsGoBelow }
{}

/// A selection from a semijoin goes below it.
pub fn selects_go_below_semi()
    ensures { law.SelectsGoBelowSemi }
{}

/// A selection from an antijoin goes below it.
pub fn selects_go_below_anti()
    ensures { law.SelectsGoBelowAnti }
{}

/// Of two projections the outer one counts.
pub fn keeps_merge()
    ensures { law.KeepsMerge }
{}

/// A projection to all columns changes nothing.
pub fn keep_of_all()
    ensures { law.KeepOfAll }
{}

/// A projection of a join drops columns of the left side first.
pub fn keeps_go_below()
    ensures { law.KeepsGoBelow }
{}

/// Rows of which no two agree on a key are different.
pub fn distinct_of_keyed()
    ensures { law.DistinctOfKeyed }
{}

/// Groups without aggregates are the different keys.
pub fn groups_are_distinct()
    ensures { law.GroupsAreDistinct }
{}
