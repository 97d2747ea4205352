//! The rules by their names in certificates.

ghost use Rattle.std.specs.Prelude.{◌≡◌, ◌≢◌, IfOk, MatchOption};
ghost use Rattle.std.specs.List.{AllByRecursion};
ghost use Rattle.book.specs.declared.names.RuleName.{RuleName};
ghost use Rattle.values.specs.Faults.{Gives};
ghost use Rattle.rules.specs.Matches.{matched};
ghost use Rattle.book.specs.Book as spec;

use outer_rules::condition_below_left_join::ConditionBelowLeftJoin;
use outer_rules::keep_of_left_side::KeepOfLeftSide;
use outer_rules::left_join_above_join::LeftJoinAboveJoin;
use outer_rules::left_join_below_join::LeftJoinBelowJoin;
use outer_rules::outer_join_is_anti::OuterJoinIsAnti;
use outer_rules::outer_join_is_inner::OuterJoinIsInner;
use outer_rules::select_below_left_join::SelectBelowLeftJoin;
use plain_rules::condition_below_join::ConditionBelowJoin;
use plain_rules::distinct_of_keyed::DistinctOfKeyed;
use plain_rules::group_is_distinct::GroupIsDistinct;
use plain_rules::join_associates::JoinAssociates;
use plain_rules::join_commutes::JoinCommutes;
use plain_rules::keep_below_join::KeepBelowJoin;
use plain_rules::keep_of_all::KeepOfAll;
use plain_rules::keeps_merge::KeepsMerge;
use plain_rules::select_below_group::SelectBelowGroup;
use plain_rules::select_below_join::SelectBelowJoin;
use plain_rules::select_below_semi::SelectBelowSemi;
use plain_rules::select_into_join::SelectIntoJoin;
use plain_rules::selects_merge::SelectsMerge;
use rules::{Match, Pattern, Promise, Rule, RuleFault, Shape};
use semijoin_rules::antijoin_of_filled::AntijoinOfFilled;
use semijoin_rules::semijoin_below_join::SemijoinBelowJoin;
use semijoin_rules::semijoin_is_join::SemijoinIsJoin;
use std::alloc::{AllocError, Global};
use subquery_rules::exists_is_semi::ExistsIsSemi;
use subquery_rules::exists_of_select_is_semi::ExistsOfSelectIsSemi;
use subquery_rules::in_is_semi::InIsSemi;
use subquery_rules::in_select_is_semi::InSelectIsSemi;
use subquery_rules::not_exists_is_anti::NotExistsIsAnti;
use subquery_rules::not_exists_of_select_is_anti::NotExistsOfSelectIsAnti;
use subquery_rules::not_in_is_anti::NotInIsAnti;
use subquery_rules::not_in_select_is_anti::NotInSelectIsAnti;
use subquery_rules::subquery_of_input::SubqueryOfInput;

/// A rule of the book.
#[derive(Clone, Copy, Debug, PartialEq, Eq)]
pub enum RuleName {
    JoinCommutes,
    JoinAssociates,
    SelectsMerge,
    SelectBelowJoin,
    SelectIntoJoin,
    ConditionBelowJoin,
    SelectBelowSemi,
    KeepsMerge,
    KeepOfAll,
    KeepBelowJoin,
    DistinctOfKeyed,
    GroupIsDistinct,
    SelectBelowGroup,
    OuterJoinIsInner,
    SelectBelowLeftJoin,
    ConditionBelowLeftJoin,
    LeftJoinBelowJoin,
    LeftJoinAboveJoin,
    KeepOfLeftSide,
    OuterJoinIsAnti,
    ExistsIsSemi,
    NotExistsIsAnti,
    InIsSemi,
    NotInIsAnti,
    AntijoinOfFilled,
    SubqueryOfInput,
    ExistsOfSelectIsSemi,
    NotExistsOfSelectIsAnti,
    InSelectIsSemi,
    NotInSelectIsAnti,
    SemijoinBelowJoin,
    SemijoinIsJoin,
}

const RULES: [RuleName; 32] = [
    RuleName::JoinCommutes,
    RuleName::JoinAssociates,
    RuleName::SelectsMerge,
    RuleName::SelectBelowJoin,
    RuleName::SelectIntoJoin,
    RuleName::ConditionBelowJoin,
    RuleName::SelectBelowSemi,
    RuleName::KeepsMerge,
    RuleName::KeepOfAll,
    RuleName::KeepBelowJoin,
    RuleName::DistinctOfKeyed,
    RuleName::GroupIsDistinct,
    RuleName::SelectBelowGroup,
    RuleName::OuterJoinIsInner,
    RuleName::SelectBelowLeftJoin,
    RuleName::ConditionBelowLeftJoin,
    RuleName::LeftJoinBelowJoin,
    RuleName::LeftJoinAboveJoin,
    RuleName::KeepOfLeftSide,
    RuleName::OuterJoinIsAnti,
    RuleName::ExistsIsSemi,
    RuleName::NotExistsIsAnti,
    RuleName::InIsSemi,
    RuleName::NotInIsAnti,
    RuleName::AntijoinOfFilled,
    RuleName::SubqueryOfInput,
    RuleName::ExistsOfSelectIsSemi,
    RuleName::NotExistsOfSelectIsAnti,
    RuleName::InSelectIsSemi,
    RuleName::NotInSelectIsAnti,
    RuleName::SemijoinBelowJoin,
    RuleName::SemijoinIsJoin,
];

/// The first of the rules that has the code.
fn with_code(mut rules: &[RuleName], code: &str) -> Option<RuleName>
    ensures { MatchOption result (AllByRecursion (λ rule. spec.code_of rule ≢ code.now) rules.entry.now) (λ rule. spec.code_of rule ≡ code.now) }
{
    'rules: while let [rule, rest @ ..] = rules {
        if rule.code() == code {
            return Some(*rule);
        }
        rules = rest;
    }
    None
}

impl RuleName {
    /// The rules of the book.
    pub fn all() -> &'static [RuleName]
        ensures { result.now ≡ spec.rules }
    {
        &RULES
    }

    /// Its name in certificates.
    pub fn code(self) -> &'static str
        ensures { result.now ≡ spec.code_of self }
    {
        match self {
            RuleName::JoinCommutes => JoinCommutes::CODE,
            RuleName::JoinAssociates => JoinAssociates::CODE,
            RuleName::SelectsMerge => SelectsMerge::CODE,
            RuleName::SelectBelowJoin => SelectBelowJoin::CODE,
            RuleName::SelectIntoJoin => SelectIntoJoin::CODE,
            RuleName::ConditionBelowJoin => ConditionBelowJoin::CODE,
            RuleName::SelectBelowSemi => SelectBelowSemi::CODE,
            RuleName::KeepsMerge => KeepsMerge::CODE,
            RuleName::KeepOfAll => KeepOfAll::CODE,
            RuleName::KeepBelowJoin => KeepBelowJoin::CODE,
            RuleName::DistinctOfKeyed => DistinctOfKeyed::CODE,
            RuleName::GroupIsDistinct => GroupIsDistinct::CODE,
            RuleName::SelectBelowGroup => SelectBelowGroup::CODE,
            RuleName::OuterJoinIsInner => OuterJoinIsInner::CODE,
            RuleName::SelectBelowLeftJoin => SelectBelowLeftJoin::CODE,
            RuleName::ConditionBelowLeftJoin => ConditionBelowLeftJoin::CODE,
            RuleName::LeftJoinBelowJoin => LeftJoinBelowJoin::CODE,
            RuleName::LeftJoinAboveJoin => LeftJoinAboveJoin::CODE,
            RuleName::KeepOfLeftSide => KeepOfLeftSide::CODE,
            RuleName::OuterJoinIsAnti => OuterJoinIsAnti::CODE,
            RuleName::ExistsIsSemi => ExistsIsSemi::CODE,
            RuleName::NotExistsIsAnti => NotExistsIsAnti::CODE,
            RuleName::InIsSemi => InIsSemi::CODE,
            RuleName::NotInIsAnti => NotInIsAnti::CODE,
            RuleName::AntijoinOfFilled => AntijoinOfFilled::CODE,
            RuleName::SubqueryOfInput => SubqueryOfInput::CODE,
            RuleName::ExistsOfSelectIsSemi => ExistsOfSelectIsSemi::CODE,
            RuleName::NotExistsOfSelectIsAnti => NotExistsOfSelectIsAnti::CODE,
            RuleName::InSelectIsSemi => InSelectIsSemi::CODE,
            RuleName::NotInSelectIsAnti => NotInSelectIsAnti::CODE,
            RuleName::SemijoinBelowJoin => SemijoinBelowJoin::CODE,
            RuleName::SemijoinIsJoin => SemijoinIsJoin::CODE,
        }
    }

    /// The rule with this name in certificates, if there is one.
    pub fn of_code(code: &str) -> Option<RuleName>
        ensures { MatchOption result ((rule : RuleName) → spec.code_of rule ≢ code.now) (λ rule. spec.code_of rule ≡ code.now) }
    {
        with_code(&RULES, code)
    }

    /// The lines that the rule of this name takes.
    pub fn pattern(self) -> Pattern
        ensures { result ≡ spec.pattern_of self }
    {
        match self {
            RuleName::JoinCommutes => JoinCommutes::pattern(),
            RuleName::JoinAssociates => JoinAssociates::pattern(),
            RuleName::SelectsMerge => SelectsMerge::pattern(),
            RuleName::SelectBelowJoin => SelectBelowJoin::pattern(),
            RuleName::SelectIntoJoin => SelectIntoJoin::pattern(),
            RuleName::ConditionBelowJoin => ConditionBelowJoin::pattern(),
            RuleName::SelectBelowSemi => SelectBelowSemi::pattern(),
            RuleName::KeepsMerge => KeepsMerge::pattern(),
            RuleName::KeepOfAll => KeepOfAll::pattern(),
            RuleName::KeepBelowJoin => KeepBelowJoin::pattern(),
            RuleName::DistinctOfKeyed => DistinctOfKeyed::pattern(),
            RuleName::GroupIsDistinct => GroupIsDistinct::pattern(),
            RuleName::SelectBelowGroup => SelectBelowGroup::pattern(),
            RuleName::OuterJoinIsInner => OuterJoinIsInner::pattern(),
            RuleName::SelectBelowLeftJoin => SelectBelowLeftJoin::pattern(),
            RuleName::ConditionBelowLeftJoin => ConditionBelowLeftJoin::pattern(),
            RuleName::LeftJoinBelowJoin => LeftJoinBelowJoin::pattern(),
            RuleName::LeftJoinAboveJoin => LeftJoinAboveJoin::pattern(),
            RuleName::KeepOfLeftSide => KeepOfLeftSide::pattern(),
            RuleName::OuterJoinIsAnti => OuterJoinIsAnti::pattern(),
            RuleName::ExistsIsSemi => ExistsIsSemi::pattern(),
            RuleName::NotExistsIsAnti => NotExistsIsAnti::pattern(),
            RuleName::InIsSemi => InIsSemi::pattern(),
            RuleName::NotInIsAnti => NotInIsAnti::pattern(),
            RuleName::AntijoinOfFilled => AntijoinOfFilled::pattern(),
            RuleName::SubqueryOfInput => SubqueryOfInput::pattern(),
            RuleName::ExistsOfSelectIsSemi => ExistsOfSelectIsSemi::pattern(),
            RuleName::NotExistsOfSelectIsAnti => NotExistsOfSelectIsAnti::pattern(),
            RuleName::InSelectIsSemi => InSelectIsSemi::pattern(),
            RuleName::NotInSelectIsAnti => NotInSelectIsAnti::pattern(),
            RuleName::SemijoinBelowJoin => SemijoinBelowJoin::pattern(),
            RuleName::SemijoinIsJoin => SemijoinIsJoin::pattern(),
        }
    }

    /// When the rule of this name is tried at lines that it takes.
    pub fn promise(self, alloc: Global, at: Match<'_>) -> Result<Promise, AllocError>
        ensures { IfOk result (λ p. p ≡ spec.promise_of self (matched at.entry)) }
    {
        match self {
            RuleName::JoinCommutes => JoinCommutes::promise(alloc, at),
            RuleName::JoinAssociates => JoinAssociates::promise(alloc, at),
            RuleName::SelectsMerge => SelectsMerge::promise(alloc, at),
            RuleName::SelectBelowJoin => SelectBelowJoin::promise(alloc, at),
            RuleName::SelectIntoJoin => SelectIntoJoin::promise(alloc, at),
            RuleName::ConditionBelowJoin => ConditionBelowJoin::promise(alloc, at),
            RuleName::SelectBelowSemi => SelectBelowSemi::promise(alloc, at),
            RuleName::KeepsMerge => KeepsMerge::promise(alloc, at),
            RuleName::KeepOfAll => KeepOfAll::promise(alloc, at),
            RuleName::KeepBelowJoin => KeepBelowJoin::promise(alloc, at),
            RuleName::DistinctOfKeyed => DistinctOfKeyed::promise(alloc, at),
            RuleName::GroupIsDistinct => GroupIsDistinct::promise(alloc, at),
            RuleName::SelectBelowGroup => SelectBelowGroup::promise(alloc, at),
            RuleName::OuterJoinIsInner => OuterJoinIsInner::promise(alloc, at),
            RuleName::SelectBelowLeftJoin => SelectBelowLeftJoin::promise(alloc, at),
            RuleName::ConditionBelowLeftJoin => ConditionBelowLeftJoin::promise(alloc, at),
            RuleName::LeftJoinBelowJoin => LeftJoinBelowJoin::promise(alloc, at),
            RuleName::LeftJoinAboveJoin => LeftJoinAboveJoin::promise(alloc, at),
            RuleName::KeepOfLeftSide => KeepOfLeftSide::promise(alloc, at),
            RuleName::OuterJoinIsAnti => OuterJoinIsAnti::promise(alloc, at),
            RuleName::ExistsIsSemi => ExistsIsSemi::promise(alloc, at),
            RuleName::NotExistsIsAnti => NotExistsIsAnti::promise(alloc, at),
            RuleName::InIsSemi => InIsSemi::promise(alloc, at),
            RuleName::NotInIsAnti => NotInIsAnti::promise(alloc, at),
            RuleName::AntijoinOfFilled => AntijoinOfFilled::promise(alloc, at),
            RuleName::SubqueryOfInput => SubqueryOfInput::promise(alloc, at),
            RuleName::ExistsOfSelectIsSemi => ExistsOfSelectIsSemi::promise(alloc, at),
            RuleName::NotExistsOfSelectIsAnti => NotExistsOfSelectIsAnti::promise(alloc, at),
            RuleName::InSelectIsSemi => InSelectIsSemi::promise(alloc, at),
            RuleName::NotInSelectIsAnti => NotInSelectIsAnti::promise(alloc, at),
            RuleName::SemijoinBelowJoin => SemijoinBelowJoin::promise(alloc, at),
            RuleName::SemijoinIsJoin => SemijoinIsJoin::promise(alloc, at),
        }
    }

    /// What the rule of this name gives.
    pub fn apply(self, alloc: Global, at: Match<'_>) -> Result<Shape, RuleFault>
        ensures { Gives (λ s. s) result (spec.given_by self (matched at.entry)) }
    {
        match self {
            RuleName::JoinCommutes => JoinCommutes::apply(alloc, at),
            RuleName::JoinAssociates => JoinAssociates::apply(alloc, at),
            RuleName::SelectsMerge => SelectsMerge::apply(alloc, at),
            RuleName::SelectBelowJoin => SelectBelowJoin::apply(alloc, at),
            RuleName::SelectIntoJoin => SelectIntoJoin::apply(alloc, at),
            RuleName::ConditionBelowJoin => ConditionBelowJoin::apply(alloc, at),
            RuleName::SelectBelowSemi => SelectBelowSemi::apply(alloc, at),
            RuleName::KeepsMerge => KeepsMerge::apply(alloc, at),
            RuleName::KeepOfAll => KeepOfAll::apply(alloc, at),
            RuleName::KeepBelowJoin => KeepBelowJoin::apply(alloc, at),
            RuleName::DistinctOfKeyed => DistinctOfKeyed::apply(alloc, at),
            RuleName::GroupIsDistinct => GroupIsDistinct::apply(alloc, at),
            RuleName::SelectBelowGroup => SelectBelowGroup::apply(alloc, at),
            RuleName::OuterJoinIsInner => OuterJoinIsInner::apply(alloc, at),
            RuleName::SelectBelowLeftJoin => SelectBelowLeftJoin::apply(alloc, at),
            RuleName::ConditionBelowLeftJoin => ConditionBelowLeftJoin::apply(alloc, at),
            RuleName::LeftJoinBelowJoin => LeftJoinBelowJoin::apply(alloc, at),
            RuleName::LeftJoinAboveJoin => LeftJoinAboveJoin::apply(alloc, at),
            RuleName::KeepOfLeftSide => KeepOfLeftSide::apply(alloc, at),
            RuleName::OuterJoinIsAnti => OuterJoinIsAnti::apply(alloc, at),
            RuleName::ExistsIsSemi => ExistsIsSemi::apply(alloc, at),
            RuleName::NotExistsIsAnti => NotExistsIsAnti::apply(alloc, at),
            RuleName::InIsSemi => InIsSemi::apply(alloc, at),
            RuleName::NotInIsAnti => NotInIsAnti::apply(alloc, at),
            RuleName::AntijoinOfFilled => AntijoinOfFilled::apply(alloc, at),
            RuleName::SubqueryOfInput => SubqueryOfInput::apply(alloc, at),
            RuleName::ExistsOfSelectIsSemi => ExistsOfSelectIsSemi::apply(alloc, at),
            RuleName::NotExistsOfSelectIsAnti => NotExistsOfSelectIsAnti::apply(alloc, at),
            RuleName::InSelectIsSemi => InSelectIsSemi::apply(alloc, at),
            RuleName::NotInSelectIsAnti => NotInSelectIsAnti::apply(alloc, at),
            RuleName::SemijoinBelowJoin => SemijoinBelowJoin::apply(alloc, at),
            RuleName::SemijoinIsJoin => SemijoinIsJoin::apply(alloc, at),
        }
    }
}
