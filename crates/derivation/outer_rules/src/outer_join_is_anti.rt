//! An outer join of which the padded rows alone are asked for is an antijoin.

ghost use Rattle.std.specs.Prelude.{◌≡◌};
ghost use Rattle.std.specs.List.{list_all, list_any};
ghost use Rattle.values.specs.Faults.{Gives};
ghost use Rattle.algebra.specs.Columns.{has};
ghost use Rattle.algebra.specs.GivenColumns.{given_columns};
ghost use Rattle.props.specs.Knowledge.{known};
ghost use Rattle.outer_rules.specs.OuterJoinIsAnti as spec;

use crate::keep_of_left_side::are_elsewhere;
use algebra::{ClassColumns, ClassId, Columns, Condition, Conjuncts, Expr, Term};
use props::{KnownClasses, NullColumns, never_true};
use query::ColumnId;
use rules::shaping::{anti, keep, selected};
use rules::{
    Below, Input, Match, Operator, Operators, Pattern, Promise, Rule, RuleFault, Shape, Unfit,
};
use std::alloc::{AllocError, Global};
use values::Fault;

fn column_of(term: &Term) -> Option<ColumnId>
    ensures { result ≡ spec.column_of term.now }
{
    match term {
        Term::Column(column) => Some(*column),
        Term::Literal(_) => None,
    }
}

/// The column that a condition asks to be Null, if it is such a condition.
fn null_column(condition: &Condition) -> Option<ColumnId>
    ensures { result ≡ spec.null_column condition.now }
{
    match condition {
        Condition::IsNull(term) => column_of(term),
        _ => None,
    }
}

/// Whether a condition asks a column of the class to be Null.
fn asks_null_in(condition: &Condition, classes: ClassColumns<'_>, class: ClassId) -> bool
    ensures { result ≡ spec.asks_null (has (given_columns classes.entry class)) condition.now }
{
    match null_column(condition) {
        Some(column) => classes.has(class, column),
        None => false,
    }
}

/// Whether no row of the class with which the conditions hold has Null in the column.
fn is_filled(
    classes: KnownClasses<'_>,
    condition: &Conjuncts,
    class: ClassId,
    column: ColumnId,
) -> bool
    ensures { result ≡ spec.is_filled (known classes.entry) condition.now class column }
{
    classes.is_not_null(class, column) || never_true(condition.as_slice(), NullColumns::One(column))
}

/// Whether a condition asks such a column to be Null.
fn asks_null_of_filled(
    asked: &Condition,
    classes: KnownClasses<'_>,
    condition: &Conjuncts,
    class: ClassId,
) -> bool
    ensures { result ≡ spec.asks_null (spec.is_filled (known classes.entry) condition.now class) asked.now }
{
    match null_column(asked) {
        Some(column) => is_filled(classes, condition, class, column),
        None => false,
    }
}

/// Whether each of the conditions asks a column of the class to be Null.
fn all_ask_null(asked: &[Condition], classes: ClassColumns<'_>, class: ClassId) -> bool
    ensures { result ≡ list_all (spec.asks_null (has (given_columns classes.entry class))) asked.now }
{
    asked.iter().all(|one| asks_null_in(one, classes, class))
}

/// Whether one of them asks it of a column that isn't Null in any row that is found.
fn one_asks_null(
    asked: &[Condition],
    classes: KnownClasses<'_>,
    condition: &Conjuncts,
    class: ClassId,
) -> bool
    ensures { result ≡ list_any (spec.asks_null (spec.is_filled (known classes.entry) condition.now class)) asked.now }
{
    asked
        .iter()
        .any(|one| asks_null_of_filled(one, classes, condition, class))
}

/// Whether padded rows alone pass.
fn ask_for_pads(
    asked: &[Condition],
    classes: KnownClasses<'_>,
    condition: &Conjuncts,
    class: ClassId,
) -> bool
    ensures { result ≡ spec.ask_for_pads (known classes.entry) asked.now condition.now class }
{
    all_ask_null(asked, classes.columns, class) && one_asks_null(asked, classes, condition, class)
}

/// The projection of the left rows that find none, where no other rows are asked for.
fn unfound(
    alloc: Global,
    at: Match<'_>,
    columns: &Columns,
    conjuncts: &Conjuncts,
    condition: &Conjuncts,
    left: ClassId,
    right: ClassId,
) -> Result<Shape, RuleFault>
    ensures { Gives (λ s. s) result (spec.unfound (known at.entry.classes) columns.now conjuncts.now condition.now left right) }
{
    let (of_left, asked) = conjuncts.split_without(alloc, at.classes.columns, right)?;
    if are_elsewhere(columns.as_slice(), at.classes.columns, right)
        && ask_for_pads(asked.as_slice(), at.classes, condition, right)
    {
        let lists = (condition.copy(alloc)?, Conjuncts::none(alloc));
        let unfound = anti(alloc, lists, Shape::Class(left), Shape::Class(right))?;
        let unfound = selected(alloc, of_left, unfound)?;
        return Ok(keep(alloc, columns.copy(alloc)?, unfound)?);
    }
    Err(Fault::Refused(Unfit::Condition))
}

/// What the rule gives of three expressions.
fn unfound_of(
    alloc: Global,
    at: Match<'_>,
    top: &Expr,
    below: &Expr,
    lowest: &Expr,
) -> Result<Shape, RuleFault>
    ensures { Gives (λ s. s) result (spec.unfound_of (known at.entry.classes) top.now below.now lowest.now) }
{
    match (top, below, lowest) {
        (Expr::Keep(k, _), Expr::Select(c, _), Expr::LeftJoin(d, a, b)) => {
            unfound(alloc, at, k, c, d, *a, *b)
        }
        _ => Err(Fault::Refused(Unfit::Pattern)),
    }
}

/// A projection, without the right side's columns, of an outer join's padded rows takes the left rows that find none.
pub struct OuterJoinIsAnti;

impl Rule for OuterJoinIsAnti {
    const CODE: &'static str = "O7";

    ghost pattern = { spec.pattern };

    ghost gives = { spec.outer_join_is_anti };

    ghost promise = { spec.promise };

    fn pattern() -> Pattern {
        Pattern::Three(
            Operators::Only(Operator::Keep),
            Below::first(Operators::Only(Operator::Select)),
            Below::first(Operators::Only(Operator::LeftJoin)),
        )
    }

    fn apply(alloc: Global, at: Match<'_>) -> Result<Shape, RuleFault> {
        let (top, below, lowest) = at.three_lines_over(Input::First, Input::First)?;
        unfound_of(alloc, at, top, below, lowest)
    }

    fn promise(_alloc: Global, _at: Match<'_>) -> Result<Promise, AllocError> {
        Ok(Promise::Simpler)
    }

    #[tactic(auto, using(crate::proofs::OuterJoinIsAnti::outer_join_is_anti_sound))]
    fn is_sound() {}

    #[tactic(auto, using(crate::proofs::OuterJoinIsAnti::outer_join_is_anti_keeps))]
    fn keeps_to_pattern() {}

    #[tactic(auto, using(crate::proofs::OuterJoinIsAnti::outer_join_is_anti_formed))]
    fn is_formed() {}

    #[tactic(auto, using(crate::proofs::OuterJoinIsAnti::outer_join_is_anti_stable))]
    fn is_stable() {}
}
