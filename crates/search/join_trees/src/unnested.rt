//! Unnested subqueries, which are semijoins and antijoins: what the cheapest of these costs beside a filter that runs the subquery for each row.

ghost use Rattle.join_trees.specs.Estimates.{AreOfLog};

use crate::left_joins::probe_of;
use crate::log_estimates::{LogEstimates, mentioned_leaves};
use crate::subqueries::class_cost;
use crate::table_costs::join_inputs;
use algebra::{ClassColumns, ClassId, Condition, Conjuncts, Expr, Term};
use costs::{Estimate, join_cost, with_each};
use physical::JoinMethod;
use query::ColumnId;
use std::alloc::{AllocError, Global};
use values::Comparison;

/// So many classes are looked at for the rows of a subquery: its own, and those below its projections and DISTINCTs.
const MOST_CLASSES: usize = 8;

/// What it costs to evaluate a condition with a subquery.
#[derive(Clone, Copy, Drop)]
pub struct EvaluationCost {
    /// Row by row, at each.
    per_row: u64,
    /// The right side of a hash join, where one serves.
    hash_join: Option<Estimate>,
}

/// What it costs to join so many rows with the right side by hash, beside what they cost themselves.
fn hash_join_cost(rows: u64, right: Estimate) -> u64 {
    join_cost(
        JoinMethod::Hash,
        join_inputs(Estimate { rows, cost: 0 }, right),
    )
}

impl EvaluationCost {
    /// What it costs over so many rows.
    pub fn cost(self, rows: u64) -> u64 {
        let row_by_row = with_each(0, rows, self.per_row);
        match self.hash_join {
            Some(right) => row_by_row.min(hash_join_cost(rows, right)),
            None => row_by_row,
        }
    }

    /// The lesser of this and another cost at each row.
    fn or_per_row(self, cost: u64) -> EvaluationCost {
        EvaluationCost {
            per_row: self.per_row.min(cost),
            ..self
        }
    }

    /// The lesser of this and that of a hash join with this right side.
    fn or_hash_join(self, right: Estimate) -> EvaluationCost {
        let cheaper = match self.hash_join {
            Some(other) if hash_join_cost(0, other) < hash_join_cost(0, right) => other,
            Some(_) | None => right,
        };
        EvaluationCost {
            hash_join: Some(cheaper),
            ..self
        }
    }
}

/// A condition that is EXISTS or IN, or NOT of one: those that rules unnest.
#[derive(Clone, Copy)]
struct SubqueryPredicate<'a> {
    class: ClassId,
    /// Of IN the term and the column that it is compared with.
    compared: Option<(&'a Term, ColumnId)>,
    is_negated: bool,
}

/// The right side of the join that an unnested subquery is, and the conditions of this join.
#[derive(Clone, Copy)]
struct UnnestedSubquery<'a> {
    class: ClassId,
    conditions: &'a [Condition],
}

/// The condition as such a predicate, if it is one.
fn predicate_of(condition: &Condition) -> Option<SubqueryPredicate<'_>> {
    match condition {
        Condition::Exists(class) => Some(SubqueryPredicate {
            class: *class,
            compared: None,
            is_negated: false,
        }),
        Condition::In(term, class, column) => Some(SubqueryPredicate {
            class: *class,
            compared: Some((term, *column)),
            is_negated: false,
        }),
        Condition::Not(part) => match part.get() {
            Condition::Exists(class) => Some(SubqueryPredicate {
                class: *class,
                compared: None,
                is_negated: true,
            }),
            Condition::In(term, class, column) => Some(SubqueryPredicate {
                class: *class,
                compared: Some((term, *column)),
                is_negated: true,
            }),
            _ => None,
        },
        _ => None,
    }
}

/// Adds a class, unless it is there, or there are many.
fn add_class(classes: &mut Vec<ClassId>, class: ClassId) -> Result<(), AllocError> {
    if classes.len() < MOST_CLASSES && !classes.as_slice().contains(&class) {
        classes.push(class)?;
    }
    Ok(())
}

/// The class of a subquery, and those of which its rows are a projection or the distinct ones, as long as these have the column that is compared.
fn unnested_classes(
    alloc: Global,
    estimates: LogEstimates<'_, '_>,
    predicate: SubqueryPredicate<'_>,
) -> Result<Vec<ClassId>, AllocError> {
    let mut classes = Vec::new(alloc);
    classes.push(predicate.class)?;
    for place in 0..MOST_CLASSES {
        let Some(class) = classes.get(place).copied() else {
            break;
        };
        for line in estimates.log.members(alloc, class)? {
            if let Some(member) = estimates.log.member(line) {
                match (member.expr, predicate.compared) {
                    (Expr::Keep(kept, _), Some((_, column))) if !kept.contains(column) => {}
                    (Expr::Keep(_, input), _) | (Expr::Distinct(input), _) => {
                        add_class(&mut classes, *input)?;
                    }
                    _ => {}
                }
            }
        }
    }
    Ok(classes)
}

/// Whether a condition equates a column of the class with one that it doesn't have.
fn equates_across(columns: ClassColumns<'_>, class: ClassId, condition: &Condition) -> bool {
    match condition.equated() {
        Some((a, b)) => columns.has(class, a) != columns.has(class, b),
        None => false,
    }
}

/// The equality of IN, as a condition.
fn equality_of(
    alloc: Global,
    predicate: SubqueryPredicate<'_>,
) -> Result<Option<Condition>, AllocError> {
    match predicate.compared {
        Some((term, column)) => Ok(Some(Condition::Compare(
            Comparison::Equal,
            term.copy(alloc)?,
            Term::Column(column),
        ))),
        None => Ok(None),
    }
}

/// The cost of evaluating a predicate where it may be a join with this right side as well.
fn or_join(
    alloc: Global,
    estimates: LogEstimates<'_, '_>,
    predicate: SubqueryPredicate<'_>,
    right: UnnestedSubquery<'_>,
    evaluation: EvaluationCost,
) -> Result<EvaluationCost, AllocError>
    requires { AreOfLog estimates }
{
    let mut conditions = Vec::new(alloc);
    for condition in right.conditions {
        conditions.push(condition.copy(alloc)?)?;
    }
    if let Some(equality) = equality_of(alloc, predicate)? {
        if !predicate.is_negated || right.conditions.is_empty() {
            conditions.push(equality)?;
        }
    }
    let cost = class_cost(alloc, estimates, right.class)?.unwrap_or(u64::MAX);
    let mut evaluation = evaluation.or_per_row(cost);
    let columns = estimates.log.classes().columns;
    if conditions.iter().any(|condition| equates_across(columns, right.class, condition)) {
        let rows = estimates.cardinalities.rows(right.class);
        evaluation = evaluation.or_hash_join(Estimate { rows, cost });
    }
    let is_null_aware = predicate.is_negated && predicate.compared.is_some();
    if !is_null_aware {
        if let Some(probe) = probe_of(estimates, conditions.as_slice(), right.class) {
            evaluation = evaluation.or_per_row(probe);
        }
    }
    Ok(evaluation)
}

/// Whether the rows of a class are the same at each row of the leaves.
fn is_uncorrelated(
    alloc: Global,
    estimates: LogEstimates<'_, '_>,
    leaves: &[ClassId],
    class: ClassId,
) -> Result<bool, AllocError> {
    Ok(mentioned_leaves(alloc, estimates.log, leaves, &Condition::Exists(class))?.is_empty())
}

/// The cost of evaluating a predicate where it may be a join as well, with a class that has the subquery's rows, or with one of which a selection has them.
fn or_join_with_class(
    alloc: Global,
    estimates: LogEstimates<'_, '_>,
    leaves: &[ClassId],
    predicate: SubqueryPredicate<'_>,
    class: ClassId,
    mut evaluation: EvaluationCost,
) -> Result<EvaluationCost, AllocError>
    requires { AreOfLog estimates }
{
    if is_uncorrelated(alloc, estimates, leaves, class)? {
        let none = Conjuncts::none(alloc);
        let conditions = none.as_slice();
        let right = UnnestedSubquery { class, conditions };
        evaluation = or_join(alloc, estimates, predicate, right, evaluation)?;
    }
    for line in estimates.log.members(alloc, class)? {
        let Some(member) = estimates.log.member(line) else {
            continue;
        };
        if let Expr::Select(conjuncts, input) = member.expr {
            if conjuncts.is_plain() && is_uncorrelated(alloc, estimates, leaves, *input)? {
                let right = UnnestedSubquery {
                    class: *input,
                    conditions: conjuncts.as_slice(),
                };
                evaluation = or_join(alloc, estimates, predicate, right, evaluation)?;
            }
        }
    }
    Ok(evaluation)
}

/// What it costs to evaluate a condition over rows of these leaves, where a filter takes so much for each.
pub fn cost_of_evaluating(
    alloc: Global,
    estimates: LogEstimates<'_, '_>,
    leaves: &[ClassId],
    condition: &Condition,
    per_row: u64,
) -> Result<EvaluationCost, AllocError>
    requires { AreOfLog estimates }
{
    let mut evaluation = EvaluationCost {
        per_row,
        hash_join: None,
    };
    let Some(predicate) = predicate_of(condition) else {
        return Ok(evaluation);
    };
    for class in &unnested_classes(alloc, estimates, predicate)? {
        evaluation = or_join_with_class(alloc, estimates, leaves, predicate, *class, evaluation)?;
    }
    Ok(evaluation)
}
