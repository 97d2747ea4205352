//! Expressions by numbers, so that equal ones are found.

use crate::groups::Groups;
use crate::spelt::{push_class, push_condition};
use algebra::{Aggregation, ClassId, Condition, Expr};
use indexmap::IndexSet;
use query::ids::id_of;
use query::{Aggregate, ColumnId, InstanceId};
use std::alloc::{AllocError, Global};

/// An operator, with what it has beside inputs and conditions.
#[derive(Clone, Copy)]
pub(crate) enum Operator<'a> {
    Get(InstanceId),
    Select,
    Join,
    LeftJoin,
    Semi,
    Anti,
    Keep(&'a [ColumnId]),
    Distinct,
    Group(&'a [ColumnId], &'a [Aggregation]),
}

/// An operator over classes, under conditions.
#[derive(Clone, Copy)]
pub(crate) struct Operation<'a> {
    pub operator: Operator<'a>,
    pub left: Option<ClassId>,
    pub right: Option<ClassId>,
    pub conditions: &'a [Condition],
    /// The second conditions of an antijoin.
    pub null_aware: &'a [Condition],
}

/// An expression by numbers, with the groups of its classes: expressions that are equal up to which classes are the same have equal ones, and only these.
#[derive(PartialEq, Eq, Hash, Drop)]
pub(crate) struct Key {
    numbers: Vec<u32>,
}

/// The numbers of conditions that name classes, by what they are with the groups of these.
pub(crate) struct ConditionNumbers {
    conditions: IndexSet<Key>,
    /// The key that was asked for last: its memory serves the next one.
    lent: Key,
}

// By hand, so that where it is dropped is one call.
impl Drop for ConditionNumbers {
    fn drop(self) {
        let ConditionNumbers {
            conditions: _,
            lent: _,
        } = self;
    }
}

/// Which operator it is.
fn operator_number(operator: Operator<'_>) -> u32 {
    match operator {
        Operator::Get(_) => 0,
        Operator::Select => 1,
        Operator::Join => 2,
        Operator::LeftJoin => 3,
        Operator::Semi => 4,
        Operator::Anti => 5,
        Operator::Keep(_) => 6,
        Operator::Distinct => 7,
        Operator::Group(_, _) => 8,
    }
}

fn operator_of(expr: &Expr) -> Operator<'_> {
    match expr {
        Expr::Get(instance) => Operator::Get(*instance),
        Expr::Select(_, _) => Operator::Select,
        Expr::Join(_, _, _) => Operator::Join,
        Expr::LeftJoin(_, _, _) => Operator::LeftJoin,
        Expr::Semi(_, _, _) => Operator::Semi,
        Expr::Anti(_, _, _, _) => Operator::Anti,
        Expr::Keep(columns, _) => Operator::Keep(columns.as_slice()),
        Expr::Distinct(_) => Operator::Distinct,
        Expr::Group(keys, added, _) => Operator::Group(keys.as_slice(), added.as_slice()),
    }
}

/// What an expression does.
pub(crate) fn operation_of(expr: &Expr) -> Operation<'_> {
    let (left, right) = expr.children();
    let (conditions, null_aware) = expr.conditions();
    Operation {
        operator: operator_of(expr),
        left,
        right,
        conditions,
        null_aware,
    }
}

/// Adds an input, if there is one.
fn push_input(
    numbers: &mut Vec<u32>,
    input: Option<ClassId>,
    groups: &Groups,
) -> Result<(), AllocError> {
    match input {
        Some(class) => push_class(numbers, class, groups),
        None => Ok(()),
    }
}

/// Adds conditions behind their count. They stand in the order of their texts, each once, so that equal lists are spelt alike.
fn push_conditions(
    numbers: &mut Vec<u32>,
    conditions: &[Condition],
    groups: &Groups,
) -> Result<(), AllocError> {
    numbers.push(id_of(conditions.len())?)?;
    for condition in conditions {
        push_condition(numbers, condition, groups)?;
    }
    Ok(())
}

/// Adds a list behind its length.
fn push_list(numbers: &mut Vec<u32>, list: &[u32]) -> Result<(), AllocError> {
    numbers.push(id_of(list.len())?)?;
    numbers.extend_from_slice(list)?;
    Ok(())
}

/// The kind of an aggregate, and the column that it reads.
fn aggregate_numbers(aggregate: Aggregate) -> (u32, u32) {
    match aggregate {
        Aggregate::CountRows => (0, 0),
        Aggregate::Count(column) => (1, column),
        Aggregate::Sum(column) => (2, column),
        Aggregate::Min(column) => (3, column),
        Aggregate::Max(column) => (4, column),
    }
}

fn push_aggregations(numbers: &mut Vec<u32>, added: &[Aggregation]) -> Result<(), AllocError> {
    for aggregation in added {
        let (kind, column) = aggregate_numbers(aggregation.aggregate);
        numbers.push(aggregation.column)?;
        numbers.push(kind)?;
        numbers.push(column)?;
    }
    Ok(())
}

/// Adds what an operator has of its own.
fn push_own(numbers: &mut Vec<u32>, operator: Operator<'_>) -> Result<(), AllocError> {
    match operator {
        Operator::Get(instance) => {
            numbers.push(instance)?;
            Ok(())
        }
        Operator::Keep(columns) => push_list(numbers, columns),
        Operator::Group(keys, added) => {
            push_list(numbers, keys)?;
            push_aggregations(numbers, added)
        }
        Operator::Select
        | Operator::Join
        | Operator::LeftJoin
        | Operator::Semi
        | Operator::Anti
        | Operator::Distinct => Ok(()),
    }
}

impl Operation<'_> {
    /// Whether its conditions name no class.
    fn is_plain(self) -> bool {
        self.conditions
            .iter()
            .all(|condition| condition.has_no_class())
            && self
                .null_aware
                .iter()
                .all(|condition| condition.has_no_class())
    }

    /// Adds what its key begins with.
    fn push_begun(self, numbers: &mut Vec<u32>, groups: &Groups) -> Result<(), AllocError> {
        numbers.push(operator_number(self.operator))?;
        push_input(numbers, self.left, groups)?;
        push_input(numbers, self.right, groups)
    }

    /// Adds its key, where no condition names a class, so that they stand in one order whatever the groups are.
    fn push_key(self, numbers: &mut Vec<u32>, groups: &Groups) -> Result<(), AllocError> {
        self.push_begun(numbers, groups)?;
        push_conditions(numbers, self.conditions, groups)?;
        push_conditions(numbers, self.null_aware, groups)?;
        push_own(numbers, self.operator)
    }

    fn key(self, alloc: Global, groups: &Groups) -> Result<Key, AllocError> {
        let mut numbers = Vec::with_capacity(alloc, 24)?;
        self.push_key(&mut numbers, groups)?;
        Ok(Key { numbers })
    }
}

impl ConditionNumbers {
    pub(crate) fn none(alloc: Global) -> ConditionNumbers {
        ConditionNumbers {
            conditions: IndexSet::new(alloc),
            lent: Key {
                numbers: Vec::new(alloc),
            },
        }
    }

    /// The numbers of conditions with the groups of their classes: rising, each once, since conditions may have become equal, or of another order.
    fn numbers(
        &mut self,
        alloc: Global,
        conditions: &[Condition],
        groups: &Groups,
    ) -> Result<Vec<u32>, AllocError> {
        let mut numbers = Vec::new(alloc);
        for condition in conditions {
            let mut spelt = Vec::new(alloc);
            push_condition(&mut spelt, condition, groups)?;
            let (number, _) = self.conditions.insert_full(Key { numbers: spelt })?;
            numbers.push(id_of(number)?)?;
        }
        numbers.sort_unstable();
        numbers.dedup();
        Ok(numbers)
    }

    /// The key by groups. Most conditions name no class, and then nothing in them is to be renamed.
    pub(crate) fn congruent_key(
        &mut self,
        alloc: Global,
        operation: Operation<'_>,
        groups: &Groups,
    ) -> Result<Key, AllocError> {
        if operation.is_plain() {
            return operation.key(alloc, groups);
        }
        let mut numbers = Vec::with_capacity(alloc, 24)?;
        operation.push_begun(&mut numbers, groups)?;
        let conditions = self.numbers(alloc, operation.conditions, groups)?;
        push_list(&mut numbers, conditions.as_slice())?;
        let null_aware = self.numbers(alloc, operation.null_aware, groups)?;
        push_list(&mut numbers, null_aware.as_slice())?;
        push_own(&mut numbers, operation.operator)?;
        Ok(Key { numbers })
    }

    /// The same key, which is lent until the next one is asked for.
    pub(crate) fn lent_key(
        &mut self,
        alloc: Global,
        operation: Operation<'_>,
        groups: &Groups,
    ) -> Result<&Key, AllocError> {
        if operation.is_plain() {
            self.lent.numbers.clear();
            operation.push_key(&mut self.lent.numbers, groups)?;
        } else {
            self.lent = self.congruent_key(alloc, operation, groups)?;
        }
        Ok(&self.lent)
    }
}
