//! What a plan is.

use algebra::{Aggregations, Columns, Conjuncts, LineId};
use query::{ColumnId, InstanceId};
use values::Items;

/// Which rows a join gives. A left row *matches* the right rows with which it makes all conjuncts true.
pub enum Matching {
    /// Each left row with each right row that it matches.
    Inner(Conjuncts),
    /// The same, and the left rows that match none, with Nulls.
    Left(Conjuncts),
    /// The left rows that match some.
    Semi(Conjuncts),
    /// The left rows for which no right row makes all of the first true and none of the second false: `Anti(ordinary, null_aware)`.
    Anti(Conjuncts, Conjuncts),
}

// By hand, so that crates above drop a matching by one call.
impl Drop for Matching {
    fn drop(self) {
        match self {
            Matching::Inner(_) | Matching::Left(_) | Matching::Semi(_) | Matching::Anti(_, _) => {}
        }
    }
}

/// How a join finds the right rows for a left one. What it gives doesn't depend on it.
#[derive(Clone, Copy, PartialEq, Eq)]
pub enum JoinMethod {
    /// It tries them all.
    NestedLoop,
    /// It tries those that have the left row's values in the columns that an equality compares, found by hash.
    Hash,
    /// Both sides stand in the order of a column each, which a conjunct equates: `Merge(left, right)`.
    Merge(ColumnId, ColumnId),
}

/// How a group or a distinct finds the rows that are the same. What it gives doesn't depend on it.
#[derive(Clone, Copy, PartialEq, Eq)]
pub enum GroupMethod {
    Hash,
    /// They stand together.
    Sorted,
}

/// A column by which rows are ordered.
#[derive(Clone, Copy, PartialEq, Eq)]
pub struct OrderKey {
    pub column: ColumnId,
    pub descending: bool,
}

/// A table instance that is read by an index of its table, in place of an input.
#[derive(Clone, Copy)]
pub struct IndexAccess {
    /// The line of the instance's Get.
    pub line: LineId,
    pub instance: InstanceId,
    /// The index's number in the table's entry.
    pub index: u32,
}

/// How an expression's rows are computed from those of the inputs.
pub enum Operator {
    /// The rows of a table instance, in the order of the table.
    Scan {
        instance: InstanceId,
    },
    /// The rows of a table instance that make all conjuncts true, which have no subquery, in the order of the index, those
    /// that tie in the order of the table.
    IndexScan {
        access: IndexAccess,
        conjuncts: Conjuncts,
    },
    /// The input's rows that make all conjuncts true, which have no subquery.
    Filter {
        conjuncts: Conjuncts,
    },
    /// The first input's rows that make all conjuncts true. The other inputs are the classes that the conjuncts name, in
    /// rising order, and are run at each row.
    FilterSubqueries {
        conjuncts: Conjuncts,
    },
    /// The input's rows with these columns alone.
    Projection {
        columns: Columns,
    },
    /// The left rows in order, and for each the right rows in order.
    JoinRows {
        method: JoinMethod,
        matching: Matching,
    },
    /// The same, the right rows being those of a table instance in the order of the table. The index is how they are found.
    IndexJoin {
        access: IndexAccess,
        matching: Matching,
    },
    /// One row for each different key, as first seen, with its aggregates.
    GroupRows {
        method: GroupMethod,
        keys: Columns,
        added: Aggregations,
    },
    /// One of each row, as first seen.
    DistinctRows {
        method: GroupMethod,
    },
}

// By hand, so that crates above drop an operator by one call.
impl Drop for Operator {
    fn drop(self) {
        match self {
            Operator::Scan { instance: _ } => {}
            Operator::IndexScan {
                access: _,
                conjuncts: _,
            } => {}
            Operator::Filter { conjuncts: _ } | Operator::FilterSubqueries { conjuncts: _ } => {}
            Operator::Projection { columns: _ } => {}
            Operator::JoinRows {
                method: _,
                matching: _,
            } => {}
            Operator::IndexJoin {
                access: _,
                matching: _,
            } => {}
            Operator::GroupRows {
                method: _,
                keys: _,
                added: _,
            } => {}
            Operator::DistinctRows { method: _ } => {}
        }
    }
}

/// A node of a plan.
pub enum Node {
    /// An operator that computes the expression of this line of the derivation.
    Implements { line: LineId, operator: Operator },
    /// The enforcer of an order: the input's rows by the keys, those that tie as they stood. It is of its input's class.
    Sort { keys: Items<OrderKey> },
}

// By hand, so that crates above drop a node by one call.
impl Drop for Node {
    fn drop(self) {
        match self {
            Node::Implements {
                line: _,
                operator: _,
            } => {}
            Node::Sort { keys: _ } => {}
        }
    }
}

#[derive(Drop)]
pub struct Plan {
    pub node: Node,
    pub inputs: Items<Plan>,
}
