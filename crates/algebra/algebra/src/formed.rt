//! When expressions are well formed.

ghost use Rattle.std.specs.Prelude.{◌≡◌, ◌==◌, ◌&&◌, nat_lt, true, length, option_to_list, IfOk};
ghost use Rattle.std.specs.List.{list_all, list_any};
ghost use Rattle.algebra.specs.Conditions as reads;
ghost use Rattle.algebra.specs.Columns.{has, is_subset, columns_at};
ghost use Rattle.algebra.specs.Equality.{same_aggregation};
ghost use Rattle.algebra.specs.ConjunctParts.{has_no_class};
ghost use Rattle.algebra.specs.Expressions as spec;

use crate::columns::{Columns, are_disjoint_from, is_subset_of};
use crate::condition::{ClassId, Condition, Conjuncts, Term};
use crate::expr::{Aggregation, Expr};
use query::{Aggregate, ColumnId, TableInstance};
use std::alloc::{AllocError, Global};

/// Whether the column is one of a table instance.
#[tactic(auto, using(crate::proofs::Sets::range_has))]
fn is_in_table(table: &TableInstance, column: ColumnId) -> bool
    ensures { result ≡ has (spec.instance_columns table.now) column }
{
    table.first_column <= column
        && ((column - table.first_column) as usize) < table.entry.columns.len()
}

/// Whether the column is one of the query's: of a table instance, or of an aggregate of its own.
fn is_query_column(instances: &[TableInstance], own: &[Aggregation], column: ColumnId) -> bool
    ensures { result ≡ spec.is_query_column instances.now own.now column }
{
    is_in_tables(instances, column) || is_added(own, column)
}

/// Whether the column is one of a table instance of the list.
fn is_in_tables(instances: &[TableInstance], column: ColumnId) -> bool
    ensures { result ≡ list_any (λ t. has (spec.instance_columns t) column) instances.now }
{
    instances.iter().any(|t| is_in_table(t, column))
}

/// Whether the column is that of an aggregate of the list.
fn is_added(added: &[Aggregation], column: ColumnId) -> bool
    ensures { result ≡ list_any (λ a. a.column == column) added.now }
{
    added.iter().any(|a| a.column == column)
}

/// Whether the column of a term, if it has one, is one of the query's.
fn term_names_own(term: &Term, instances: &[TableInstance], own: &[Aggregation]) -> bool
    ensures { result ≡ reads.term_passes (spec.is_query_column instances.now own.now) term.now }
{
    match term {
        Term::Column(k) => is_query_column(instances, own, *k),
        Term::Literal(_) => true,
    }
}

/// Whether each column that a condition names is one of the query's.
#[cycle(own)]
#[tactic(auto, using(crate::proofs::Equations::all_columns_and, crate::proofs::Equations::all_columns_or), unfolding(crate::specs::Conditions::all_columns))]
fn names_own(condition: &Condition, instances: &[TableInstance], own: &[Aggregation]) -> bool
    ensures { result ≡ reads.all_columns condition.now (spec.is_query_column instances.now own.now) }
{
    match condition {
        Condition::Compare(_, a, b) => term_names_own(a, instances, own)
            && term_names_own(b, instances, own),
        Condition::IsNull(a) => term_names_own(a, instances, own),
        Condition::Not(c) => names_own(c.get(), instances, own),
        Condition::And(a, b, cs) => {
            let first = names_own(a.get(), instances, own);
            let second = names_own(b.get(), instances, own);
            let more = all_name_own(cs.as_slice(), instances, own);
            first && (second && more)
        }
        Condition::Or(a, b, cs) => {
            let first = names_own(a.get(), instances, own);
            let second = names_own(b.get(), instances, own);
            let more = all_name_own(cs.as_slice(), instances, own);
            first && (second && more)
        }
        Condition::Exists(_) => true,
        Condition::In(a, _, k) => term_names_own(a, instances, own)
            && is_query_column(instances, own, *k),
    }
}

#[cycle(own)]
fn all_name_own(conditions: &[Condition], instances: &[TableInstance], own: &[Aggregation]) -> bool
    ensures { result ≡ spec.names_own instances.now own.now conditions.now }
{
    for condition in conditions {
        if !names_own(condition, instances, own) {
            return false;
        }
    }
    true
}

/// Whether each class that a condition names is below the bound.
#[cycle(classes)]
#[tactic(auto, using(crate::proofs::Equations::all_classes_and, crate::proofs::Equations::all_classes_or), unfolding(crate::specs::Conditions::all_classes))]
fn names_below(condition: &Condition, bound: usize) -> bool
    ensures { result ≡ reads.all_classes condition.now (λ g. nat_lt g bound) }
{
    match condition {
        Condition::Compare(_, _, _) => true,
        Condition::IsNull(_) => true,
        Condition::Not(c) => names_below(c.get(), bound),
        Condition::And(a, b, cs) => {
            let first = names_below(a.get(), bound);
            let second = names_below(b.get(), bound);
            let more = all_name_below(cs.as_slice(), bound);
            first && (second && more)
        }
        Condition::Or(a, b, cs) => {
            let first = names_below(a.get(), bound);
            let second = names_below(b.get(), bound);
            let more = all_name_below(cs.as_slice(), bound);
            first && (second && more)
        }
        Condition::Exists(g) => (*g as usize) < bound,
        Condition::In(_, g, _) => (*g as usize) < bound,
    }
}

#[cycle(classes)]
fn all_name_below(conditions: &[Condition], bound: usize) -> bool
    ensures { result ≡ spec.subqueries_pass (λ g. nat_lt g bound) conditions.now }
{
    for condition in conditions {
        if !names_below(condition, bound) {
            return false;
        }
    }
    true
}

/// Whether the class, if there is one, is below the bound.
fn is_below(class: Option<ClassId>, bound: usize) -> bool
    ensures { result ≡ list_all (λ g. nat_lt g bound) (option_to_list class) }
{
    match class {
        Some(x) => (x as usize) < bound,
        None => true,
    }
}

impl Expr {
    /// Whether each class that the expression names is below the bound.
    pub fn names_below(&self, bound: usize) -> bool
        ensures { result ≡ spec.classes_pass (λ g. nat_lt g bound) self.now }
    {
        let (left, right) = self.children();
        let (first, second) = self.conditions();
        is_below(left, bound)
            && is_below(right, bound)
            && all_name_below(first, bound)
            && all_name_below(second, bound)
    }

    /// Whether the expression is well formed, in a query with these table instances and aggregates. The columns are
    /// those of the classes, by their numbers.
    pub fn is_formed(
        &self,
        instances: &[TableInstance],
        own: &[Aggregation],
        columns: &[Columns],
    ) -> bool
        requires { spec.classes_pass (λ g. nat_lt g (length columns.now)) self.now ≡ true }
        ensures { result ≡ spec.is_formed instances.now own.now (columns_at columns.now) self.now }
    {
        let (first, second) = self.conditions();
        all_name_own(first, instances, own)
            && all_name_own(second, instances, own)
            && self.operator_formed(instances, own, columns)
    }

    /// Whether the expression is as its operator asks.
    fn operator_formed(
        &self,
        instances: &[TableInstance],
        own: &[Aggregation],
        columns: &[Columns],
    ) -> bool
        requires { spec.classes_pass (λ g. nat_lt g (length columns.now)) self.now ≡ true }
        ensures { result ≡ spec.operator_formed instances.now own.now (columns_at columns.now) self.now }
    {
        match self {
            Expr::Get(o) => (*o as usize) < instances.len(),
            Expr::Select(_, _) | Expr::Distinct(_) => true,
            Expr::Join(c, a, b) | Expr::LeftJoin(c, a, b) | Expr::Semi(c, a, b) => {
                c.is_plain()
                    && are_disjoint_from(columns[*a as usize].as_slice(), &columns[*b as usize])
            }
            Expr::Anti(ordinary, null_aware, a, b) => {
                ordinary.is_plain()
                    && null_aware.is_plain()
                    && are_disjoint_from(columns[*a as usize].as_slice(), &columns[*b as usize])
            }
            Expr::Keep(k, x) => is_subset_of(k.as_slice(), &columns[*x as usize]),
            Expr::Group(k, added, x) => {
                is_subset_of(k.as_slice(), &columns[*x as usize])
                    && aggregations_formed(added.as_slice(), &columns[*x as usize], own)
            }
        }
    }

    /// The columns of the expression, over classes with these columns.
    pub fn columns(
        &self,
        alloc: Global,
        instances: &[TableInstance],
        columns: &[Columns],
    ) -> Result<Columns, AllocError>
        requires { spec.classes_pass (λ g. nat_lt g (length columns.now)) self.now ≡ true }
        ensures { IfOk result (λ c. c ≡ spec.columns_of instances.now (columns_at columns.now) self.now) }
    {
        match self {
            Expr::Get(o) => Columns::of_instance(alloc, instances, *o),
            Expr::Join(_, a, b) | Expr::LeftJoin(_, a, b) => columns[*a as usize].union(
                alloc,
                &columns[*b as usize],
            ),
            Expr::Select(_, x) | Expr::Semi(_, x, _) | Expr::Anti(_, _, x, _) | Expr::Distinct(x) =>
                columns[*x as usize].copy(alloc),
            Expr::Keep(k, _) => k.copy(alloc),
            Expr::Group(k, added, _) => Columns::of_groups(alloc, k, added.as_slice()),
        }
    }
}

impl Condition {
    /// Whether the condition has no subquery.
    #[tactic(auto, using(crate::proofs::Equations::plain_condition))]
    pub fn has_no_class(&self) -> bool
        ensures { result ≡ has_no_class self.now }
    {
        names_below(self, 0)
    }
}

impl Conjuncts {
    /// Whether the conditions have no subquery.
    #[tactic(auto, using(crate::proofs::Equations::plain_below))]
    pub fn is_plain(&self) -> bool
        ensures { result ≡ spec.is_plain self.now }
    {
        all_name_below(self.as_slice(), 0)
    }
}

/// Whether the column that an aggregate reads, if it reads one, is in the set.
fn reads_within(aggregate: Aggregate, columns: &Columns) -> bool
    ensures { result ≡ is_subset (spec.aggregate_reads aggregate) columns.now }
{
    match aggregate {
        Aggregate::CountRows => true,
        Aggregate::Count(k) | Aggregate::Sum(k) | Aggregate::Min(k) | Aggregate::Max(k) => {
            columns.contains(k)
        }
    }
}

/// Whether the aggregate is in the list.
fn is_among(aggregation: Aggregation, own: &[Aggregation]) -> bool
    ensures { result ≡ list_any (λ b. same_aggregation aggregation b) own.now }
{
    own.iter().any(|b| aggregation.same(*b))
}

/// Whether the aggregate is one of the query's own, reads the columns, and is none of them.
fn aggregation_formed(aggregation: Aggregation, columns: &Columns, own: &[Aggregation]) -> bool
    ensures { result ≡ spec.aggregation_formed own.now columns.now aggregation }
{
    is_among(aggregation, own)
        && reads_within(aggregation.aggregate, columns)
        && !columns.contains(aggregation.column)
}

/// Whether no two aggregates have one column.
fn are_different(added: &[Aggregation]) -> bool
    ensures { result ≡ spec.are_different (spec.aggregate_columns added.now) }
{
    for i in 0..added.len() {
        let a = added[i];
        if is_added(&added[i + 1..], a.column) {
            return false;
        }
    }
    true
}

/// Whether the aggregates of a group are well formed, and their columns differ.
fn aggregations_formed(added: &[Aggregation], columns: &Columns, own: &[Aggregation]) -> bool
    ensures { result ≡ (spec.are_different (spec.aggregate_columns added.now) && list_all (spec.aggregation_formed own.now columns.now) added.now) }
{
    are_different(added) && each_formed(added, columns, own)
}

fn each_formed(added: &[Aggregation], columns: &Columns, own: &[Aggregation]) -> bool
    ensures { result ≡ list_all (spec.aggregation_formed own.now columns.now) added.now }
{
    added.iter().all(|a| aggregation_formed(*a, columns, own))
}
