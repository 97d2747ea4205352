//! The facts that lines give of their classes.

ghost use Rattle.std.specs.Prelude.{◌≡◌, ◌==◌, ◌+◌, ◌++◌, ◌||◌, slice_get, Some};
ghost use Rattle.std.specs.List.{list_any, list_all};
ghost use Rattle.algebra.specs.Columns.{has, is_subset, is_same_set};
ghost use Rattle.props.specs.declared.fact.Fact.TheVariants as fact;
ghost use Rattle.props.specs.Facts.{fact_columns};
ghost use Rattle.props.specs.Given as spec;
ghost use Rattle.props.specs.Knowledge.{known};

use crate::fact::Fact;
use crate::known::KnownClasses;
use crate::outcomes::{NullColumns, never_true};
use crate::single::is_single;
use algebra::{Aggregation, ClassId, Columns, Condition, Expr};
use query::{Aggregate, ColumnId, InstanceId, TableInstance};
use schema::Column;

// ---- sets of columns

/// Whether each column of a list is in a set.
fn is_within(columns: &[ColumnId], set: &Columns) -> bool
    ensures { result ≡ is_subset columns.now set.now }
{
    columns.iter().all(|column| set.contains(*column))
}

fn has_column(columns: &[ColumnId], column: ColumnId) -> bool
    ensures { result ≡ has columns.now column }
{
    columns.iter().any(|own| *own == column)
}

/// Whether each column of a list is in one of two others.
fn is_within_both(columns: &[ColumnId], one: &[ColumnId], other: &[ColumnId]) -> bool
    ensures { result ≡ list_all (λ c. has one.now c || has other.now c) columns.now }
{
    columns.iter().all(|column| has_column(one, *column) || has_column(other, *column))
}

/// Whether a set is the union of two others.
#[tactic(auto, using(crate::proofs::Unions::is_union))]
fn is_union_of(key: &Columns, one: &[ColumnId], other: &[ColumnId]) -> bool
    ensures { result ≡ is_same_set key.now (one.now ++ other.now) }
{
    is_within_both(key.as_slice(), one, other) && is_within(one, key) && is_within(other, key)
}

/// Whether a set is the union of another and one of a list. Of a set that has other columns no list is gone through.
fn is_union_with(one: &[ColumnId], others: &[Vec<ColumnId>], key: &Columns) -> bool
    ensures { result ≡ list_any (λ other. is_same_set key.now (one.now ++ other.items)) others.now }
{
    is_within(one, key)
        && others
            .iter()
            .any(|other| is_union_of(key, one, other.as_slice()))
}

/// Whether a set is the union of a key of the one list and one of the other.
fn is_union(keys: &[Vec<ColumnId>], others: &[Vec<ColumnId>], key: &Columns) -> bool
    ensures { result ≡ list_any (λ one. list_any (λ other. is_same_set key.now (one.items ++ other.items)) others.now) keys.now }
{
    keys.iter()
        .any(|one| is_union_with(one.as_slice(), others, key))
}

/// Whether a set is the union of weak keys of two classes.
fn is_weak_union(classes: KnownClasses<'_>, left: ClassId, right: ClassId, key: &Columns) -> bool
    ensures { result ≡ spec.is_union ((known classes.entry).facts left).weak_keys ((known classes.entry).facts right).weak_keys key.now }
{
    is_union(classes.weak_keys(left), classes.weak_keys(right), key)
}

/// Whether a set is the union of strong keys of two classes.
fn is_strong_union(classes: KnownClasses<'_>, left: ClassId, right: ClassId, key: &Columns) -> bool
    ensures { result ≡ spec.is_union ((known classes.entry).facts left).strong_keys ((known classes.entry).facts right).strong_keys key.now }
{
    is_union(classes.strong_keys(left), classes.strong_keys(right), key)
}

// ---- tables

/// Whether a column that may not be Null stands in the place.
fn is_not_null_at(columns: &[Column], place: usize) -> bool
    ensures { result ≡ spec.is_not_null_at columns.now place }
{
    match columns.get(place) {
        Some(column) => column.not_null,
        None => false,
    }
}

/// Whether the column is that of a place of a table instance.
#[tactic(auto, using(crate::proofs::Places::at_place, crate::proofs::Places::place_at))]
fn is_at_place(table: &TableInstance, place: usize, column: ColumnId) -> bool
    ensures column { result ≡ (column == table.now.first_column + place) }
    ensures place { result ≡ (table.now.first_column + place == column) }
{
    table.first_column <= column && (column - table.first_column) as usize == place
}

fn is_at_one(table: &TableInstance, places: &[usize], column: ColumnId) -> bool
    ensures { result ≡ list_any (λ p. table.now.first_column + p == column) places.now }
{
    places
        .iter()
        .any(|place| is_at_place(table, *place, column))
}

/// Whether the column is that of one of the places of a table instance.
fn is_at(table: &TableInstance, places: &[usize], column: ColumnId) -> bool
    ensures { result ≡ has (spec.at_places table.now places.now) column }
{
    is_at_one(table, places, column)
}

/// Whether the column of a place of a table instance is in the set.
fn has_place(table: &TableInstance, place: usize, set: &Columns) -> bool
    ensures { result ≡ has set.now (table.now.first_column + place) }
{
    set.as_slice()
        .iter()
        .any(|column| is_at_place(table, place, *column))
}

fn has_each_place(table: &TableInstance, places: &[usize], set: &Columns) -> bool
    ensures { result ≡ list_all (λ p. has set.now (table.now.first_column + p)) places.now }
{
    places.iter().all(|place| has_place(table, *place, set))
}

/// Whether the columns of the places of a table instance are in the set.
fn has_all_places(table: &TableInstance, places: &[usize], set: &Columns) -> bool
    ensures { result ≡ is_subset (spec.at_places table.now places.now) set.now }
{
    has_each_place(table, places, set)
}

/// Whether a set is that of the columns of the places.
fn is_list(table: &TableInstance, places: &[usize], set: &Columns) -> bool
    ensures { result ≡ is_same_set set.now (spec.at_places table.now places.now) }
{
    are_at(table, places, set.as_slice()) && has_all_places(table, places, set)
}

fn are_at(table: &TableInstance, places: &[usize], columns: &[ColumnId]) -> bool
    ensures { result ≡ is_subset columns.now (spec.at_places table.now places.now) }
{
    columns.iter().all(|column| is_at(table, places, *column))
}

/// Whether a set is that of a unique list of a table instance.
fn is_unique(table: &TableInstance, set: &Columns) -> bool
    ensures { result ≡ list_any (λ places. is_same_set set.now (spec.at_places table.now places)) table.now.entry.unique }
{
    table
        .entry
        .unique
        .as_slice()
        .iter()
        .any(|places| is_list(table, places.as_slice(), set))
}

/// Whether a table instance has the fact by its entry in the schema.
fn of_table(table: &TableInstance, fact: &Fact) -> bool
    ensures { result ≡ spec.by_table (Some table.now) fact.now }
{
    match fact {
        Fact::NotNull(column) => {
            table.first_column <= *column
                && is_not_null_at(
                    table.entry.columns.as_slice(),
                    (*column - table.first_column) as usize,
                )
        }
        Fact::WeakKey(key) => is_unique(table, key),
        Fact::StrongKey(_) => false,
    }
}

fn by_table(instances: &[TableInstance], instance: InstanceId, fact: &Fact) -> bool
    ensures { result ≡ spec.by_table (slice_get instances.now instance) fact.now }
{
    match instances.get(instance as usize) {
        Some(table) => of_table(table, fact),
        None => false,
    }
}

// ---- operators

/// Whether the conditions wouldn't hold if a column of a class were Null.
fn is_rejected(
    classes: KnownClasses<'_>,
    class: ClassId,
    conditions: &[Condition],
    column: ColumnId,
) -> bool
    ensures { result ≡ spec.is_rejected (known classes.entry) class conditions.now column }
{
    classes.columns.has(class, column) && never_true(conditions, NullColumns::One(column))
}

fn by_select(
    classes: KnownClasses<'_>,
    conditions: &[Condition],
    input: ClassId,
    fact: &Fact,
) -> bool
    ensures { result ≡ spec.by_select (known classes.entry) conditions.now input fact.now }
{
    match fact {
        Fact::NotNull(column) => {
            classes.knows(input, fact) || is_rejected(classes, input, conditions, *column)
        }
        Fact::WeakKey(_) | Fact::StrongKey(_) => classes.knows(input, fact),
    }
}

/// Whether one side has the fact and each of its rows finds one match at most.
fn by_side(
    classes: KnownClasses<'_>,
    conditions: &[Condition],
    side: ClassId,
    other: ClassId,
    fact: &Fact,
) -> bool
    ensures { result ≡ spec.by_side (known classes.entry) conditions.now side other fact.now }
{
    classes.knows(side, fact) && is_single(classes, other, conditions)
}

/// Whether a column of a join is nowhere Null.
fn is_not_null(
    classes: KnownClasses<'_>,
    conditions: &[Condition],
    left: ClassId,
    right: ClassId,
    column: ColumnId,
) -> bool
    ensures { result ≡ spec.by_join (known classes.entry) conditions.now left right (fact.NotNull column) }
{
    classes.is_not_null(left, column)
        || classes.is_not_null(right, column)
        || is_rejected(classes, left, conditions, column)
        || is_rejected(classes, right, conditions, column)
}

fn by_join(
    classes: KnownClasses<'_>,
    conditions: &[Condition],
    left: ClassId,
    right: ClassId,
    fact: &Fact,
) -> bool
    ensures { result ≡ spec.by_join (known classes.entry) conditions.now left right fact.now }
{
    match fact {
        Fact::NotNull(column) => is_not_null(classes, conditions, left, right, *column),
        Fact::WeakKey(key) => {
            by_side(classes, conditions, left, right, fact)
                || by_side(classes, conditions, right, left, fact)
                || is_weak_union(classes, left, right, key)
        }
        Fact::StrongKey(key) => {
            by_side(classes, conditions, left, right, fact)
                || by_side(classes, conditions, right, left, fact)
                || is_strong_union(classes, left, right, key)
        }
    }
}

fn by_left_join(
    classes: KnownClasses<'_>,
    conditions: &[Condition],
    left: ClassId,
    right: ClassId,
    fact: &Fact,
) -> bool
    ensures { result ≡ spec.by_left_join (known classes.entry) conditions.now left right fact.now }
{
    match fact {
        Fact::NotNull(_) => classes.knows(left, fact),
        Fact::WeakKey(key) => {
            by_side(classes, conditions, left, right, fact)
                || is_weak_union(classes, left, right, key)
        }
        Fact::StrongKey(key) => {
            by_side(classes, conditions, left, right, fact)
                || is_strong_union(classes, left, right, key)
        }
    }
}

/// Whether the fact speaks of these columns alone.
fn is_fact_within(fact: &Fact, columns: &Columns) -> bool
    ensures { result ≡ is_subset (fact_columns fact.now) columns.now }
{
    match fact {
        Fact::NotNull(column) => columns.contains(*column),
        Fact::WeakKey(key) | Fact::StrongKey(key) => is_within(key.as_slice(), columns),
    }
}

fn by_distinct(classes: KnownClasses<'_>, input: ClassId, fact: &Fact) -> bool
    ensures { result ≡ spec.by_distinct (known classes.entry) input fact.now }
{
    match fact {
        Fact::NotNull(_) | Fact::WeakKey(_) => classes.knows(input, fact),
        Fact::StrongKey(key) => classes.knows(input, fact) || classes.columns.are(input, key),
    }
}

fn is_count(aggregate: Aggregate) -> bool
    ensures { result ≡ spec.is_count aggregate }
{
    match aggregate {
        Aggregate::CountRows | Aggregate::Count(_) => true,
        Aggregate::Sum(_) | Aggregate::Min(_) | Aggregate::Max(_) => false,
    }
}

/// Whether the column is that of a count.
fn counts(added: &[Aggregation], column: ColumnId) -> bool
    ensures { result ≡ spec.counts added.now column }
{
    let [first, others @ ..] = added else {
        return false;
    };
    if first.column == column {
        is_count(first.aggregate)
    } else {
        counts(others, column)
    }
}

fn by_group(
    classes: KnownClasses<'_>,
    keys: &Columns,
    added: &[Aggregation],
    input: ClassId,
    fact: &Fact,
) -> bool
    ensures { result ≡ spec.by_group (known classes.entry) keys.now added.now input fact.now }
{
    match fact {
        Fact::NotNull(column) => {
            keys.contains(*column) && classes.knows(input, fact) || counts(added, *column)
        }
        Fact::WeakKey(_) => false,
        Fact::StrongKey(key) => {
            is_within(key.as_slice(), keys) && is_within(keys.as_slice(), key)
        }
    }
}

fn by_line(instances: &[TableInstance], classes: KnownClasses<'_>, expr: &Expr, fact: &Fact) -> bool
    ensures { result ≡ spec.by_line instances.now (known classes.entry) expr.now fact.now }
{
    match expr {
        Expr::Get(o) => by_table(instances, *o, fact),
        Expr::Select(c, x) => by_select(classes, c.as_slice(), *x, fact),
        Expr::Join(c, a, b) => by_join(classes, c.as_slice(), *a, *b, fact),
        Expr::LeftJoin(c, a, b) => by_left_join(classes, c.as_slice(), *a, *b, fact),
        Expr::Semi(_, a, _) | Expr::Anti(_, _, a, _) => classes.knows(*a, fact),
        Expr::Keep(k, x) => classes.knows(*x, fact) && is_fact_within(fact, k),
        Expr::Distinct(x) => by_distinct(classes, *x, fact),
        Expr::Group(k, added, x) => by_group(classes, k, added.as_slice(), *x, fact),
    }
}

/// Whether each column of a key is known to be nowhere Null.
fn are_not_null(classes: KnownClasses<'_>, class: ClassId, key: &[ColumnId]) -> bool
    ensures { result ≡ list_all (λ c. spec.is_known (known classes.entry) class (fact.NotNull c)) key.now }
{
    key.iter().all(|column| classes.is_not_null(class, *column))
}

/// Whether the class has the fact by others that are known of it.
fn by_others(classes: KnownClasses<'_>, class: ClassId, fact: &Fact) -> bool
    ensures { result ≡ spec.by_others (known classes.entry) class fact.now }
{
    match fact {
        Fact::NotNull(_) => false,
        Fact::WeakKey(key) => classes.is_strong_key(class, key),
        Fact::StrongKey(key) => {
            classes.is_weak_key(class, key) && are_not_null(classes, class, key.as_slice())
        }
    }
}

/// Whether a line of a class gives a fact of it: by the line's operator, or by other facts that are known of the class.
pub fn gives(
    instances: &[TableInstance],
    classes: KnownClasses<'_>,
    class: ClassId,
    expr: &Expr,
    fact: &Fact,
) -> bool
    ensures { result ≡ spec.gives instances.now (known classes.entry) class expr.now fact.now }
{
    fact.is_short() && (by_others(classes, class, fact) || by_line(instances, classes, expr, fact))
}

/// Each fact that a line gives holds of its class, wherever what is known is true and the database satisfies the schema.
pub fn given_facts_hold()
    ensures { spec.GivenFactsHold }
{}
