//! The truth of conditions.

ghost use Rattle.std.specs.Prelude.{◌≡◌, fold, map, not, IfSome};
ghost use Rattle.values.specs.Cells.{value_of};
ghost use Rattle.values.specs.declared.truth.Comparison.TheVariants as by;
ghost use Rattle.values.specs.declared.value.Value.{Value};
ghost use Rattle.values.specs.Truth as logic;
ghost use Rattle.query.specs.Meaning.{any_of};
ghost use Rattle.algebra.specs.Bags as bags;
ghost use Rattle.algebra.specs.Conditions as spec;
ghost use Rattle.physical.specs.Outputs.{no_classes};
ghost use Rattle.relations.specs.Relations.{env_of, given, numbered_env, rows_given, rows_of};
ghost use Rattle.relations.specs.Subqueries.{subqueries_given};
ghost use Rattle.relations.specs.ValueLists.{AreListed, among, values_in};

use crate::environment::Env;
use crate::relation::Relation;
use crate::subqueries::Subqueries;
use crate::terms::{compare_terms, is_null};
use crate::value_lists::ValueList;
use algebra::{ClassId, Condition, Term};
use query::ColumnId;
use values::{Cell, Comparison, Truth, compare};

/// The rows of a class; none where it is not among the classes.
fn relation_of<'a, 't>(
    classes: &[ClassId],
    relations: &'a [Relation<'t>],
    class: ClassId,
) -> Option<&'a Relation<'t>>
    ensures { (e : bags.Env) → rows_given result e ≡ given classes.now relations.entry.now class e }
{
    let [first, classes @ ..] = classes else {
        return None;
    };
    let [relation, relations @ ..] = relations else {
        return None;
    };
    if *first == class {
        Some(relation)
    } else {
        relation_of(classes, relations, class)
    }
}

/// The list of the values that the rows of a class have in a column; nothing where there is none.
fn list_of<'a, 't>(
    classes: &[ClassId],
    relations: &[Relation<'t>],
    lists: &'a [Option<ValueList<'t>>],
    class: ClassId,
    column: ColumnId,
) -> Option<&'a ValueList<'t>>
    requires { AreListed relations.now lists.now }
    ensures { (e : bags.Env) (v : Value) → IfSome result (λ list. any_of (map (λ s. logic.compare by.Equal v (s column)) (given classes.now relations.now class e)) ≡ among v (values_in list.now)) }
{
    let [first, classes @ ..] = classes else {
        return None;
    };
    let [_, relations @ ..] = relations else {
        return None;
    };
    let [list, lists @ ..] = lists else {
        return None;
    };
    if *first != class {
        return list_of(classes, relations, lists, class, column);
    }
    match list {
        Some(list) if list.column == column => Some(list),
        _ => None,
    }
}

impl<'a, 't> Subqueries<'a, 't> {
    /// No class has a row.
    pub fn none() -> Subqueries<'a, 't>
        ensures { subqueries_given result ≡ no_classes }
    {
        Subqueries {
            classes: &[],
            relations: &[],
            lists: &[],
        }
    }

    /// Whether the class has a row.
    fn has_row(self, class: ClassId) -> bool
        ensures { (e : bags.Env) → result ≡ not (spec.is_empty (subqueries_given self.entry class e)) }
    {
        match relation_of(self.classes, self.relations, class) {
            Some(relation) => relation.rows.count > 0,
            None => false,
        }
    }

    /// Whether a term is among the values of a column of the class.
    fn has_term(self, term: &Term, class: ClassId, column: ColumnId, env: &Env<'_, '_>) -> Truth
        ensures { result ≡ any_of (map (λ s. logic.compare by.Equal (spec.term_value term.now (env_of env.now)) (s column)) (subqueries_given self.entry class (env_of env.now))) }
    {
        match term {
            Term::Column(of) => self.is_among(env.column(*of), class, column, env),
            Term::Literal(value) => self.is_among(value.as_cell(), class, column, env),
        }
    }

    /// Whether a value is among those of a column of the class.
    fn is_among(self, cell: Cell<'_>, class: ClassId, column: ColumnId, env: &Env<'_, '_>) -> Truth
        ensures { result ≡ any_of (map (λ s. logic.compare by.Equal (value_of cell.entry) (s column)) (subqueries_given self.entry class (env_of env.now))) }
    {
        if let Some(list) = list_of(self.classes, self.relations, self.lists, class, column) {
            return list.has(cell);
        }
        match relation_of(self.classes, self.relations, class) {
            Some(relation) => equals_some(cell, relation, column, env),
            None => Truth::False,
        }
    }
}

/// Whether a value equals that of the column in the row with a number.
fn equals_at(
    cell: Cell<'_>,
    relation: &Relation<'_>,
    number: usize,
    column: ColumnId,
    env: &Env<'_, '_>,
) -> Truth
    ensures { result ≡ logic.compare by.Equal (value_of cell.entry) (numbered_env relation.now (env_of env.now) number column) }
{
    match relation.heading.place_of(column) {
        Some(place) => compare(Comparison::Equal, cell, relation.rows.cell(number, place)),
        None => compare(Comparison::Equal, cell, env.column(column)),
    }
}

/// Whether a value equals that of the column in some of the rows; the first that it equals settles it.
fn equals_some(
    cell: Cell<'_>,
    relation: &Relation<'_>,
    column: ColumnId,
    env: &Env<'_, '_>,
) -> Truth
    ensures { result ≡ any_of (map (λ s. logic.compare by.Equal (value_of cell.entry) (s column)) (rows_of relation.now (env_of env.now))) }
{
    let mut any = Truth::False;
    for number in 0..relation.rows.count {
        let here = equals_at(cell, relation, number, column, env);
        if here.is_true() {
            return Truth::True;
        }
        any = any.or(here);
    }
    any
}

/// The truth of a condition.
#[cycle(truth)]
pub fn truth(condition: &Condition, subqueries: Subqueries<'_, '_>, env: &Env<'_, '_>) -> Truth
    ensures { result ≡ spec.truth condition.now (subqueries_given subqueries.entry) (env_of env.now) }
{
    match condition {
        Condition::Compare(comparison, a, b) => { compare_terms(*comparison, a, b, env) }
        Condition::IsNull(term) => Truth::from(is_null(term, env)),
        Condition::Not(part) => truth(part.get(), subqueries, env).not(),
        Condition::And(a, b, more) => {
            let first = truth(a.get(), subqueries, env);
            let second = truth(b.get(), subqueries, env);
            all(first.and(second), more.as_slice(), subqueries, env)
        }
        Condition::Or(a, b, more) => {
            let first = truth(a.get(), subqueries, env);
            let second = truth(b.get(), subqueries, env);
            any(first.or(second), more.as_slice(), subqueries, env)
        }
        Condition::Exists(class) => Truth::from(subqueries.has_row(*class)),
        Condition::In(term, class, column) => { subqueries.has_term(term, *class, *column, env) }
    }
}

/// The AND of a truth and those of conditions.
#[cycle(truth)]
fn all(
    first: Truth,
    conditions: &[Condition],
    subqueries: Subqueries<'_, '_>,
    env: &Env<'_, '_>,
) -> Truth
    ensures { result ≡ fold logic.conjunction first (map (λ c. spec.truth c (subqueries_given subqueries.entry) (env_of env.now)) conditions.now) }
{
    let mut all = first;
    for condition in conditions {
        all = all.and(truth(condition, subqueries, env));
    }
    all
}

/// The OR of a truth and those of conditions.
#[cycle(truth)]
fn any(
    first: Truth,
    conditions: &[Condition],
    subqueries: Subqueries<'_, '_>,
    env: &Env<'_, '_>,
) -> Truth
    ensures { result ≡ fold logic.disjunction first (map (λ c. spec.truth c (subqueries_given subqueries.entry) (env_of env.now)) conditions.now) }
{
    let mut any = first;
    for condition in conditions {
        any = any.or(truth(condition, subqueries, env));
    }
    any
}

/// Whether all conditions are true.
pub fn holds(conditions: &[Condition], subqueries: Subqueries<'_, '_>, env: &Env<'_, '_>) -> bool
    ensures { result ≡ spec.holds (subqueries_given subqueries.entry) conditions.now (env_of env.now) }
{
    for condition in conditions {
        if !truth(condition, subqueries, env).is_true() {
            return false;
        }
    }
    true
}
