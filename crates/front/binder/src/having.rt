//! HAVING: what it names, and what it asks of the row of these.

ghost use Rattle.std.specs.Prelude.{◌≡◌, ◌+◌, Some, [], length, flat_map, map, IfOk, OnOk};
ghost use Rattle.std.specs.List.{sum_by};
ghost use Rattle.values.specs.Faults.{Gives};
ghost use Rattle.binder.specs.Chained.{scopes_of};
ghost use Rattle.binder.specs.HavingShapes as shape;
ghost use Rattle.binder.specs.Havings as spec;

use crate::fault::{BindFault, BindReason, refused};
use crate::output::aggregate_in;
use crate::places::Places;
use crate::scope::{Scopes, meant, place_in_text};
use crate::selects::{are_comparable, kind_of};
use crate::sums::sum;
use query::ids::id_of;
use query::{Column, Cond, Item, Term};
use schema::Kind;
use sql_parse::statement::{AggregateCall, ColumnName, HavingCondition, HavingTerm, Operator};
use std::alloc::{AllocError, Global};
use values::{Boxed, Items};

/// What a HAVING has named so far, in the order of the text.
#[derive(Drop)]
pub struct Asked {
    pub items: Items<Item>,
    /// The number of the next aggregate.
    pub next_aggregate: usize,
}

/// Whether a column is a GROUP BY column of the own FROM.
fn is_key(keys: &Places, column: Column) -> bool
    ensures { result ≡ spec.is_key keys.now column }
{
    column.level == 0 && keys.has(column.place)
}

/// A column joins what is named, and its kind is given.
fn column(
    name: &ColumnName,
    keys: &Places,
    scopes: &Scopes<'_, '_>,
    asked: &mut Asked,
) -> Result<Kind, BindFault>
    ensures { Gives (λ kind. (Some kind, asked.new)) result (spec.column_asked (scopes_of scopes.now) keys.now name.now asked.old) }
{
    let found = meant(name, scopes)?;
    if !is_key(keys, found.column) {
        return Err(refused(BindReason::UngroupedColumn, place_in_text(name)));
    }
    asked.items.push(Item::Column(found.column))?;
    Ok(found.kind)
}

/// An aggregate joins what is named, and its kind is given.
fn aggregate(
    call: &AggregateCall,
    scopes: &Scopes<'_, '_>,
    asked: &mut Asked,
) -> Result<Kind, BindFault>
    ensures { Gives (λ kind. (Some kind, asked.new)) result (spec.aggregate_asked (scopes_of scopes.now) call.now asked.old) }
{
    let (aggregate, kind) = aggregate_in(call, scopes)?;
    let number = id_of(asked.next_aggregate)?;
    let next_aggregate = sum(asked.next_aggregate, 1)?;
    asked.items.push(Item::Aggregate(number, aggregate))?;
    asked.next_aggregate = next_aggregate;
    Ok(kind)
}

/// What a term names joins the others. NULL has either kind.
fn term(
    text: &HavingTerm,
    keys: &Places,
    scopes: &Scopes<'_, '_>,
    asked: &mut Asked,
) -> Result<Option<Kind>, BindFault>
    ensures { Gives (λ kind. (kind, asked.new)) result (spec.term_asked (scopes_of scopes.now) keys.now text.now asked.old) }
{
    match text {
        HavingTerm::Column(name) => Ok(Some(column(name, keys, scopes, asked)?)),
        HavingTerm::Aggregate(call) => Ok(Some(aggregate(call, scopes, asked)?)),
        HavingTerm::Literal(value) => Ok(kind_of(value.value())),
    }
}

/// What a comparison names joins the others; then its kinds are asked for.
fn comparison(
    left: &HavingTerm,
    by: Operator,
    right: &HavingTerm,
    keys: &Places,
    scopes: &Scopes<'_, '_>,
    asked: &mut Asked,
) -> Result<(), BindFault>
    ensures { Gives (λ done. asked.new) result (spec.comparison_asked (scopes_of scopes.now) keys.now left.now by right.now asked.old) }
{
    let left = term(left, keys, scopes, asked)?;
    let right = term(right, keys, scopes, asked)?;
    if !are_comparable(left, right) {
        return Err(refused(BindReason::MixedKinds, by.at));
    }
    Ok(())
}

fn null_test(
    tested: &HavingTerm,
    keys: &Places,
    scopes: &Scopes<'_, '_>,
    asked: &mut Asked,
) -> Result<(), BindFault>
    ensures { Gives (λ done. asked.new) result (spec.null_test_asked (scopes_of scopes.now) keys.now tested.now asked.old) }
{
    let _kind = term(tested, keys, scopes, asked)?;
    Ok(())
}

/// What a condition names joins the others.
#[cycle(named)]
fn condition(
    part: &HavingCondition,
    keys: &Places,
    scopes: &Scopes<'_, '_>,
    asked: &mut Asked,
) -> Result<(), BindFault>
    ensures { Gives (λ done. asked.new) result (spec.condition_asked (scopes_of scopes.now) keys.now part.now asked.old) }
{
    match part {
        HavingCondition::Compare(left, by, right) => {
            comparison(left, *by, right, keys, scopes, asked)
        }
        HavingCondition::IsNull(tested) => null_test(tested, keys, scopes, asked),
        HavingCondition::Not(inner) => condition(inner.get(), keys, scopes, asked),
        HavingCondition::And(parts) => conditions(parts.as_slice(), keys, scopes, asked),
        HavingCondition::Or(parts) => conditions(parts.as_slice(), keys, scopes, asked),
    }
}

#[cycle(named)]
fn conditions(
    parts: &[HavingCondition],
    keys: &Places,
    scopes: &Scopes<'_, '_>,
    asked: &mut Asked,
) -> Result<(), BindFault>
    ensures { Gives (λ done. asked.new) result (spec.all_asked (map (spec.condition_asked (scopes_of scopes.now) keys.now) parts.now) asked.old) }
{
    for part in parts {
        condition(part, keys, scopes, asked)?;
    }
    Ok(())
}

/// What a HAVING names, if there is one. Its aggregates have the next numbers.
pub fn named_values(
    alloc: Global,
    having: &Option<Boxed<HavingCondition>>,
    keys: &Places,
    scopes: &Scopes<'_, '_>,
    next_aggregate: usize,
) -> Result<Asked, BindFault>
    ensures { Gives (λ asked. asked) result (spec.having_asked (scopes_of scopes.now) keys.now having.now (record { items = []; next_aggregate = next_aggregate })) }
{
    let mut asked = Asked {
        items: Items::new(alloc),
        next_aggregate,
    };
    if let Some(part) = having {
        condition(part.get(), keys, scopes, &mut asked)?;
    }
    Ok(asked)
}

/// A term; what it names stands at the place, and the next behind it.
fn placed_term(alloc: Global, text: &HavingTerm, place: &mut usize) -> Result<Term, AllocError>
    ensures term { IfOk result (λ term. term ≡ shape.term_at place.old text.now) }
    ensures place { OnOk result (place.new ≡ place.old + length (shape.named text.now)) }
{
    match text {
        HavingTerm::Column(_) | HavingTerm::Aggregate(_) => {
            let at = *place;
            *place = sum(at, 1)?;
            Ok(Term::Column(Column {
                level: 0,
                place: at,
            }))
        }
        HavingTerm::Literal(value) => Ok(Term::Literal(value.copy(alloc)?)),
    }
}

/// A condition of the row of all that is named; what it names itself stands from the place on.
#[cycle(placed)]
fn placed(alloc: Global, part: &HavingCondition, place: &mut usize) -> Result<Cond, AllocError>
    ensures condition { IfOk result (λ cond. cond ≡ (shape.having_shape part.now).at place.old) }
    ensures place { OnOk result (place.new ≡ place.old + length (shape.having_shape part.now).values) }
{
    match part {
        HavingCondition::Compare(left, by, right) => {
            let left = placed_term(alloc, left, place)?;
            let right = placed_term(alloc, right, place)?;
            Ok(Cond::Compare(by.comparison, left, right))
        }
        HavingCondition::IsNull(tested) => Ok(Cond::IsNull(placed_term(alloc, tested, place)?)),
        HavingCondition::Not(inner) => {
            let inner = placed(alloc, inner.get(), place)?;
            Ok(Cond::Not(Boxed::new(alloc, inner)?))
        }
        HavingCondition::And(parts) => Ok(Cond::And(all_placed(alloc, parts.as_slice(), place)?)),
        HavingCondition::Or(parts) => Ok(Cond::Or(all_placed(alloc, parts.as_slice(), place)?)),
    }
}

#[cycle(placed)]
fn all_placed(
    alloc: Global,
    parts: &[HavingCondition],
    place: &mut usize,
) -> Result<Items<Cond>, AllocError>
    ensures conditions { IfOk result (λ conds. conds ≡ shape.all_at (map shape.having_shape parts.now) place.old) }
    ensures place { OnOk result (place.new ≡ place.old + length (flat_map (λ c. c.values) (map shape.having_shape parts.now))) }
{
    let mut conds = Items::new(alloc);
    for part in parts {
        conds.push(placed(alloc, part, place)?)?;
    }
    Ok(conds)
}

/// What a HAVING becomes, if there is one: a condition of the row of all that it names.
pub fn becomes(
    alloc: Global,
    having: &Option<Boxed<HavingCondition>>,
) -> Result<Option<Boxed<Cond>>, AllocError>
    ensures { IfOk result (λ cond. cond ≡ shape.having_becomes having.now) }
{
    let Some(part) = having else {
        return Ok(None);
    };
    let mut place = 0;
    let cond = placed(alloc, part.get(), &mut place)?;
    Ok(Some(Boxed::new(alloc, cond)?))
}

/// How many comparisons and IS NULL a condition has.
#[cycle(tests)]
fn tests(part: &HavingCondition) -> Result<usize, AllocError>
    ensures { IfOk result (λ count. count ≡ (shape.having_shape part.now).tests) }
{
    match part {
        HavingCondition::Compare(_, _, _) => Ok(1),
        HavingCondition::IsNull(_) => Ok(1),
        HavingCondition::Not(inner) => tests(inner.get()),
        HavingCondition::And(parts) => all_tests(parts.as_slice()),
        HavingCondition::Or(parts) => all_tests(parts.as_slice()),
    }
}

#[cycle(tests)]
fn all_tests(parts: &[HavingCondition]) -> Result<usize, AllocError>
    ensures { IfOk result (λ count. count ≡ sum_by (λ c. c.tests) (map shape.having_shape parts.now)) }
{
    let mut count = 0;
    for part in parts {
        count = sum(count, tests(part)?)?;
    }
    Ok(count)
}

/// How many a HAVING has, if there is one.
pub fn having_tests(having: &Option<Boxed<HavingCondition>>) -> Result<usize, AllocError>
    ensures { IfOk result (λ count. count ≡ shape.having_tests having.now) }
{
    match having {
        Some(part) => tests(part.get()),
        None => Ok(0),
    }
}
