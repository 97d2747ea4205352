//! SELECTs, their FROMs and their conditions, which hold one another.

ghost use Rattle.std.specs.Prelude.{◌≡◌, ◌∷◌, map, option_map, IfOk};
ghost use Rattle.values.specs.Faults.{Gives};
ghost use Rattle.binder.specs.Kinds as kinds;
ghost use Rattle.binder.specs.Selects as spec;
ghost use Rattle.binder.specs.Chained.{scopes_of};

use crate::fault::{BindFault, BindReason, refused};
use crate::having::{becomes, named_values};
use crate::output::{Grouping, Output, aggregates, is_grouped, keys, outputs};
use crate::scope::{Scope, Scopes, meant};
use crate::tables::{Numbered, enter};
use query::{Block, Cond, From, Item, TableReference, Term};
use schema::{Kind, Schema};
use sql_parse::statement as tree;
use sql_parse::statement::{Chain, Condition, Join, JoinKind, Select};
use std::alloc::{AllocError, Global};
use values::{Boxed, Items, Value};

/// A term, and its kind; NULL has either.
#[derive(Drop)]
pub struct BoundTerm {
    pub term: Term,
    pub kind: Option<Kind>,
}

/// A SELECT: its block, what it shows, and the tables of its FROM.
#[derive(Drop)]
pub struct BoundSelect<'s> {
    pub block: Boxed<Block>,
    pub outputs: Items<Output>,
    pub scope: Scope<'s>,
}

/// The kind of a literal; NULL has either.
pub fn kind_of(literal: &Value) -> Option<Kind>
    ensures { result ≡ kinds.kind_of literal.now }
{
    match literal {
        Value::Null => None,
        Value::Int(_) => Some(Kind::Int),
        Value::Text(_) => Some(Kind::Text),
    }
}

fn term(alloc: Global, text: &tree::Term, scopes: &Scopes<'_, '_>) -> Result<BoundTerm, BindFault>
    ensures { Gives (λ bound. bound) result (spec.term_in (scopes_of scopes.now) text.now) }
{
    match text {
        tree::Term::Column(name) => {
            let found = meant(name, scopes)?;
            Ok(BoundTerm {
                term: Term::Column(found.column),
                kind: Some(found.kind),
            })
        }
        tree::Term::Literal(value) => Ok(BoundTerm {
            term: Term::Literal(value.copy(alloc)?),
            kind: kind_of(value.value()),
        }),
    }
}

/// Whether two kinds may be compared.
pub fn are_comparable(a: Option<Kind>, b: Option<Kind>) -> bool
    ensures { result ≡ kinds.are_comparable a b }
{
    match (a, b) {
        (Some(a), Some(b)) => a == b,
        _ => true,
    }
}

fn comparison(
    alloc: Global,
    left: &tree::Term,
    by: tree::Operator,
    right: &tree::Term,
    scopes: &Scopes<'_, '_>,
) -> Result<Cond, BindFault>
    ensures { Gives (λ bound. bound) result (spec.comparison_in (scopes_of scopes.now) left.now by right.now) }
{
    let left = term(alloc, left, scopes)?;
    let right = term(alloc, right, scopes)?;
    if !are_comparable(left.kind, right.kind) {
        return Err(refused(BindReason::MixedKinds, by.at));
    }
    Ok(Cond::Compare(by.comparison, left.term, right.term))
}

/// `left IN query`
fn membership(left: BoundTerm, at: usize, query: BoundSelect<'_>) -> Result<Cond, BindFault>
    ensures { Gives (λ bound. bound) result (spec.membership_in left at query.entry) }
{
    let [output] = query.outputs.as_slice() else {
        return Err(refused(BindReason::NotOneColumn, at));
    };
    if !are_comparable(left.kind, Some(output.kind)) {
        return Err(refused(BindReason::MixedKinds, at));
    }
    Ok(Cond::In(left.term, query.block))
}

#[cycle(selects)]
fn condition<'s>(
    alloc: Global,
    schema: &'s Schema,
    part: &'s Condition,
    scopes: &Scopes<'_, 's>,
    numbered: &mut Numbered,
) -> Result<Cond, BindFault>
    ensures { Gives (λ bound. (bound, numbered.new)) result (spec.condition_in schema.now part.now (scopes_of scopes.now) numbered.old) }
{
    match part {
        Condition::Compare(left, by, right) => comparison(alloc, left, *by, right, scopes),
        Condition::IsNull(tested) => Ok(Cond::IsNull(term(alloc, tested, scopes)?.term)),
        Condition::Not(inner) => {
            let inner = condition(alloc, schema, inner.get(), scopes, numbered)?;
            Ok(Cond::Not(Boxed::new(alloc, inner)?))
        }
        Condition::And(parts) => {
            let parts = conditions(alloc, schema, parts.as_slice(), scopes, numbered)?;
            Ok(Cond::And(parts))
        }
        Condition::Or(parts) => {
            let parts = conditions(alloc, schema, parts.as_slice(), scopes, numbered)?;
            Ok(Cond::Or(parts))
        }
        Condition::Exists(query) => {
            let query = select(alloc, schema, query.get(), scopes, numbered)?;
            Ok(Cond::Exists(query.block))
        }
        Condition::In(tested, at, query) => {
            let left = term(alloc, tested, scopes)?;
            let query = select(alloc, schema, query.get(), scopes, numbered)?;
            membership(left, *at, query)
        }
    }
}

#[cycle(selects)]
fn conditions<'s>(
    alloc: Global,
    schema: &'s Schema,
    parts: &'s [Condition],
    scopes: &Scopes<'_, 's>,
    numbered: &mut Numbered,
) -> Result<Items<Cond>, BindFault>
    ensures { Gives (λ bound. (bound, numbered.new)) result (spec.all_in (map (spec.condition_in schema.now) parts.now) (scopes_of scopes.now) numbered.old) }
{
    let mut bound = Items::new(alloc);
    for part in parts {
        bound.push(condition(alloc, schema, part, scopes, numbered)?)?;
    }
    Ok(bound)
}

#[cycle(selects)]
fn filter<'s>(
    alloc: Global,
    schema: &'s Schema,
    part: &'s Option<Boxed<Condition>>,
    scopes: &Scopes<'_, 's>,
    numbered: &mut Numbered,
) -> Result<Option<Boxed<Cond>>, BindFault>
    ensures { Gives (λ bound. (bound, numbered.new)) result (spec.filter_in (option_map (spec.condition_in schema.now) part.now) (scopes_of scopes.now) numbered.old) }
{
    let Some(part) = part else {
        return Ok(None);
    };
    let bound = condition(alloc, schema, part.get(), scopes, numbered)?;
    Ok(Some(Boxed::new(alloc, bound)?))
}

fn joined(
    alloc: Global,
    kind: JoinKind,
    left: Boxed<From>,
    right: TableReference,
    on: Cond,
) -> Result<Boxed<From>, AllocError>
    ensures { IfOk result (λ from. from ≡ spec.joined kind left right on) }
{
    let on = Boxed::new(alloc, on)?;
    match kind {
        JoinKind::Inner => Boxed::new(alloc, From::Join(left, right, on)),
        JoinKind::Left => Boxed::new(alloc, From::LeftJoin(left, right, on)),
    }
}

/// `left JOIN table ON condition`, whose table joins those of its chain.
#[cycle(selects)]
fn join<'s>(
    alloc: Global,
    schema: &'s Schema,
    part: &'s Join,
    outer: &Scopes<'_, 's>,
    before: &Scope<'s>,
    left: (Boxed<From>, Scope<'s>),
    numbered: &mut Numbered,
) -> Result<(Boxed<From>, Scope<'s>), BindFault>
    ensures { Gives (λ x. (x.0, x.1, numbered.new)) result (spec.join_in schema.entry.now part.entry.now (scopes_of outer.now) before.now (left.entry.0, left.entry.1, numbered.old)) }
{
    let (left, chain) = left;
    let (right, chain) = enter(alloc, schema, before, chain, &part.table, numbered)?;
    let inner = Scopes::Inner(&chain, outer);
    let on = condition(alloc, schema, part.condition.get(), &inner, numbered)?;
    Ok((joined(alloc, part.kind, left, right, on)?, chain))
}

/// Joins from the left.
#[cycle(selects)]
fn joins<'s>(
    alloc: Global,
    schema: &'s Schema,
    parts: &'s [Join],
    outer: &Scopes<'_, 's>,
    before: &Scope<'s>,
    first: (Boxed<From>, Scope<'s>),
    numbered: &mut Numbered,
) -> Result<(Boxed<From>, Scope<'s>), BindFault>
    ensures { Gives (λ x. (x.0, x.1, numbered.new)) result (spec.through (map (spec.join_in schema.entry.now) parts.entry.now) (scopes_of outer.now) before.now (first.entry.0, first.entry.1, numbered.old)) }
{
    let mut left = first;
    for part in parts {
        left = join(alloc, schema, part, outer, before, left, numbered)?;
    }
    Ok(left)
}

/// A chain of joins, and its tables.
#[cycle(selects)]
fn chain<'s>(
    alloc: Global,
    schema: &'s Schema,
    part: &'s Chain,
    outer: &Scopes<'_, 's>,
    before: &Scope<'s>,
    numbered: &mut Numbered,
) -> Result<(Boxed<From>, Scope<'s>), BindFault>
    ensures { Gives (λ x. (x.0, x.1, numbered.new)) result (spec.chain_in schema.entry.now part.entry.now (scopes_of outer.now) before.now numbered.old) }
{
    let none = Scope::new(alloc);
    let (first, scope) = enter(alloc, schema, before, none, &part.table, numbered)?;
    let first = (Boxed::new(alloc, From::Table(first))?, scope);
    joins(
        alloc,
        schema,
        part.joins.as_slice(),
        outer,
        before,
        first,
        numbered,
    )
}

/// A FROM, its chains from the left, and its tables. No text has one without a table.
#[cycle(selects)]
fn sources<'s>(
    alloc: Global,
    schema: &'s Schema,
    parts: &'s [Chain],
    outer: &Scopes<'_, 's>,
    numbered: &mut Numbered,
) -> Result<(Boxed<From>, Scope<'s>), BindFault>
    ensures { Gives (λ x. (x.0, x.1, numbered.new)) result (spec.from_in (map (spec.chain_in schema.entry.now) parts.entry.now) (scopes_of outer.now) numbered.old) }
{
    let [first, others @ ..] = parts else {
        return Err(refused(BindReason::UnknownTable, 0));
    };
    let (mut left, mut scope) = {
        let none = Scope::new(alloc);
        chain(alloc, schema, first, outer, &none, numbered)?
    };
    for part in others {
        let (right, tables) = chain(alloc, schema, part, outer, &scope, numbered)?;
        left = Boxed::new(alloc, From::Comma(left, right))?;
        scope = scope.append(&tables)?;
    }
    Ok((left, scope))
}

fn items(alloc: Global, outputs: &[Output]) -> Result<Items<Item>, AllocError>
    ensures { IfOk result (λ items. items ≡ map (λ o. o.item) outputs.now) }
{
    let mut items = Items::new(alloc);
    for output in outputs {
        items.push(output.item)?;
    }
    Ok(items)
}

/// A SELECT. The aggregates that it shows are numbered before all others in it.
#[cycle(selects)]
pub fn select<'s>(
    alloc: Global,
    schema: &'s Schema,
    part: &'s Select,
    outer: &Scopes<'_, 's>,
    numbered: &mut Numbered,
) -> Result<BoundSelect<'s>, BindFault>
    ensures { Gives (λ bound. (bound, numbered.new)) result (spec.select_in schema.entry.now part.entry.now (scopes_of outer.now) numbered.old) }
{
    let first_number = numbered.next_aggregate;
    let own_aggregates = aggregates(&part.list);
    numbered.push_aggregates(own_aggregates)?;
    let (from, scope) = sources(alloc, schema, part.from.as_slice(), outer, numbered)?;
    let scopes = Scopes::Inner(&scope, outer);
    let filter = filter(alloc, schema, &part.filter, &scopes, numbered)?;
    let keys = keys(alloc, part.group.as_slice(), &scopes)?;
    let asked = named_values(alloc, &part.having, &keys, &scopes, numbered.next_aggregate)?;
    numbered.next_aggregate = asked.next_aggregate;
    let grouped = is_grouped(keys.len(), own_aggregates, part.having.is_some());
    let grouping = Grouping {
        grouped,
        keys: &keys,
    };
    let outputs = outputs(alloc, &part.list, first_number, grouping, &scope, &scopes)?;
    let items = items(alloc, outputs.as_slice())?;
    let block = Block {
        from: from.into_inner(),
        filter,
        grouped,
        keys: keys.into_items(),
        having: becomes(alloc, &part.having)?,
        having_items: asked.items,
        items,
        distinct: part.distinct,
    };
    Ok(BoundSelect {
        block: Boxed::new(alloc, block)?,
        outputs,
        scope,
    })
}
