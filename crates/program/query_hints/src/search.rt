//! The name at a byte of a query's text, with the tables of the FROMs around it.

use crate::names::{Around, say_alias, say_ambiguous, say_shown, say_tables, say_unknown};
use binder::{BindReason, BindRefusal};
use schema::Schema;
use sql_parse::parse_bytes;
use sql_parse::statement::{
    AggregateCall, Chain, ColumnName, Condition, HavingCondition, HavingTerm, ItemValue, OrderKey,
    Select, SelectList, Statement, TableName, Term,
};
use std::alloc::{AllocError, Global};
use values::Fault;

/// A refusal whose name is looked for, over a schema.
#[derive(Clone, Copy)]
struct Sought<'s> {
    alloc: Global,
    schema: &'s Schema,
    refusal: BindRefusal,
}

/// The tables of a FROM and of those around it, the innermost first.
fn tables_around<'t>(
    alloc: Global,
    own: &[&'t TableName],
    outer: &[Around<'t>],
) -> Result<Vec<Around<'t>>, AllocError> {
    let mut tables = Vec::new(alloc);
    let from = outer.len();
    for table in own {
        tables.push(Around { table, from })?;
    }
    for around in outer {
        tables.push(*around)?;
    }
    Ok(tables)
}

/// The tables of a FROM.
fn tables_of(alloc: Global, from: &[Chain]) -> Result<Vec<&TableName>, AllocError> {
    let mut tables = Vec::new(alloc);
    for chain in from {
        tables.push(&chain.table)?;
        for join in chain.joins.as_slice() {
            tables.push(&join.table)?;
        }
    }
    Ok(tables)
}

/// Says of a table of a FROM that it is unknown, if it is the one that is refused.
fn table(sought: Sought<'_>, table: &TableName, said: &mut String) -> Result<(), AllocError> {
    if table.name.at != sought.refusal.at {
        return Ok(());
    }
    match sought.refusal.reason {
        BindReason::UnknownTable => {
            say_tables(sought.alloc, sought.schema, table.name.text.as_str(), said)
        }
        _ => Ok(()),
    }
}

/// Whether a column's name is the one that is refused.
fn is_refused(sought: Sought<'_>, name: &ColumnName) -> bool {
    let first = name.table.as_ref().unwrap_or(&name.name);
    first.at == sought.refusal.at
}

/// Says what a column's name could mean, if it is the one that is refused.
fn column(
    sought: Sought<'_>,
    name: &ColumnName,
    tables: &[Around<'_>],
    said: &mut String,
) -> Result<(), AllocError> {
    if !is_refused(sought, name) {
        return Ok(());
    }
    match sought.refusal.reason {
        BindReason::UnknownColumn => {
            say_unknown(sought.alloc, sought.schema, name, tables, said)
        }
        BindReason::AmbiguousName => say_ambiguous(sought.schema, &name.name, tables, said),
        _ => Ok(()),
    }
}

fn term(
    sought: Sought<'_>,
    part: &Term,
    tables: &[Around<'_>],
    said: &mut String,
) -> Result<(), AllocError> {
    match part {
        Term::Column(name) => column(sought, name, tables, said),
        Term::Literal(_) => Ok(()),
    }
}

#[cycle(search)]
fn condition<'t>(
    sought: Sought<'_>,
    part: &'t Condition,
    tables: &[Around<'t>],
    said: &mut String,
) -> Result<(), AllocError> {
    match part {
        Condition::Compare(left, _, right) => {
            term(sought, left, &*tables, said)?;
            term(sought, right, &*tables, said)
        }
        Condition::IsNull(tested) => term(sought, tested, &*tables, said),
        Condition::Not(inner) => condition(sought, inner.get(), &*tables, said),
        Condition::And(parts) => conditions(sought, parts.as_slice(), &*tables, said),
        Condition::Or(parts) => conditions(sought, parts.as_slice(), &*tables, said),
        Condition::Exists(query) => select(sought, query.get(), &*tables, said),
        Condition::In(tested, _, query) => {
            term(sought, tested, &*tables, said)?;
            select(sought, query.get(), &*tables, said)
        }
    }
}

#[cycle(search)]
fn conditions<'t>(
    sought: Sought<'_>,
    parts: &[Condition],
    tables: &[Around<'t>],
    said: &mut String,
) -> Result<(), AllocError> {
    for part in parts {
        condition(sought, part, &*tables, said)?;
    }
    Ok(())
}

/// A chain of joins. An ON sees the tables of its chain so far.
#[cycle(search)]
fn chain<'t>(
    sought: Sought<'_>,
    part: &'t Chain,
    outer: &[Around<'t>],
    said: &mut String,
) -> Result<(), AllocError> {
    table(sought, &part.table, said)?;
    let mut own = vec![in sought.alloc; &part.table]?;
    for join in part.joins.as_slice() {
        table(sought, &join.table, said)?;
        own.push(&join.table)?;
        let tables = tables_around(sought.alloc, own.as_slice(), &*outer)?;
        condition(sought, join.condition.get(), tables.as_slice(), said)?;
    }
    Ok(())
}

fn aggregate(
    sought: Sought<'_>,
    call: &AggregateCall,
    tables: &[Around<'_>],
    said: &mut String,
) -> Result<(), AllocError> {
    match &call.column {
        Some(name) => column(sought, name, tables, said),
        None => Ok(()),
    }
}

/// What a SELECT shows.
fn list(
    sought: Sought<'_>,
    part: &SelectList,
    tables: &[Around<'_>],
    said: &mut String,
) -> Result<(), AllocError> {
    let SelectList::Items(items) = part else {
        return Ok(());
    };
    for item in items.as_slice() {
        match &item.value {
            ItemValue::Column(name) => column(sought, name, tables, said)?,
            ItemValue::Aggregate(call) => aggregate(sought, call, tables, said)?,
        }
    }
    Ok(())
}

/// A term of a HAVING, whose SELECT has this list.
fn having_term(
    sought: Sought<'_>,
    part: &HavingTerm,
    list: &SelectList,
    tables: &[Around<'_>],
    said: &mut String,
) -> Result<(), AllocError> {
    match part {
        HavingTerm::Column(name) => {
            column(sought, name, tables, said)?;
            if is_refused(sought, name) {
                say_alias(list, name, said)?;
            }
            Ok(())
        }
        HavingTerm::Aggregate(call) => aggregate(sought, call, tables, said),
        HavingTerm::Literal(_) => Ok(()),
    }
}

#[cycle(having)]
fn having(
    sought: Sought<'_>,
    part: &HavingCondition,
    list: &SelectList,
    tables: &[Around<'_>],
    said: &mut String,
) -> Result<(), AllocError> {
    match part {
        HavingCondition::Compare(left, _, right) => {
            having_term(sought, left, &*list, &*tables, said)?;
            having_term(sought, right, &*list, &*tables, said)
        }
        HavingCondition::IsNull(tested) => having_term(sought, tested, &*list, &*tables, said),
        HavingCondition::Not(inner) => having(sought, inner.get(), &*list, &*tables, said),
        HavingCondition::And(parts) => havings(sought, parts.as_slice(), &*list, &*tables, said),
        HavingCondition::Or(parts) => havings(sought, parts.as_slice(), &*list, &*tables, said),
    }
}

#[cycle(having)]
fn havings(
    sought: Sought<'_>,
    parts: &[HavingCondition],
    list: &SelectList,
    tables: &[Around<'_>],
    said: &mut String,
) -> Result<(), AllocError> {
    for part in parts {
        having(sought, part, &*list, &*tables, said)?;
    }
    Ok(())
}

#[cycle(search)]
fn select<'t>(
    sought: Sought<'_>,
    part: &'t Select,
    outer: &[Around<'t>],
    said: &mut String,
) -> Result<(), AllocError> {
    for part in part.from.as_slice() {
        chain(sought, part, &*outer, said)?;
    }
    let own = tables_of(sought.alloc, part.from.as_slice())?;
    let tables = tables_around(sought.alloc, own.as_slice(), &*outer)?;
    let tables = tables.as_slice();
    if let Some(filter) = &part.filter {
        condition(sought, filter.get(), tables, said)?;
    }
    for name in part.group.as_slice() {
        column(sought, name, tables, said)?;
    }
    if let Some(asked) = &part.having {
        having(sought, asked.get(), &part.list, tables, said)?;
    }
    list(sought, &part.list, tables, said)
}

/// The keys of ORDER BY, which are of what the SELECT shows.
fn order(
    sought: Sought<'_>,
    keys: &[OrderKey],
    part: &Select,
    said: &mut String,
) -> Result<(), AllocError> {
    if !keys.iter().any(|key| is_refused(sought, &key.column)) {
        return Ok(());
    }
    let own = tables_of(sought.alloc, part.from.as_slice())?;
    let tables = tables_around(sought.alloc, own.as_slice(), &[])?;
    say_shown(
        sought.alloc,
        sought.schema,
        &part.list,
        tables.as_slice(),
        said,
    )
}

fn statement(sought: Sought<'_>, part: &Statement, said: &mut String) -> Result<(), AllocError> {
    select(sought, &part.select, &[], said)?;
    order(sought, part.order.as_slice(), &part.select, said)
}

/// Which tables or columns there are, where a name of a text is refused: lines of their own, or nothing where there is no more to say
/// than the refusal's code does.
pub fn names_there(
    alloc: Global,
    schema: &Schema,
    text: &[u8],
    refusal: BindRefusal,
) -> Result<String, AllocError> {
    let mut said = String::new(alloc);
    let sought = Sought {
        alloc,
        schema,
        refusal,
    };
    match parse_bytes(alloc, text) {
        Ok(parsed) => statement(sought, parsed.tree(), &mut said)?,
        Err(Fault::Memory) => return Err(AllocError),
        Err(Fault::Refused(_)) => {}
    }
    Ok(said)
}
