//! Trees of statements as texts, with the places of their parts.

use fixtures::{push_lines, push_number};
use sql_parse::Name;
use sql_parse::statement::{
    AggregateCall, AggregateFunction, ColumnName, Condition, HavingCondition, HavingTerm,
    ItemValue, Join, JoinKind, Operator, OrderKey, Select, SelectItem, SelectList, Statement,
    TableName, Term,
};
use std::alloc::{AllocError, Global};
use std::fmt::Write;
use values::{Comparison, Value};

/// What is still to be reported, the next one last, so that no function calls itself.
#[derive(Clone, Copy)]
enum Part<'a> {
    Text(&'a str),
    Table(&'a TableName),
    Condition(&'a Condition),
    Select(&'a Select),
    Group(&'a [ColumnName]),
    Having(&'a HavingCondition),
}

fn later<'a>(parts: &mut Vec<Part<'a>>, part: Part<'a>) -> Result<(), AllocError> {
    parts.push(part)?;
    Ok(())
}

fn push_name(reported: &mut String, name: &Name) -> Result<(), AllocError> {
    reported.push_str(name.text.as_str())?;
    push_number(reported, "@", name.at)
}

fn push_alias(reported: &mut String, alias: &Option<Name>) -> Result<(), AllocError> {
    match alias {
        Some(name) => {
            reported.push_str(" AS ")?;
            push_name(reported, name)
        }
        None => Ok(()),
    }
}

fn push_column(reported: &mut String, column: &ColumnName) -> Result<(), AllocError> {
    if let Some(table) = &column.table {
        push_name(reported, table)?;
        reported.push_str(".")?;
    }
    push_name(reported, &column.name)
}

fn sign(comparison: Comparison) -> &'static str {
    match comparison {
        Comparison::Equal => " =",
        Comparison::NotEqual => " <>",
        Comparison::Less => " <",
        Comparison::LessOrEqual => " <=",
        Comparison::Greater => " >",
        Comparison::GreaterOrEqual => " >=",
    }
}

/// A text between `<` and `>`, with `~` for a line feed.
fn push_quoted(reported: &mut String, text: &str) -> Result<(), AllocError> {
    reported.push_str("<")?;
    push_lines(reported, text, "~")?;
    reported.push_str(">")
}

fn push_literal(reported: &mut String, value: &Value) -> Result<(), AllocError> {
    match value {
        Value::Null => reported.push_str("null"),
        Value::Int(number) => write!(reported, "{number}"),
        Value::Text(text) => push_quoted(reported, text.as_str()),
    }
}

fn push_term(reported: &mut String, term: &Term) -> Result<(), AllocError> {
    match term {
        Term::Column(column) => push_column(reported, column),
        Term::Literal(literal) => push_literal(reported, literal.value()),
    }
}

fn function_name(function: AggregateFunction) -> &'static str {
    match function {
        AggregateFunction::Count => "count",
        AggregateFunction::Sum => "sum",
        AggregateFunction::Min => "min",
        AggregateFunction::Max => "max",
    }
}

fn push_call(reported: &mut String, call: &AggregateCall) -> Result<(), AllocError> {
    reported.push_str(function_name(call.function))?;
    push_number(reported, "@", call.at)?;
    reported.push_str("(")?;
    match &call.column {
        Some(column) => push_column(reported, column)?,
        None => reported.push_str("*")?,
    }
    reported.push_str(")")
}

fn push_value(reported: &mut String, value: &ItemValue) -> Result<(), AllocError> {
    match value {
        ItemValue::Column(column) => push_column(reported, column),
        ItemValue::Aggregate(call) => push_call(reported, call),
    }
}

fn push_items(reported: &mut String, items: &[SelectItem]) -> Result<(), AllocError> {
    for item in items {
        push_value(reported, &item.value)?;
        push_alias(reported, &item.alias)?;
        reported.push_str(" ")?;
    }
    Ok(())
}

fn push_list(reported: &mut String, list: &SelectList) -> Result<(), AllocError> {
    match list {
        SelectList::Star(at) => push_number(reported, "*@", *at),
        SelectList::Items(items) => push_items(reported, items.as_slice()),
    }
}

/// The columns of GROUP BY.
fn push_group(reported: &mut String, group: &[ColumnName]) -> Result<(), AllocError> {
    for column in group {
        reported.push_str(" BY ")?;
        push_column(reported, column)?;
    }
    Ok(())
}

fn push_table(reported: &mut String, table: &TableName) -> Result<(), AllocError> {
    push_name(reported, &table.name)?;
    push_alias(reported, &table.alias)
}

fn push_operator(reported: &mut String, by: Operator) -> Result<(), AllocError> {
    reported.push_str(sign(by.comparison))?;
    push_number(reported, "@", by.at)?;
    reported.push_str(" ")
}

fn push_comparison(
    reported: &mut String,
    left: &Term,
    by: Operator,
    right: &Term,
) -> Result<(), AllocError> {
    push_term(reported, left)?;
    push_operator(reported, by)?;
    push_term(reported, right)
}

/// The conditions, each with a text after it, between parentheses.
fn push_conditions<'a>(
    reported: &mut String,
    parts: &mut Vec<Part<'a>>,
    conditions: &'a [Condition],
    between: &'a str,
) -> Result<(), AllocError> {
    reported.push_str("(")?;
    later(parts, Part::Text(")"))?;
    for condition in conditions.iter().rev() {
        later(parts, Part::Text(between))?;
        later(parts, Part::Condition(condition))?;
    }
    Ok(())
}

fn push_condition<'a>(
    reported: &mut String,
    parts: &mut Vec<Part<'a>>,
    condition: &'a Condition,
) -> Result<(), AllocError> {
    match condition {
        Condition::Compare(left, by, right) => push_comparison(reported, left, *by, right),
        Condition::IsNull(term) => {
            push_term(reported, term)?;
            reported.push_str(" IS NULL")
        }
        Condition::Not(inner) => {
            reported.push_str("NOT ")?;
            later(parts, Part::Condition(inner.get()))
        }
        Condition::And(all) => push_conditions(reported, parts, all.as_slice(), " AND "),
        Condition::Or(any) => push_conditions(reported, parts, any.as_slice(), " OR "),
        Condition::Exists(query) => {
            reported.push_str("EXISTS ")?;
            later(parts, Part::Select(query.get()))
        }
        Condition::In(term, at, query) => {
            push_term(reported, term)?;
            push_number(reported, " IN@", *at)?;
            reported.push_str(" ")?;
            later(parts, Part::Select(query.get()))
        }
    }
}

// ---- HAVING

fn push_having_term(reported: &mut String, term: &HavingTerm) -> Result<(), AllocError> {
    match term {
        HavingTerm::Column(column) => push_column(reported, column),
        HavingTerm::Aggregate(call) => push_call(reported, call),
        HavingTerm::Literal(literal) => push_literal(reported, literal.value()),
    }
}

/// The conditions of a HAVING, each with a text after it, between parentheses.
fn push_havings<'a>(
    reported: &mut String,
    parts: &mut Vec<Part<'a>>,
    conditions: &'a [HavingCondition],
    between: &'a str,
) -> Result<(), AllocError> {
    reported.push_str("(")?;
    later(parts, Part::Text(")"))?;
    for condition in conditions.iter().rev() {
        later(parts, Part::Text(between))?;
        later(parts, Part::Having(condition))?;
    }
    Ok(())
}

fn push_having<'a>(
    reported: &mut String,
    parts: &mut Vec<Part<'a>>,
    condition: &'a HavingCondition,
) -> Result<(), AllocError> {
    match condition {
        HavingCondition::Compare(left, by, right) => {
            push_having_term(reported, left)?;
            push_operator(reported, *by)?;
            push_having_term(reported, right)
        }
        HavingCondition::IsNull(term) => {
            push_having_term(reported, term)?;
            reported.push_str(" IS NULL")
        }
        HavingCondition::Not(inner) => {
            reported.push_str("NOT ")?;
            later(parts, Part::Having(inner.get()))
        }
        HavingCondition::And(all) => push_havings(reported, parts, all.as_slice(), " AND "),
        HavingCondition::Or(any) => push_havings(reported, parts, any.as_slice(), " OR "),
    }
}

// ---- SELECT

fn push_joins<'a>(parts: &mut Vec<Part<'a>>, joins: &'a [Join]) -> Result<(), AllocError> {
    for join in joins.iter().rev() {
        later(parts, Part::Condition(join.condition.get()))?;
        later(parts, Part::Text(" ON "))?;
        later(parts, Part::Table(&join.table))?;
        later(
            parts,
            Part::Text(match join.kind {
                JoinKind::Inner => " JOIN ",
                JoinKind::Left => " LEFT JOIN ",
            }),
        )?;
    }
    Ok(())
}

fn push_select<'a>(
    reported: &mut String,
    parts: &mut Vec<Part<'a>>,
    select: &'a Select,
) -> Result<(), AllocError> {
    reported.push_str(if select.distinct { "{DISTINCT " } else { "{" })?;
    push_list(reported, &select.list)?;
    later(parts, Part::Text("}"))?;
    if let Some(having) = &select.having {
        later(parts, Part::Having(having.get()))?;
        later(parts, Part::Text(" HAVING "))?;
    }
    later(parts, Part::Group(select.group.as_slice()))?;
    if let Some(filter) = &select.filter {
        later(parts, Part::Condition(filter.get()))?;
        later(parts, Part::Text(" WHERE "))?;
    }
    for chain in select.from.as_slice().iter().rev() {
        push_joins(parts, chain.joins.as_slice())?;
        later(parts, Part::Table(&chain.table))?;
        later(parts, Part::Text(", "))?;
    }
    Ok(())
}

fn push_part<'a>(
    reported: &mut String,
    parts: &mut Vec<Part<'a>>,
    part: Part<'a>,
) -> Result<(), AllocError> {
    match part {
        Part::Text(text) => reported.push_str(text),
        Part::Table(table) => push_table(reported, table),
        Part::Condition(condition) => push_condition(reported, parts, condition),
        Part::Select(select) => push_select(reported, parts, select),
        Part::Group(group) => push_group(reported, group),
        Part::Having(condition) => push_having(reported, parts, condition),
    }
}

fn push_order(reported: &mut String, order: &[OrderKey]) -> Result<(), AllocError> {
    for key in order {
        reported.push_str(if key.descending { " DESC " } else { " ASC " })?;
        push_column(reported, &key.column)?;
    }
    Ok(())
}

/// The most parts of a tree that is reported.
const MOST_PARTS: usize = 10_000;

/// Adds a statement's tree.
pub fn push_statement(
    alloc: Global,
    reported: &mut String,
    statement: &Statement,
) -> Result<(), AllocError> {
    let mut parts = Vec::new(alloc);
    later(&mut parts, Part::Select(&statement.select))?;
    for _ in 0..MOST_PARTS {
        let Some(part) = parts.pop() else {
            break;
        };
        push_part(reported, &mut parts, part)?;
    }
    push_order(reported, statement.order.as_slice())
}
