//! What a query means here and elsewhere means otherwise.

use crate::habits::last_token;
use sql_parse::statement::{Chain, Condition, Select, SelectItem, SelectList, TableName};
use sql_parse::{Name, parse_bytes};
use std::alloc::{AllocError, Global};
use values::Fault;

/// Words that test the column before them in other dialects, and how the test is written here.
const TESTS: &[(&str, &str)] = &[("isnull", "IS NULL"), ("notnull", "IS NOT NULL")];

/// Words that say in other dialects of which kind the join behind them is.
const KINDS: &[&str] = &["anti", "asof", "semi"];

/// Whether an alias stands there without AS.
fn is_bare(text: &[u8], alias: &Name) -> bool {
    let before = text.get(..alias.at).unwrap_or(text);
    !last_token(before).1.eq_ignore_ascii_case(b"as")
}

/// Says of what a SELECT shows where a test is taken for its name.
fn item(text: &[u8], part: &SelectItem, said: &mut String) -> Result<(), AllocError> {
    let Some(alias) = &part.alias else {
        return Ok(());
    };
    let word = alias.text.as_str();
    let found = TESTS.iter().find(|(test, _)| *test == word);
    match found {
        Some((_, test)) if is_bare(text, alias) => {
            let at = alias.at;
            write!(
                said,
                "at {at}: {word} is no test here but the name of the column before it; a WHERE asks by {test}\n"
            )
        }
        _ => Ok(()),
    }
}

/// Says of a table that is joined to the next one where the kind of that join is taken for its alias.
fn joined(text: &[u8], part: &TableName, said: &mut String) -> Result<(), AllocError> {
    let Some(alias) = &part.alias else {
        return Ok(());
    };
    let word = alias.text.as_str();
    if !KINDS.contains(&word) || !is_bare(text, alias) {
        return Ok(());
    }
    let (at, table) = (alias.at, part.name.text.as_str());
    write!(
        said,
        "at {at}: {word} is no kind of join here but the alias of {table}, which is joined by JOIN alone\n"
    )
}

#[cycle(warnings)]
fn condition(text: &[u8], part: &Condition, said: &mut String) -> Result<(), AllocError> {
    match part {
        Condition::Compare(_, _, _) | Condition::IsNull(_) => Ok(()),
        Condition::Not(inner) => condition(text, inner.get(), said),
        Condition::And(parts) => conditions(text, parts.as_slice(), said),
        Condition::Or(parts) => conditions(text, parts.as_slice(), said),
        Condition::Exists(query) => select(text, query.get(), said),
        Condition::In(_, _, query) => select(text, query.get(), said),
    }
}

#[cycle(warnings)]
fn conditions(text: &[u8], parts: &[Condition], said: &mut String) -> Result<(), AllocError> {
    for part in parts {
        condition(text, part, said)?;
    }
    Ok(())
}

fn chain(text: &[u8], part: &Chain, said: &mut String) -> Result<(), AllocError> {
    let mut left = &part.table;
    for join in part.joins.as_slice() {
        joined(text, left, said)?;
        left = &join.table;
    }
    Ok(())
}

#[cycle(warnings)]
fn select(text: &[u8], part: &Select, said: &mut String) -> Result<(), AllocError> {
    if let SelectList::Items(items) = &part.list {
        for shown in items.as_slice() {
            item(text, shown, said)?;
        }
    }
    for part in part.from.as_slice() {
        chain(text, part, said)?;
    }
    match &part.filter {
        Some(filter) => condition(text, filter.get(), said),
        None => Ok(()),
    }
}

/// Where other dialects read a word of a query otherwise, though both read it: a line for each, or nothing where a text is refused.
pub fn warnings_there(alloc: Global, text: &[u8]) -> Result<String, AllocError> {
    let mut said = String::new(alloc);
    match parse_bytes(alloc, text) {
        Ok(parsed) => select(text, &parsed.tree().select, &mut said)?,
        Err(Fault::Memory) => return Err(AllocError),
        Err(Fault::Refused(_)) => {}
    }
    Ok(said)
}
