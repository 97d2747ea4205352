//! What may stand where a text is refused for what stands there.

use crate::habits::is_word;
use sql_parse::{ParseReason, ParseRefusal, parse_bytes};
use std::alloc::{AllocError, Global};
use values::Fault;

/// A token of each kind, and what the kind is called.
const TOKENS: &[(&str, &str)] = &[
    ("x", "a name"),
    ("1", "a number"),
    ("'x'", "a text"),
    ("NULL", "NULL"),
    ("*", "a star"),
    ("=", "a comparison"),
    (".", "a dot"),
    (",", "a comma"),
    ("(", "a parenthesis"),
    (")", "a closing parenthesis"),
    ("SELECT", "SELECT"),
    ("DISTINCT", "DISTINCT"),
    ("COUNT", "COUNT"),
    ("SUM", "SUM"),
    ("MIN", "MIN"),
    ("MAX", "MAX"),
    ("AS", "AS"),
    ("FROM", "FROM"),
    ("JOIN", "JOIN"),
    ("INNER", "INNER"),
    ("LEFT", "LEFT"),
    ("OUTER", "OUTER"),
    ("ON", "ON"),
    ("WHERE", "WHERE"),
    ("NOT", "NOT"),
    ("IS", "IS"),
    ("IN", "IN"),
    ("EXISTS", "EXISTS"),
    ("AND", "AND"),
    ("OR", "OR"),
    ("GROUP", "GROUP"),
    ("BY", "BY"),
    ("HAVING", "HAVING"),
    ("ORDER", "ORDER"),
    ("ASC", "ASC"),
    ("DESC", "DESC"),
    // Where a semicolon may stand, the text may end.
    (";", "a semicolon or the end"),
];

/// The words that begin a clause, and a text with each.
const CLAUSES: &[(&str, &str)] = &[
    (
        "SELECT",
        "SELECT dept, COUNT(*) AS n FROM emp GROUP BY dept",
    ),
    (
        "FROM",
        "SELECT e.id FROM emp e JOIN dept d ON d.id = e.dept",
    ),
    ("ON", "SELECT e.id FROM emp e JOIN dept d ON d.id = e.dept"),
    (
        "WHERE",
        "SELECT id FROM emp WHERE pay > 100 AND (dept = 1 OR dept IS NULL)",
    ),
    ("GROUP", "SELECT dept, COUNT(*) AS n FROM emp GROUP BY dept"),
    (
        "HAVING",
        "SELECT dept FROM emp GROUP BY dept HAVING COUNT(*) > 1",
    ),
    ("ORDER", "SELECT id, pay FROM emp ORDER BY pay DESC, id"),
];

/// Whether a text could go on with a token: with it, it is a query or ends too early.
fn goes_on(alloc: Global, before: &[u8], token: &str) -> Result<bool, AllocError> {
    let mut text = Vec::new(alloc);
    text.extend_from_slice(before)?;
    text.push(b' ')?;
    text.extend_from_slice(token.as_bytes())?;
    match parse_bytes(alloc, text.as_slice()) {
        Ok(_) => Ok(true),
        Err(Fault::Refused(refusal)) => Ok(
            matches!(refusal.reason, ParseReason::Unexpected) && refusal.at == text.len(),
        ),
        Err(Fault::Memory) => Err(AllocError),
    }
}

/// What may stand where a text is refused for what stands there or for its end: a line of its own, or nothing where it is refused for
/// another reason.
pub fn tokens_there(
    alloc: Global,
    text: &[u8],
    refusal: ParseRefusal,
) -> Result<String, AllocError> {
    let mut said = String::new(alloc);
    if !matches!(refusal.reason, ParseReason::Unexpected) {
        return Ok(said);
    }
    let before = text.get(..refusal.at).unwrap_or(text);
    for (token, called) in TOKENS {
        if goes_on(alloc, before, token)? {
            said.push_str(if said.is_empty() {
                "there may stand "
            } else {
                ", "
            })?;
            said.push_str(called)?;
        }
    }
    if !said.is_empty() {
        said.push('\n')?;
    }
    Ok(said)
}

/// The clause that a word begins, if it begins one.
fn clause_of(word: &[u8]) -> Option<&'static str> {
    let found = CLAUSES
        .iter()
        .find(|(first, _)| word.eq_ignore_ascii_case(first.as_bytes()));
    found.map(|(_, example)| *example)
}

/// A query with the clause that begins last before the place where a text is refused for what stands there.
pub fn example_there(text: &[u8], refusal: ParseRefusal) -> Option<&'static str> {
    if !matches!(refusal.reason, ParseReason::Unexpected) {
        return None;
    }
    let before = text.get(..refusal.at).unwrap_or(text);
    let mut clause = None;
    // Quotes begin and end texts, so every second part is one.
    for (place, part) in before.split(|byte| *byte == b'\'').enumerate() {
        if place % 2 == 0 {
            for word in part.split(|byte| !is_word(*byte)) {
                clause = clause_of(word).or(clause);
            }
        }
    }
    clause
}
