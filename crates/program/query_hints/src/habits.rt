//! Habits of other dialects, and what to write in their place.

use sql_parse::{ParseReason, ParseRefusal};
use std::alloc::{AllocError, Global};

const LIMIT: &str =
    "LIMIT, OFFSET, FETCH and TOP; an answer has all its rows, of which head -11 behind the program takes ten";

const COMMENT: &str = "a comment; the text is the query alone";

const QUOTED_NAME: &str =
    "a name between quotes; a name is letters, digits and _, and a text stands between '";

const STAR_OF_TABLE: &str = "* of one table; name its columns, or write * alone for all columns";

const STAR_ALONE: &str = "* beside columns; name the columns, or write * alone";

const STAR_OF_AGGREGATE: &str = "an aggregate of * but COUNT";

const IN_LIST: &str = "IN over a list; write x = 1 OR x = 2, since IN is over a subquery";

const NOT_IN_LIST: &str =
    "NOT IN over a list; write x <> 1 AND x <> 2, since NOT IN is over a subquery";

const FOR_UPDATE: &str = "FOR UPDATE; the tables are files, which are only read";

const COUNT_DISTINCT: &str =
    "DISTINCT in an aggregate; SELECT DISTINCT shows the values, whose lines can be counted";

const ARITHMETIC: &str =
    "arithmetic; a query shows and compares columns as they are, and a - stands directly before digits";

const CONCATENATION: &str = "texts joined by ||; a query shows and compares columns as they are";

const DECIMAL: &str = "numbers with a point; numbers are whole, so x > 1.5 is x >= 2";

const DATE: &str =
    "dates and times; texts as '2024-01-31' are in the order of time, and x >= '2024-01-01' AND x < '2025-01-01' is the year 2024";

const TRUTH: &str =
    "TRUE and FALSE; a value is a number, a text or Null, so write x = 1 where 1 stands for true";

const COLLATION: &str = "COLLATE; texts are compared and sorted by their bytes";

const BYTE_ORDER_MARK: &str = "a byte order mark; the text is the query alone";

const BEYOND_ASCII: &str =
    "a sign beyond ASCII, which only texts have, between ' and '; a name is letters from a to z, digits and _";

const USING: &str = "USING; write ON with a comparison, as ON e.dept = d.id";

const UNION: &str =
    "UNION, EXCEPT and INTERSECT; ask two queries, or join conditions on one table by OR and AND";

const SUBQUERY_THERE: &str =
    "a subquery in an ON, in a HAVING or among what is shown; EXISTS and IN stand in WHERE";

const AGGREGATE_THERE: &str =
    "an aggregate in WHERE or ON; HAVING, behind GROUP BY, compares those of groups, and in WHERE x = MAX(y) is x IN (SELECT MAX(y) FROM t)";

const WITH: &str = "WITH; write the query where it is used, behind IN or EXISTS";

const BETWEEN: &str = "BETWEEN; write x >= 1 AND x <= 2";

const LIKE: &str = "patterns; texts are compared as wholes, by =, <>, <, <=, > and >=";

const CASE: &str = "CASE; a query shows columns as they are";

const WINDOW: &str = "windows; GROUP BY shows the COUNT, SUM, MIN or MAX of each group, in one row";

const OTHER_JOIN: &str =
    "RIGHT, FULL, CROSS and NATURAL; a RIGHT JOIN is a LEFT JOIN turned round, and a CROSS JOIN a comma";

const FUNCTION: &str = "functions but for the aggregates COUNT, SUM, MIN and MAX";

const SUBQUERY: &str =
    "a subquery in the place of a table or a value; it stands behind IN or EXISTS";

const VALUE_OF_SUBQUERY: &str =
    "a subquery as a value; in WHERE, if it has one row, write IN for = and NOT IN for <>, as x IN (SELECT MAX(y) FROM t)";

const CONSTANT: &str = "a constant that is shown; a SELECT shows columns and aggregates";

const NUMBERED_KEY: &str = "a key by its number; name the column";

const AGGREGATE_AS_KEY: &str =
    "an aggregate as a key, or its reserved word alone; show it with an alias, as COUNT(*) AS n, and write ORDER BY n";

const AGGREGATE_AS_NAME: &str =
    "COUNT, SUM, MIN or MAX as a name, since they are reserved; write another, as COUNT(*) AS n";

const NULLS_ORDER: &str =
    "NULLS FIRST and NULLS LAST; Null is before all values, and with DESC behind them";

const SCHEMA_OF_TABLE: &str =
    "a schema's name before a table's; write the table's alone, as in FROM emp";

const PARAMETER: &str = "parameters; write the value into the query's text";

const EQUALS: &str = "==; equal is =, and other than is <>";

const SECOND: &str = "a second statement; a text is one query";

const OTHER_STATEMENT: &str = "statements but SELECT; the tables are files, which are only read";

const EXPLAIN: &str =
    "EXPLAIN; sqlplan explain shows the plan of a query, and sqlplan query --explain the plan that answered it";

const AGGREGATES: &[&str] = &["COUNT", "SUM", "MIN", "MAX"];

/// What stands before the place, what begins there, and what is said of it. Tokens have a space between them; `1` is any literal, before
/// the place any number, `name` any other word, `aggregate` one of `AGGREGATES`, and `beyond` a sign beyond ASCII. The first that fits is
/// said.
const HABITS: &[(&str, &str, &str)] = &[
    ("LIMIT", "1", LIMIT),
    ("OFFSET", "1", LIMIT),
    ("TOP", "1", LIMIT),
    ("FETCH", "FIRST", LIMIT),
    ("FETCH", "NEXT", LIMIT),
    ("", "LIMIT", LIMIT),
    ("", "OFFSET", LIMIT),
    ("", "FETCH", LIMIT),
    ("", "--", COMMENT),
    ("", "/*", COMMENT),
    ("", "#", COMMENT),
    ("COLLATE", "", COLLATION),
    ("", "COLLATE", COLLATION),
    ("", "\"", QUOTED_NAME),
    ("", "`", QUOTED_NAME),
    ("", "[", QUOTED_NAME),
    ("", "\u{feff}", BYTE_ORDER_MARK),
    ("", "beyond", BEYOND_ASCII),
    (".", "*", STAR_OF_TABLE),
    (",", "*", STAR_ALONE),
    ("SELECT *", ",", STAR_ALONE),
    ("DISTINCT *", ",", STAR_ALONE),
    ("(", "*", STAR_OF_AGGREGATE),
    ("NOT IN (", "1", NOT_IN_LIST),
    ("IN (", "1", IN_LIST),
    ("", "IN ( SELECT", SUBQUERY_THERE),
    ("", "NOT IN ( SELECT", SUBQUERY_THERE),
    ("", "EXISTS", SUBQUERY_THERE),
    ("(", "DISTINCT", COUNT_DISTINCT),
    ("SELECT", "1", CONSTANT),
    ("DISTINCT", "1", CONSTANT),
    ("BY", "1", NUMBERED_KEY),
    ("ORDER BY", "aggregate", AGGREGATE_AS_KEY),
    (",", "aggregate", AGGREGATE_AS_KEY),
    ("AS", "aggregate", AGGREGATE_AS_NAME),
    ("WHERE", "aggregate", AGGREGATE_THERE),
    ("ON", "aggregate", AGGREGATE_THERE),
    ("AND", "aggregate", AGGREGATE_THERE),
    ("OR", "aggregate", AGGREGATE_THERE),
    ("NOT", "aggregate", AGGREGATE_THERE),
    ("=", "aggregate", AGGREGATE_THERE),
    ("<", "aggregate", AGGREGATE_THERE),
    (">", "aggregate", AGGREGATE_THERE),
    ("", "NULLS FIRST", NULLS_ORDER),
    ("", "NULLS LAST", NULLS_ORDER),
    ("FROM name", ".", SCHEMA_OF_TABLE),
    ("JOIN name", ".", SCHEMA_OF_TABLE),
    (", name", ".", SCHEMA_OF_TABLE),
    (". name", ".", SCHEMA_OF_TABLE),
    ("1", ".", DECIMAL),
    ("<", ".", DECIMAL),
    (">", ".", DECIMAL),
    ("=", ".", DECIMAL),
    ("DATE", "'", DATE),
    ("TIMESTAMP", "'", DATE),
    ("INTERVAL", "'", DATE),
    ("EXTRACT", "(", DATE),
    ("DATE_TRUNC", "(", DATE),
    ("STRFTIME", "(", DATE),
    ("YEAR", "(", DATE),
    ("USING", "(", USING),
    ("", "USING", USING),
    ("UNION", "SELECT", UNION),
    ("UNION", "ALL", UNION),
    ("EXCEPT", "SELECT", UNION),
    ("INTERSECT", "SELECT", UNION),
    ("", "UNION", UNION),
    ("", "EXCEPT", UNION),
    ("", "INTERSECT", UNION),
    ("", "WITH", WITH),
    ("", "BETWEEN", BETWEEN),
    ("", "LIKE", LIKE),
    ("", "ILIKE", LIKE),
    ("", "REGEXP", LIKE),
    ("", "SIMILAR TO", LIKE),
    ("CASE WHEN", "", CASE),
    ("", "WHEN", CASE),
    ("", "RIGHT", OTHER_JOIN),
    ("", "FULL", OTHER_JOIN),
    ("", "CROSS", OTHER_JOIN),
    ("", "NATURAL", OTHER_JOIN),
    (") OVER", "", WINDOW),
    ("ROW_NUMBER", "(", WINDOW),
    ("RANK", "(", WINDOW),
    ("DENSE_RANK", "(", WINDOW),
    ("LAG", "(", WINDOW),
    ("LEAD", "(", WINDOW),
    ("AVG", "(", FUNCTION),
    ("CAST", "(", FUNCTION),
    ("COALESCE", "(", FUNCTION),
    ("UPPER", "(", FUNCTION),
    ("LOWER", "(", FUNCTION),
    ("LENGTH", "(", FUNCTION),
    ("ROUND", "(", FUNCTION),
    ("ABS", "(", FUNCTION),
    ("", "::", FUNCTION),
    ("< =", "( SELECT", SUBQUERY),
    ("> =", "( SELECT", SUBQUERY),
    ("=", "( SELECT", VALUE_OF_SUBQUERY),
    ("< >", "( SELECT", VALUE_OF_SUBQUERY),
    ("", "( SELECT", SUBQUERY),
    ("=", "=", EQUALS),
    ("", "?", PARAMETER),
    ("", ":", PARAMETER),
    ("", "$", PARAMETER),
    ("", "@", PARAMETER),
    ("", "EXPLAIN", EXPLAIN),
    ("", "INSERT", OTHER_STATEMENT),
    ("FOR", "UPDATE", FOR_UPDATE),
    ("", "UPDATE", OTHER_STATEMENT),
    ("", "DELETE", OTHER_STATEMENT),
    ("", "CREATE", OTHER_STATEMENT),
    (";", "SELECT", SECOND),
    ("", "+", ARITHMETIC),
    ("", "-", ARITHMETIC),
    ("", "*", ARITHMETIC),
    ("", "/", ARITHMETIC),
    ("", "%", ARITHMETIC),
    ("", "||", CONCATENATION),
    ("", "TRUE", TRUTH),
    ("", "FALSE", TRUTH),
    ("TRUE", "", TRUTH),
    ("FALSE", "", TRUTH),
];

pub(crate) fn is_word(byte: u8) -> bool {
    byte.is_ascii_alphanumeric() || byte == b'_'
}

/// The text before the last token of a text, and that token: a word or one byte.
pub(crate) fn last_token(text: &[u8]) -> (&[u8], &[u8]) {
    let text = text.trim_ascii_end();
    let word = text.iter().rev().take_while(|byte| is_word(**byte)).count();
    text.split_at(text.len().saturating_sub(word.max(1)))
}

/// Whether a word or one byte is a token of the table.
fn is_token(found: &[u8], token: &str) -> bool {
    let first = found.first();
    match token {
        "1" => first.is_some_and(|byte| byte.is_ascii_digit()),
        "name" => first.is_some_and(|byte| is_word(*byte) && !byte.is_ascii_digit()),
        _ => token.is_empty() || found.eq_ignore_ascii_case(token.as_bytes()),
    }
}

/// Whether a text ends in these tokens.
fn ends_in(text: &[u8], tokens: &str) -> bool {
    let mut rest = text;
    for token in tokens.rsplit(' ') {
        let (front, last) = last_token(rest);
        if !is_token(last, token) {
            return false;
        }
        rest = front;
    }
    true
}

/// What stands behind a token at the front of a text, if it stands there and is no part of a longer word.
fn behind<'t>(text: &'t [u8], token: &str) -> Option<&'t [u8]> {
    let (front, rest) = text.split_at_checked(token.len())?;
    let ends_in_word = front.last().is_some_and(|byte| is_word(*byte));
    let goes_on = rest.first().is_some_and(|byte| is_word(*byte));
    if front.eq_ignore_ascii_case(token.as_bytes()) && !(ends_in_word && goes_on) {
        Some(rest)
    } else {
        None
    }
}

/// Whether a number, a text or NULL stands at the front of a text.
fn begins_with_literal(text: &[u8]) -> bool {
    match text {
        [b'0'..=b'9' | b'-' | b'\'', ..] => true,
        _ => behind(text, "NULL").is_some(),
    }
}

fn begins_with_aggregate(text: &[u8]) -> bool {
    AGGREGATES.iter().any(|word| behind(text, word).is_some())
}

/// Whether a sign beyond ASCII stands at the front of a text, and no byte that isn't UTF-8.
fn begins_beyond_ascii(text: &[u8]) -> bool {
    text.first().is_some_and(|byte| !byte.is_ascii()) && str::from_utf8(text).is_ok()
}

/// Whether a text begins with these tokens.
fn begins_with(text: &[u8], tokens: &str) -> bool {
    match tokens {
        "1" => return begins_with_literal(text),
        "aggregate" => return begins_with_aggregate(text),
        "beyond" => return begins_beyond_ascii(text),
        _ => {}
    }
    let mut rest = text;
    for token in tokens.split(' ') {
        match behind(rest.trim_ascii_start(), token) {
            Some(next) => rest = next,
            None => return false,
        }
    }
    true
}

/// What is said of a text that is refused at this byte, if it is written as in another dialect.
fn habit(text: &[u8], at: usize) -> Option<&'static str> {
    let (before, there) = text.split_at_checked(at)?;
    let found = HABITS.iter().find(|(behind, start, _)| ends_in(before, behind)
        && begins_with(there, start));
    found.map(|(_, _, says)| *says)
}

/// Adds what is said of a habit: a line of its own.
fn push_habit(said: &mut String, says: &str) -> Result<(), AllocError> {
    write!(said, "not part of this language, see docs/SQL.md: {says}\n")
}

/// Says of a column's name that there is none what is meant by it in other dialects, if it is TRUE or FALSE.
pub(crate) fn say_truth(name: &str, said: &mut String) -> Result<(), AllocError> {
    if name == "true" || name == "false" {
        push_habit(said, TRUTH)?;
    }
    Ok(())
}

/// What is to be written in place of a habit of another dialect: a line of its own, or nothing where a text is refused for another reason.
pub fn habits_there(
    alloc: Global,
    text: &[u8],
    refusal: ParseRefusal,
) -> Result<String, AllocError> {
    let found = match refusal.reason {
        ParseReason::NoToken | ParseReason::Unexpected => habit(text, refusal.at),
        _ => None,
    };
    let mut said = String::new(alloc);
    if let Some(says) = found {
        push_habit(&mut said, says)?;
    }
    Ok(said)
}
