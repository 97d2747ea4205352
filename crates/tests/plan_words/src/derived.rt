//! Lines of derivations, read from words with `; ` between them: `F EXPR`, `A CLASS RULE PICK USES MAKES EXPR`,
//! `S CLASS CLASS RULE PICK USES MAKES`, `G LINE LINE`, `L CLASS LINE FACT`. Numbers are joined by `,`, none are `-`. An expression is
//! `get INSTANCE`, `select [..] CLASS`, `join [..] CLASS CLASS`, `semi` and `anti [..] [..]` so, `keep COLUMNS CLASS`, `distinct CLASS`,
//! `group KEYS CLASS`, with comparisons of columns, numbers and NULL, `null(c2)`, `exists(CLASS)`, `in(c0,CLASS,c3)` and `not(..)` of these as conditions:
//! `[=(c4,c0);<>(c2,i500)]`.

use crate::plans::{cut, id};
use algebra::{Aggregations, Columns, Condition, Conjuncts, Expr, Term};
use book::RuleName;
use derivation::{Line, Numbers, Step};
use props::Fact;
use std::alloc::{AllocError, Global};
use values::{Boxed, Comparison, Items, Literal};

/// The rule of a code; J1 if there is none.
pub fn rule_of(code: &str) -> RuleName {
    RuleName::of_code(code).unwrap_or(RuleName::JoinCommutes)
}

pub fn numbers_of(alloc: Global, word: &str) -> Result<Vec<u32>, AllocError> {
    let mut numbers = Vec::new(alloc);
    if word != "-" {
        for part in word.split(",") {
            numbers.push(id(part))?;
        }
    }
    Ok(numbers)
}

fn columns_of(alloc: Global, word: &str) -> Result<Columns, AllocError> {
    Ok(Columns::from_vec(numbers_of(alloc, word)?))
}

/// A column, a number, or NULL for any other word.
fn term_of(word: &str) -> Term {
    match word.split_at_checked(1) {
        Some(("c", column)) => Term::Column(id(column)),
        Some(("i", number)) => match number.parse() {
            Ok(number) => Term::Literal(Literal::number(number)),
            Err(_) => Term::Literal(Literal::null()),
        },
        _ => Term::Literal(Literal::null()),
    }
}

fn comparison_of(sign: &str) -> Comparison {
    match sign {
        "<>" => Comparison::NotEqual,
        "<" => Comparison::Less,
        "<=" => Comparison::LessOrEqual,
        ">" => Comparison::Greater,
        ">=" => Comparison::GreaterOrEqual,
        _ => Comparison::Equal,
    }
}

/// An IN: what stands behind its term are the class and the column.
fn member_of(term: &str, words: &str) -> Condition {
    let (class, column) = cut(words, ",c");
    Condition::In(term_of(term), id(class), id(column))
}

fn plain_condition(text: &str) -> Condition {
    let (sign, terms) = cut(text, "(");
    let (terms, _) = cut(terms, ")");
    let (first, second) = cut(terms, ",");
    match sign {
        "exists" => Condition::Exists(id(first)),
        "in" => member_of(first, second),
        "null" => Condition::IsNull(term_of(first)),
        _ => Condition::Compare(comparison_of(sign), term_of(first), term_of(second)),
    }
}

fn condition_of(alloc: Global, text: &str) -> Result<Condition, AllocError> {
    match cut(text, "(") {
        ("not", part) => Ok(Condition::Not(Boxed::new(alloc, plain_condition(part))?)),
        _ => Ok(plain_condition(text)),
    }
}

/// The conjuncts of the first list, and what stands behind it.
fn conjuncts_of<'a>(alloc: Global, text: &'a str) -> Result<(Conjuncts, &'a str), AllocError> {
    let (list, rest) = cut(text, "] ");
    let (_, list) = cut(list, "[");
    let mut conditions = Vec::new(alloc);
    for condition in list.split(";") {
        if !condition.is_empty() {
            conditions.push(condition_of(alloc, condition)?)?;
        }
    }
    Ok((Conjuncts::of(alloc, conditions.as_slice())?, rest))
}

fn joined(alloc: Global, name: &str, words: &str) -> Result<Expr, AllocError> {
    let (ordinary, words) = conjuncts_of(alloc, words)?;
    if name == "anti" {
        let (null_aware, words) = conjuncts_of(alloc, words)?;
        let (left, right) = cut(words, " ");
        return Ok(Expr::Anti(ordinary, null_aware, id(left), id(right)));
    }
    let (left, right) = cut(words, " ");
    Ok(match name {
        "semi" => Expr::Semi(ordinary, id(left), id(right)),
        "left" => Expr::LeftJoin(ordinary, id(left), id(right)),
        "select" => Expr::Select(ordinary, id(left)),
        _ => Expr::Join(ordinary, id(left), id(right)),
    })
}

pub fn expr_of(alloc: Global, text: &str) -> Result<Expr, AllocError> {
    let (name, words) = cut(text, " ");
    let (first, second) = cut(words, " ");
    Ok(match name {
        "get" => Expr::Get(id(first)),
        "distinct" => Expr::Distinct(id(first)),
        "keep" => Expr::Keep(columns_of(alloc, first)?, id(second)),
        "group" => Expr::Group(
            columns_of(alloc, first)?,
            Aggregations::of(alloc, &[])?,
            id(second),
        ),
        _ => joined(alloc, name, words)?,
    })
}

pub fn fact_of(alloc: Global, words: &str) -> Result<Fact, AllocError> {
    let (name, columns) = cut(words, " ");
    Ok(match name {
        "notnull" => Fact::NotNull(id(columns)),
        "weak" => Fact::WeakKey(columns_of(alloc, columns)?),
        _ => Fact::StrongKey(columns_of(alloc, columns)?),
    })
}

/// A step, and what stands behind it.
fn step_of<'a>(alloc: Global, words: &'a str) -> Result<(Boxed<Step>, &'a str), AllocError> {
    let (rule, words) = cut(words, " ");
    let (pick, words) = cut(words, " ");
    let (uses, words) = cut(words, " ");
    let (makes, words) = cut(words, " ");
    let uses = Numbers::from_slice(alloc, numbers_of(alloc, uses)?.as_slice())?;
    let makes = Numbers::from_slice(alloc, numbers_of(alloc, makes)?.as_slice())?;
    let step = Step {
        rule: rule_of(rule),
        pick: id(pick),
        uses,
        makes,
    };
    Ok((Boxed::new(alloc, step)?, words))
}

fn line_of(alloc: Global, text: &str) -> Result<Line, AllocError> {
    let (kind, words) = cut(text, " ");
    let (first, more) = cut(words, " ");
    let (second, rest) = cut(more, " ");
    match kind {
        "A" => {
            let (step, expr) = step_of(alloc, more)?;
            Ok(Line::Adds(id(first), step, expr_of(alloc, expr)?))
        }
        "S" => {
            let (step, _) = step_of(alloc, rest)?;
            Ok(Line::Unites(id(first), id(second), step))
        }
        "G" => Ok(Line::Alike(id(first), id(second))),
        "L" => Ok(Line::Gives(id(first), id(second), fact_of(alloc, rest)?)),
        _ => Ok(Line::Founds(expr_of(alloc, words)?)),
    }
}

/// The lines of words.
pub fn lines_of(alloc: Global, text: &str) -> Result<Items<Line>, AllocError> {
    let mut lines = Items::new(alloc);
    for line in text.split("; ") {
        lines.push(line_of(alloc, line)?)?;
    }
    Ok(lines)
}

/// The expression of a line in words; one that no plan names where the line has none.
fn expression_of(alloc: Global, text: &str) -> Result<Expr, AllocError> {
    let (kind, words) = cut(text, " ");
    match kind {
        "A" => {
            let (_class, more) = cut(words, " ");
            let (_step, expr) = step_of(alloc, more)?;
            expr_of(alloc, expr)
        }
        "S" | "G" | "L" => Ok(Expr::Distinct(0)),
        _ => expr_of(alloc, words),
    }
}

/// The expression of each line, for plans that are read from words.
pub fn expressions_of(alloc: Global, text: &str) -> Result<Items<Expr>, AllocError> {
    let mut expressions = Items::new(alloc);
    for line in text.split("; ") {
        expressions.push(expression_of(alloc, line)?)?;
    }
    Ok(expressions)
}
