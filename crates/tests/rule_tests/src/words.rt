//! Lines read from words: `CLASS get INSTANCE`, `CLASS select INPUT CONDITIONS`, `join`, `left`, `semi` and `anti` of two inputs, `keep INPUT COLUMNS`,
//! `distinct INPUT`, `group INPUT COLUMNS`, and `count INPUT COLUMNS` with a count of the rows. Conditions are named by letters; behind `/` stand the
//! null-aware ones of an antijoin.

use algebra::{Aggregation, Aggregations, ClassId, Columns, Condition, Conjuncts, Expr, Term};
use derivation::Numbers;
use query::{Aggregate, ColumnId};
use rules::MatchedLine;
use std::alloc::{AllocError, Global};
use values::{Boxed, Comparison, Literal};

/// The number of a word; the greatest if it is none.
pub fn number(word: &str) -> u32 {
    match word.parse() {
        Ok(number) => number,
        Err(_) => u32::MAX,
    }
}

/// What stands before a text's first space, and after it.
pub fn cut(text: &str) -> (&str, &str) {
    match text.split_once(" ") {
        Some(parts) => parts,
        None => (text, ""),
    }
}

/// The numbers of a word, with `,` between them; none for `-`.
pub fn numbers_of(alloc: Global, word: &str) -> Result<Numbers, AllocError> {
    if word == "-" {
        return Ok(Numbers::none());
    }
    let mut numbers = Vec::new(alloc);
    for part in word.split(",") {
        numbers.push(number(part))?;
    }
    Numbers::from_slice(alloc, numbers.as_slice())
}

/// The set of the numbers of a text.
pub fn columns_of(alloc: Global, text: &str) -> Result<Columns, AllocError> {
    let mut columns = Vec::new(alloc);
    for word in text.split_whitespace() {
        columns.push(number(word))?;
    }
    Ok(Columns::from_vec(columns))
}

fn equal(first: ColumnId, second: ColumnId) -> Condition {
    Condition::Compare(Comparison::Equal, Term::Column(first), Term::Column(second))
}

fn is_seven(column: ColumnId) -> Condition {
    Condition::Compare(
        Comparison::Equal,
        Term::Column(column),
        Term::Literal(Literal::number(7)),
    )
}

/// The condition of a small letter: `l` and `r` read a column of the class 0 and of the class 1, `m` one of each, `t` and `u` one of the
/// class 0 and of the class 1 and one of the class 2; `n` is IS NULL of a column of the class 0, `e` its IN among the class 6; `z` and `w`
/// are IS NULL of the columns of the class 1; `x` is EXISTS of the class 6, which has the free column 2. `y` and `i` are EXISTS and IN of the class 2,
/// which has none; `f` asks it for a column that is another class's, `g` for one of its own for the other. `o` compares a column of the class 0 with
/// itself, `d` with NULL, and `k` a number with another one.
fn plain_condition(letter: char) -> Condition {
    match letter {
        'l' => is_seven(0),
        'r' => is_seven(2),
        'm' => equal(0, 2),
        't' => equal(0, 4),
        'u' => equal(2, 4),
        'o' => equal(0, 0),
        'd' => Condition::Compare(
            Comparison::Equal,
            Term::Column(0),
            Term::Literal(Literal::null()),
        ),
        'k' => Condition::Compare(
            Comparison::Equal,
            Term::Literal(Literal::number(1)),
            Term::Literal(Literal::number(2)),
        ),
        'n' => Condition::IsNull(Term::Column(0)),
        'z' => Condition::IsNull(Term::Column(2)),
        'w' => Condition::IsNull(Term::Column(3)),
        'e' => Condition::In(Term::Column(0), 6, 4),
        'i' => Condition::In(Term::Column(0), 2, 4),
        'f' => Condition::In(Term::Column(0), 2, 3),
        'g' => Condition::In(Term::Column(4), 2, 5),
        'y' => Condition::Exists(2),
        _ => Condition::Exists(6),
    }
}

/// The condition of a letter: of some capital ones NOT over that of the small one.
pub fn condition_of(alloc: Global, letter: char) -> Result<Condition, AllocError> {
    let denied = match letter {
        'E' => 'e',
        'F' => 'f',
        'G' => 'g',
        'I' => 'i',
        'L' => 'l',
        'X' => 'x',
        'Y' => 'y',
        _ => return Ok(plain_condition(letter)),
    };
    Ok(Condition::Not(Boxed::new(alloc, plain_condition(denied))?))
}

fn conjuncts_of(alloc: Global, letters: &str) -> Result<Conjuncts, AllocError> {
    let mut conditions = Vec::new(alloc);
    for letter in letters.chars() {
        conditions.push(condition_of(alloc, letter)?)?;
    }
    Conjuncts::of(alloc, conditions.as_slice())
}

/// The aggregates of a group with a count of the rows.
fn count(alloc: Global) -> Result<Aggregations, AllocError> {
    Aggregations::of(
        alloc,
        &[Aggregation {
            column: 9,
            aggregate: Aggregate::CountRows,
        }],
    )
}

/// An expression over two classes.
fn joined(alloc: Global, name: &str, words: &str) -> Result<Expr, AllocError> {
    let (left, words) = cut(words);
    let (right, letters) = cut(words);
    let (letters, null_aware) = letters.split_once("/").unwrap_or((letters, ""));
    let conjuncts = conjuncts_of(alloc, letters)?;
    let (left, right) = (number(left), number(right));
    Ok(match name {
        "join" => Expr::Join(conjuncts, left, right),
        "left" => Expr::LeftJoin(conjuncts, left, right),
        "semi" => Expr::Semi(conjuncts, left, right),
        _ => Expr::Anti(conjuncts, conjuncts_of(alloc, null_aware)?, left, right),
    })
}

/// An expression over one class.
fn over_one(alloc: Global, name: &str, words: &str) -> Result<Expr, AllocError> {
    let (input, more) = cut(words);
    let input = number(input);
    Ok(match name {
        "get" => Expr::Get(input),
        "select" => Expr::Select(conjuncts_of(alloc, more)?, input),
        "keep" => Expr::Keep(columns_of(alloc, more)?, input),
        "group" => Expr::Group(
            columns_of(alloc, more)?,
            Aggregations::of(alloc, &[])?,
            input,
        ),
        "count" => Expr::Group(columns_of(alloc, more)?, count(alloc)?, input),
        _ => Expr::Distinct(input),
    })
}

/// The class and the expression of a line.
pub fn line_of(alloc: Global, text: &str) -> Result<(ClassId, Expr), AllocError> {
    let (class, words) = cut(text);
    let (name, words) = cut(words);
    let expr = match name {
        "join" | "left" | "semi" | "anti" => joined(alloc, name, words)?,
        _ => over_one(alloc, name, words)?,
    };
    Ok((number(class), expr))
}

/// The lines of a text, with `,` between them.
pub fn lines_of(alloc: Global, text: &str) -> Result<Vec<(ClassId, Expr)>, AllocError> {
    let mut lines = Vec::new(alloc);
    for words in text.split(", ") {
        lines.push(line_of(alloc, words)?)?;
    }
    Ok(lines)
}

/// The lines as rules take them.
pub fn matched_lines<'a>(
    alloc: Global,
    lines: &'a [(ClassId, Expr)],
) -> Result<Vec<MatchedLine<'a>>, AllocError> {
    let mut matched = Vec::new(alloc);
    for line in lines {
        matched.push(MatchedLine {
            class: line.0,
            expr: &line.1,
        })?;
    }
    Ok(matched)
}
