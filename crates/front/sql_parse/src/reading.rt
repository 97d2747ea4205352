//! From tokens to the parts of a statement that hold no condition. The readers take the tokens that are left, `end`, the
//! place of the text's end, and `depth`, how many parentheses may still be opened.

ghost use Rattle.std.specs.Prelude.{◌≡◌, ◌∷◌, [], is_some, IfOk, IfSome, Ok};
ghost use Rattle.grammar.specs.Readers.{one, sees as sees_next, first, member};
ghost use Rattle.values.specs.Faults.{Gives};
ghost use Rattle.values.specs.declared.fault.Fault.TheVariants.{Refused};
ghost use Rattle.sql_parse.specs.Classes.{class_number, kind_number};
ghost use Rattle.sql_parse.specs.Sql as grammar;
ghost use Rattle.sql_parse.specs.Sql.{sql, a_literal};
ghost use Rattle.sql_parse.specs.StatementReading as spec;
ghost use Rattle.sql_parse.specs.StatementReading.{reported, reads};

use crate::class::{Class, number_of};
use crate::fault::{ParseFault, ParseReason, refused};
use crate::name::Name;
use crate::statement::{ColumnName, Operator, TableName, Term};
use crate::token::{Keyword, Symbol, Token, TokenKind};
use std::alloc::{AllocError, Global};
use values::{Comparison, Items, Literal, Text};

/// What is read, and the tokens behind it.
pub type Parsed<'t, A> = Result<(A, &'t [Token]), ParseFault>;

/// The fault of what stands next.
pub fn fault(reason: ParseReason, tokens: &[Token], end: usize) -> ParseFault
    ensures { result ≡ Refused (record { reason = reason; at = spec.place end tokens.now }) }
{
    match tokens {
        [] => refused(reason, end),
        [token, ..] => refused(reason, token.at),
    }
}

/// Whether the next token is of the class.
pub fn sees(tokens: &[Token], class: Class) -> bool
    ensures { result ≡ sees_next sql (class_number class ∷ []) tokens.now }
{
    match tokens {
        [] => false,
        [token, ..] => number_of(&token.kind) == class.number(),
    }
}

/// The next token and those behind it, if it is of the class.
pub fn accept(tokens: &[Token], end: usize, class: Class) -> Option<(&Token, &[Token])>
    ensures sees { is_some result ≡ sees_next sql (class_number class ∷ []) tokens.now }
    ensures next { IfSome result (λ x. one sql (reported end) (class_number class) tokens.now ≡ Ok (x.0.now, x.1.now)) }
{
    match tokens {
        [token, behind @ ..] if number_of(&token.kind) == class.number() => Some((token, behind)),
        _ => None,
    }
}

/// The next token, which has to be of the class.
pub fn expect(tokens: &[Token], end: usize, class: Class) -> Parsed<'_, &Token>
    ensures { Gives (λ x. (x.0.now, x.1.now)) result (one sql (reported end) (class_number class) tokens.now) }
{
    match tokens {
        [token, behind @ ..] if number_of(&token.kind) == class.number() => Ok((token, behind)),
        _ => Err(fault(ParseReason::Unexpected, tokens, end)),
    }
}

/// What was read, and the next token, which has to be of the class.
pub fn followed<T: Drop>(
    found: T,
    tokens: &[Token],
    end: usize,
    class: Class,
) -> Parsed<'_, (T, &Token)>
    ensures found { IfOk result (λ x. x.0.0 ≡ found) }
    ensures next { Gives (λ x. (x.0.1.now, x.1.now)) result (one sql (reported end) (class_number class) tokens.now) }
{
    let (token, rest) = expect(tokens, end, class)?;
    Ok(((found, token), rest))
}

/// The name that a name token is.
fn name_of(alloc: Global, token: &Token) -> Result<Name, AllocError>
    ensures { IfOk result (λ name. name ≡ grammar.name_of token.now) }
{
    let text = match &token.kind {
        TokenKind::Name(text) => text.copy(alloc)?,
        _ => Text::new(String::new(alloc)),
    };
    Ok(Name { text, at: token.at })
}

/// The value that a literal token is.
fn value_in(alloc: Global, kind: &TokenKind) -> Result<Literal, AllocError>
    ensures { IfOk result (λ value. value ≡ grammar.value_in kind.now) }
{
    match kind {
        TokenKind::Number(number) => Ok(Literal::number(*number)),
        TokenKind::Text(text) => Ok(Literal::text(text.copy(alloc)?)),
        _ => Ok(Literal::null()),
    }
}

/// Whether a token is a literal.
#[tactic(auto, unfolding(crate::specs::Sql::a_literal))]
fn is_literal(kind: &TokenKind) -> bool
    ensures { result ≡ member (kind_number kind.now) (first sql a_literal) }
{
    matches!(
        kind,
        TokenKind::Number(_) | TokenKind::Text(_) | TokenKind::Keyword(Keyword::Null)
    )
}

/// The comparison that a comparison token is.
fn comparison_in(kind: &TokenKind) -> Comparison
    ensures { result ≡ grammar.comparison_in kind.now }
{
    match kind {
        TokenKind::Comparison(comparison) => *comparison,
        _ => Comparison::Equal,
    }
}

#[tactic(auto, unfolding(crate::specs::Sql::a_name))]
pub fn name(alloc: Global, tokens: &[Token], end: usize, depth: usize) -> Parsed<'_, Name>
    ensures { Gives (λ x. (x.0, x.1.now)) result (reads end depth grammar.a_name tokens.now) }
{
    let (token, rest) = expect(tokens, end, Class::Name)?;
    Ok((name_of(alloc, token)?, rest))
}

/// `number | text | NULL`
#[tactic(auto, unfolding(crate::specs::Sql::a_literal))]
pub fn literal(alloc: Global, tokens: &[Token], end: usize, depth: usize) -> Parsed<'_, Literal>
    ensures { Gives (λ x. (x.0, x.1.now)) result (reads end depth grammar.a_literal tokens.now) }
{
    match tokens {
        [token, rest @ ..] if is_literal(&token.kind) => Ok((value_in(alloc, &token.kind)?, rest)),
        _ => Err(fault(ParseReason::Unexpected, tokens, end)),
    }
}

/// The operator that a comparison token is.
pub fn operator_of(token: &Token) -> Operator
    ensures { result ≡ record { comparison = grammar.comparison_in token.now.kind; at = token.now.at } }
{
    Operator {
        comparison: comparison_in(&token.kind),
        at: token.at,
    }
}

/// `name [. name]`
#[tactic(auto, unfolding(crate::specs::Sql::a_column))]
pub fn column(alloc: Global, tokens: &[Token], end: usize, depth: usize) -> Parsed<'_, ColumnName>
    ensures { Gives (λ x. (x.0, x.1.now)) result (reads end depth grammar.a_column tokens.now) }
{
    let (first, rest) = name(alloc, tokens, end, depth)?;
    if let Some((_, rest)) = accept(rest, end, Class::Symbol(Symbol::Dot)) {
        let (second, rest) = name(alloc, rest, end, depth)?;
        let column = ColumnName {
            table: Some(first),
            name: second,
        };
        Ok((column, rest))
    } else {
        let column = ColumnName {
            table: None,
            name: first,
        };
        Ok((column, rest))
    }
}

/// `[[AS] name]`
#[tactic(auto, unfolding(crate::specs::Sql::an_alias, crate::specs::Sql::a_name))]
pub fn alias(alloc: Global, tokens: &[Token], end: usize, depth: usize) -> Parsed<'_, Option<Name>>
    ensures { Gives (λ x. (x.0, x.1.now)) result (reads end depth grammar.an_alias tokens.now) }
{
    let rest = match accept(tokens, end, Class::Keyword(Keyword::As)) {
        Some((_, rest)) => rest,
        None if sees(tokens, Class::Name) => tokens,
        None => return Ok((None, tokens)),
    };
    let (found, rest) = name(alloc, rest, end, depth)?;
    Ok((Some(found), rest))
}

/// `name [[AS] name]`
#[tactic(auto, unfolding(crate::specs::Sql::a_table))]
pub fn table(alloc: Global, tokens: &[Token], end: usize, depth: usize) -> Parsed<'_, TableName>
    ensures { Gives (λ x. (x.0, x.1.now)) result (reads end depth grammar.a_table tokens.now) }
{
    let (name, rest) = name(alloc, tokens, end, depth)?;
    let (alias, rest) = alias(alloc, rest, end, depth)?;
    Ok((TableName { name, alias }, rest))
}

/// `column | number | text | NULL`
#[tactic(auto, unfolding(crate::specs::Sql::a_term, crate::specs::Sql::a_column, crate::specs::Sql::a_name))]
pub fn term(alloc: Global, tokens: &[Token], end: usize, depth: usize) -> Parsed<'_, Term>
    ensures { Gives (λ x. (x.0, x.1.now)) result (reads end depth grammar.a_term tokens.now) }
{
    if sees(tokens, Class::Name) {
        let (column, rest) = column(alloc, tokens, end, depth)?;
        Ok((Term::Column(column), rest))
    } else {
        let (value, rest) = literal(alloc, tokens, end, depth)?;
        Ok((Term::Literal(value), rest))
    }
}

/// `column {, column}`
#[tactic(auto, unfolding(crate::specs::Sql::the_columns))]
pub fn columns(
    alloc: Global,
    tokens: &[Token],
    end: usize,
    depth: usize,
) -> Parsed<'_, Items<ColumnName>>
    ensures { Gives (λ x. (x.0, x.1.now)) result (reads end depth grammar.the_columns tokens.now) }
{
    let mut all = Items::new(alloc);
    let mut rest = tokens;
    'columns: loop {
        let (found, behind) = column(alloc, rest, end, depth)?;
        all.push(found)?;
        match accept(behind, end, Class::Symbol(Symbol::Comma)) {
            Some((_, next)) => rest = next,
            None => return Ok((all, behind)),
        }
    }
}
