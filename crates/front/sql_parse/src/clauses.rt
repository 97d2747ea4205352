//! From tokens to what stands behind SELECT, GROUP BY and ORDER BY.

ghost use Rattle.std.specs.Prelude.{◌≡◌};
ghost use Rattle.grammar.specs.Grammars.{nested};
ghost use Rattle.grammar.specs.Readers.{sees as sees_next, first};
ghost use Rattle.values.specs.Faults.{Gives};
ghost use Rattle.sql_parse.specs.Sql as grammar;
ghost use Rattle.sql_parse.specs.Sql.{sql, of_count, of_column};
ghost use Rattle.sql_parse.specs.StatementReading.{reads};

use crate::class::Class;
use crate::fault::ParseReason;
use crate::reading::{Parsed, accept, alias, column, columns, expect, fault, followed, sees};
use crate::statement::{
    AggregateCall, AggregateFunction, ColumnName, ItemValue, OrderKey, SelectItem, SelectList,
};
use crate::token::{Keyword, Symbol, Token};
use std::alloc::Global;
use values::Items;

/// `* | column`
#[tactic(auto, unfolding(crate::specs::Sql::a_count))]
fn counted(
    alloc: Global,
    tokens: &[Token],
    end: usize,
    depth: usize,
) -> Parsed<'_, Option<ColumnName>>
    ensures { Gives (λ x. (x.0, x.1.now)) result (reads end depth grammar.a_count tokens.now) }
{
    if let Some((_, rest)) = accept(tokens, end, Class::Symbol(Symbol::Star)) {
        Ok((None, rest))
    } else {
        let (found, rest) = column(alloc, tokens, end, depth)?;
        Ok((Some(found), rest))
    }
}

/// `( * | column )`
#[tactic(auto, using(crate::proofs::SqlLoops::opened))]
fn count_argument(
    alloc: Global,
    tokens: &[Token],
    end: usize,
    depth: usize,
) -> Parsed<'_, Option<ColumnName>>
    ensures { Gives (λ x. (x.0, x.1.now)) result (reads end depth (nested of_count) tokens.now) }
{
    let (_, rest) = expect(tokens, end, Class::Symbol(Symbol::OpenParenthesis))?;
    if depth == 0 {
        return Err(fault(ParseReason::TooDeep, tokens, end));
    }
    let (found, rest) = counted(alloc, rest, end, depth - 1)?;
    let ((found, _), rest) = followed(found, rest, end, Class::Symbol(Symbol::CloseParenthesis))?;
    Ok((found, rest))
}

/// `( column )`
#[tactic(auto, using(crate::proofs::SqlLoops::opened))]
fn column_argument(
    alloc: Global,
    tokens: &[Token],
    end: usize,
    depth: usize,
) -> Parsed<'_, ColumnName>
    ensures { Gives (λ x. (x.0, x.1.now)) result (reads end depth (nested of_column) tokens.now) }
{
    let (_, rest) = expect(tokens, end, Class::Symbol(Symbol::OpenParenthesis))?;
    if depth == 0 {
        return Err(fault(ParseReason::TooDeep, tokens, end));
    }
    let (found, rest) = column(alloc, rest, end, depth - 1)?;
    let ((found, _), rest) = followed(found, rest, end, Class::Symbol(Symbol::CloseParenthesis))?;
    Ok((found, rest))
}

/// `SUM ( column )` and its like.
fn aggregate_by(
    alloc: Global,
    tokens: &[Token],
    end: usize,
    depth: usize,
    word: Keyword,
    function: AggregateFunction,
) -> Parsed<'_, AggregateCall>
    ensures { Gives (λ x. (x.0, x.1.now)) result (reads end depth (grammar.an_aggregate_by word function) tokens.now) }
{
    let (token, rest) = expect(tokens, end, Class::Keyword(word))?;
    let (column, rest) = column_argument(alloc, rest, end, depth)?;
    let call = AggregateCall {
        function,
        at: token.at,
        column: Some(column),
    };
    Ok((call, rest))
}

/// Whether an aggregate comes next.
#[tactic(auto, unfolding(crate::specs::Sql::an_aggregate))]
pub fn sees_aggregate(tokens: &[Token]) -> bool
    ensures { result ≡ sees_next sql (first sql grammar.an_aggregate) tokens.now }
{
    sees(tokens, Class::Keyword(Keyword::Count))
        || sees(tokens, Class::Keyword(Keyword::Sum))
        || sees(tokens, Class::Keyword(Keyword::Min))
        || sees(tokens, Class::Keyword(Keyword::Max))
}

/// `COUNT ( * ) | (COUNT | SUM | MIN | MAX) ( column )`
#[tactic(auto, unfolding(crate::specs::Sql::an_aggregate))]
pub fn aggregate(
    alloc: Global,
    tokens: &[Token],
    end: usize,
    depth: usize,
) -> Parsed<'_, AggregateCall>
    ensures { Gives (λ x. (x.0, x.1.now)) result (reads end depth grammar.an_aggregate tokens.now) }
{
    if let Some((token, rest)) = accept(tokens, end, Class::Keyword(Keyword::Count)) {
        let (column, rest) = count_argument(alloc, rest, end, depth)?;
        let call = AggregateCall {
            function: AggregateFunction::Count,
            at: token.at,
            column,
        };
        Ok((call, rest))
    } else if sees(tokens, Class::Keyword(Keyword::Sum)) {
        aggregate_by(
            alloc,
            tokens,
            end,
            depth,
            Keyword::Sum,
            AggregateFunction::Sum,
        )
    } else if sees(tokens, Class::Keyword(Keyword::Min)) {
        aggregate_by(
            alloc,
            tokens,
            end,
            depth,
            Keyword::Min,
            AggregateFunction::Min,
        )
    } else {
        aggregate_by(
            alloc,
            tokens,
            end,
            depth,
            Keyword::Max,
            AggregateFunction::Max,
        )
    }
}

/// `column | aggregate`
#[tactic(auto, unfolding(crate::specs::Sql::an_item_value, crate::specs::Sql::a_column, crate::specs::Sql::a_name))]
fn item_value(alloc: Global, tokens: &[Token], end: usize, depth: usize) -> Parsed<'_, ItemValue>
    ensures { Gives (λ x. (x.0, x.1.now)) result (reads end depth grammar.an_item_value tokens.now) }
{
    if sees(tokens, Class::Name) {
        let (column, rest) = column(alloc, tokens, end, depth)?;
        Ok((ItemValue::Column(column), rest))
    } else {
        let (call, rest) = aggregate(alloc, tokens, end, depth)?;
        Ok((ItemValue::Aggregate(call), rest))
    }
}

/// `value [[AS] name]`
#[tactic(auto, unfolding(crate::specs::Sql::an_item))]
fn item(alloc: Global, tokens: &[Token], end: usize, depth: usize) -> Parsed<'_, SelectItem>
    ensures { Gives (λ x. (x.0, x.1.now)) result (reads end depth grammar.an_item tokens.now) }
{
    let (value, rest) = item_value(alloc, tokens, end, depth)?;
    let (alias, rest) = alias(alloc, rest, end, depth)?;
    Ok((SelectItem { value, alias }, rest))
}

/// `* | item {, item}`
#[tactic(auto, unfolding(crate::specs::Sql::a_list))]
pub fn list(alloc: Global, tokens: &[Token], end: usize, depth: usize) -> Parsed<'_, SelectList>
    ensures { Gives (λ x. (x.0, x.1.now)) result (reads end depth grammar.a_list tokens.now) }
{
    if let Some((token, rest)) = accept(tokens, end, Class::Symbol(Symbol::Star)) {
        return Ok((SelectList::Star(token.at), rest));
    }
    let mut all = Items::new(alloc);
    let mut rest = tokens;
    'items: loop {
        let (found, behind) = item(alloc, rest, end, depth)?;
        all.push(found)?;
        match accept(behind, end, Class::Symbol(Symbol::Comma)) {
            Some((_, next)) => rest = next,
            None => return Ok((SelectList::Items(all), behind)),
        }
    }
}

/// `SELECT [DISTINCT]`
#[tactic(auto, unfolding(crate::specs::Sql::a_head))]
pub fn head(tokens: &[Token], end: usize, depth: usize) -> Parsed<'_, bool>
    ensures { Gives (λ x. (x.0, x.1.now)) result (reads end depth grammar.a_head tokens.now) }
{
    let (_, rest) = expect(tokens, end, Class::Keyword(Keyword::Select))?;
    if let Some((_, rest)) = accept(rest, end, Class::Keyword(Keyword::Distinct)) {
        Ok((true, rest))
    } else {
        Ok((false, rest))
    }
}

/// `[GROUP BY column {, column}]`
#[tactic(auto, unfolding(crate::specs::Sql::a_group))]
pub fn group(
    alloc: Global,
    tokens: &[Token],
    end: usize,
    depth: usize,
) -> Parsed<'_, Items<ColumnName>>
    ensures { Gives (λ x. (x.0, x.1.now)) result (reads end depth grammar.a_group tokens.now) }
{
    if let Some((_, rest)) = accept(tokens, end, Class::Keyword(Keyword::Group)) {
        let (_, rest) = expect(rest, end, Class::Keyword(Keyword::By))?;
        columns(alloc, rest, end, depth)
    } else {
        Ok((Items::new(alloc), tokens))
    }
}

/// `[ASC | DESC]`: whether the order falls.
#[tactic(auto, unfolding(crate::specs::Sql::a_direction))]
fn direction(tokens: &[Token], end: usize, depth: usize) -> Parsed<'_, bool>
    ensures { Gives (λ x. (x.0, x.1.now)) result (reads end depth grammar.a_direction tokens.now) }
{
    if let Some((_, rest)) = accept(tokens, end, Class::Keyword(Keyword::Desc)) {
        Ok((true, rest))
    } else if let Some((_, rest)) = accept(tokens, end, Class::Keyword(Keyword::Asc)) {
        Ok((false, rest))
    } else {
        Ok((false, tokens))
    }
}

/// `column [ASC | DESC]`
#[tactic(auto, unfolding(crate::specs::Sql::a_key))]
fn key(alloc: Global, tokens: &[Token], end: usize, depth: usize) -> Parsed<'_, OrderKey>
    ensures { Gives (λ x. (x.0, x.1.now)) result (reads end depth grammar.a_key tokens.now) }
{
    let (column, rest) = column(alloc, tokens, end, depth)?;
    let (descending, rest) = direction(rest, end, depth)?;
    Ok((OrderKey { column, descending }, rest))
}

/// `[ORDER BY key {, key}]`
#[tactic(auto, unfolding(crate::specs::Sql::an_order))]
pub fn order_by(
    alloc: Global,
    tokens: &[Token],
    end: usize,
    depth: usize,
) -> Parsed<'_, Items<OrderKey>>
    ensures { Gives (λ x. (x.0, x.1.now)) result (reads end depth grammar.an_order tokens.now) }
{
    let Some((_, rest)) = accept(tokens, end, Class::Keyword(Keyword::Order)) else {
        return Ok((Items::new(alloc), tokens));
    };
    let (_, mut rest) = expect(rest, end, Class::Keyword(Keyword::By))?;
    let mut all = Items::new(alloc);
    'keys: loop {
        let (found, behind) = key(alloc, rest, end, depth)?;
        all.push(found)?;
        match accept(behind, end, Class::Symbol(Symbol::Comma)) {
            Some((_, next)) => rest = next,
            None => return Ok((all, behind)),
        }
    }
}
