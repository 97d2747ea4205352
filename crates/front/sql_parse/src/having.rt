//! From tokens to the condition of HAVING, which may compare aggregates and has no subquery.

ghost use Rattle.std.specs.Prelude.{◌≡◌};
ghost use Rattle.grammar.specs.Grammars.{map, nested};
ghost use Rattle.values.specs.Faults.{Gives};
ghost use Rattle.sql_parse.specs.Sql as grammar;
ghost use Rattle.sql_parse.specs.Sql.{of_having};
ghost use Rattle.sql_parse.specs.StatementReading.{reads};

use crate::class::Class;
use crate::clauses::{aggregate, sees_aggregate};
use crate::fault::ParseReason;
use crate::reading::{Parsed, accept, column, expect, fault, followed, literal, operator_of, sees};
use crate::statement::{HavingCondition, HavingTerm, Operator};
use crate::token::{Keyword, Symbol, Token};
use std::alloc::Global;
use values::{Boxed, Items};

/// `column | aggregate | number | text | NULL`
#[tactic(auto, unfolding(crate::specs::Sql::a_having_term, crate::specs::Sql::a_column, crate::specs::Sql::a_name))]
fn term(alloc: Global, tokens: &[Token], end: usize, depth: usize) -> Parsed<'_, HavingTerm>
    ensures { Gives (λ x. (x.0, x.1.now)) result (reads end depth grammar.a_having_term tokens.now) }
{
    if sees(tokens, Class::Name) {
        let (column, rest) = column(alloc, tokens, end, depth)?;
        Ok((HavingTerm::Column(column), rest))
    } else if sees_aggregate(tokens) {
        let (call, rest) = aggregate(alloc, tokens, end, depth)?;
        Ok((HavingTerm::Aggregate(call), rest))
    } else {
        let (value, rest) = literal(alloc, tokens, end, depth)?;
        Ok((HavingTerm::Literal(value), rest))
    }
}

/// A comparison, from behind its operator.
fn comparison(
    alloc: Global,
    left: HavingTerm,
    by: Operator,
    tokens: &[Token],
    end: usize,
    depth: usize,
) -> Parsed<'_, HavingCondition>
    ensures { Gives (λ x. (x.0, x.1.now)) result (reads end depth (map (λ right. HavingCondition.Compare left by right) grammar.a_having_term) tokens.now) }
{
    let (right, rest) = term(alloc, tokens, end, depth)?;
    Ok((HavingCondition::Compare(left, by, right), rest))
}

/// `IS [NOT] NULL`
#[tactic(auto, unfolding(crate::specs::Sql::a_having_null_test))]
fn null_test(
    alloc: Global,
    left: HavingTerm,
    tokens: &[Token],
    end: usize,
    depth: usize,
) -> Parsed<'_, HavingCondition>
    ensures { Gives (λ x. (x.0, x.1.now)) result (reads end depth (map (λ test. test left) grammar.a_having_null_test) tokens.now) }
{
    let ((left, _), rest) = followed(left, tokens, end, Class::Keyword(Keyword::Is))?;
    if let Some((_, rest)) = accept(rest, end, Class::Keyword(Keyword::Not)) {
        let ((left, _), rest) = followed(left, rest, end, Class::Keyword(Keyword::Null))?;
        let test = Boxed::new(alloc, HavingCondition::IsNull(left))?;
        Ok((HavingCondition::Not(test), rest))
    } else {
        let ((left, _), rest) = followed(left, rest, end, Class::Keyword(Keyword::Null))?;
        Ok((HavingCondition::IsNull(left), rest))
    }
}

/// What stands behind a term.
#[tactic(auto, unfolding(crate::specs::Sql::a_having_test, crate::specs::Sql::a_having_comparison, crate::specs::Sql::an_operator))]
fn test(
    alloc: Global,
    left: HavingTerm,
    tokens: &[Token],
    end: usize,
    depth: usize,
) -> Parsed<'_, HavingCondition>
    ensures { Gives (λ x. (x.0, x.1.now)) result (reads end depth (map (λ test. test left) grammar.a_having_test) tokens.now) }
{
    if let Some((token, rest)) = accept(tokens, end, Class::Comparison) {
        comparison(alloc, left, operator_of(token), rest, end, depth)
    } else {
        null_test(alloc, left, tokens, end, depth)
    }
}

/// `term test`
#[tactic(auto, unfolding(crate::specs::Sql::a_having_tested))]
fn tested(alloc: Global, tokens: &[Token], end: usize, depth: usize) -> Parsed<'_, HavingCondition>
    ensures { Gives (λ x. (x.0, x.1.now)) result (reads end depth grammar.a_having_tested tokens.now) }
{
    let (left, rest) = term(alloc, tokens, end, depth)?;
    test(alloc, left, rest, end, depth)
}

/// `( condition )`
#[cycle(having)]
#[tactic(auto, using(crate::proofs::SqlLoops::opened))]
fn nested_condition(
    alloc: Global,
    tokens: &[Token],
    end: usize,
    depth: usize,
) -> Parsed<'_, HavingCondition>
    ensures { Gives (λ x. (x.0, x.1.now)) result (reads end depth (nested of_having) tokens.now) }
{
    let (_, rest) = expect(tokens, end, Class::Symbol(Symbol::OpenParenthesis))?;
    if depth == 0 {
        return Err(fault(ParseReason::TooDeep, tokens, end));
    }
    let (found, rest) = condition(alloc, rest, end, depth - 1)?;
    let ((found, _), rest) = followed(found, rest, end, Class::Symbol(Symbol::CloseParenthesis))?;
    Ok((found, rest))
}

/// `( condition ) | term test`
#[cycle(having)]
#[tactic(auto, unfolding(crate::specs::Sql::a_having_primary))]
fn primary(alloc: Global, tokens: &[Token], end: usize, depth: usize) -> Parsed<'_, HavingCondition>
    ensures { Gives (λ x. (x.0, x.1.now)) result (reads end depth grammar.a_having_primary tokens.now) }
{
    if sees(tokens, Class::Symbol(Symbol::OpenParenthesis)) {
        nested_condition(alloc, tokens, end, depth)
    } else {
        tested(alloc, tokens, end, depth)
    }
}

/// `[NOT] primary`
#[cycle(having)]
#[tactic(auto, unfolding(crate::specs::Sql::a_having_negation))]
fn negation(
    alloc: Global,
    tokens: &[Token],
    end: usize,
    depth: usize,
) -> Parsed<'_, HavingCondition>
    ensures { Gives (λ x. (x.0, x.1.now)) result (reads end depth grammar.a_having_negation tokens.now) }
{
    if let Some((_, rest)) = accept(tokens, end, Class::Keyword(Keyword::Not)) {
        let (found, rest) = primary(alloc, rest, end, depth)?;
        Ok((HavingCondition::Not(Boxed::new(alloc, found)?), rest))
    } else {
        primary(alloc, tokens, end, depth)
    }
}

/// The one condition, or all of them.
fn all_of(mut items: Items<HavingCondition>) -> HavingCondition
    ensures { result ≡ grammar.all_having items }
{
    if items.len() == 1 {
        match items.pop() {
            Some(only) => only,
            None => HavingCondition::And(items),
        }
    } else {
        HavingCondition::And(items)
    }
}

/// The one condition, or any of them.
fn any_of(mut items: Items<HavingCondition>) -> HavingCondition
    ensures { result ≡ grammar.any_having items }
{
    if items.len() == 1 {
        match items.pop() {
            Some(only) => only,
            None => HavingCondition::Or(items),
        }
    } else {
        HavingCondition::Or(items)
    }
}

/// `negation {AND negation}`
#[cycle(having)]
#[tactic(auto, unfolding(crate::specs::Sql::a_having_conjunction))]
fn conjunction(
    alloc: Global,
    tokens: &[Token],
    end: usize,
    depth: usize,
) -> Parsed<'_, HavingCondition>
    ensures { Gives (λ x. (x.0, x.1.now)) result (reads end depth grammar.a_having_conjunction tokens.now) }
{
    let mut all = Items::new(alloc);
    let mut rest = tokens;
    'negations: loop {
        let (found, behind) = negation(alloc, rest, end, depth)?;
        all.push(found)?;
        match accept(behind, end, Class::Keyword(Keyword::And)) {
            Some((_, next)) => rest = next,
            None => return Ok((all_of(all), behind)),
        }
    }
}

/// `conjunction {OR conjunction}`
#[cycle(having)]
#[tactic(auto, unfolding(crate::specs::Sql::a_having_condition))]
fn condition(
    alloc: Global,
    tokens: &[Token],
    end: usize,
    depth: usize,
) -> Parsed<'_, HavingCondition>
    ensures { Gives (λ x. (x.0, x.1.now)) result (reads end depth grammar.a_having_condition tokens.now) }
{
    let mut all = Items::new(alloc);
    let mut rest = tokens;
    'conjunctions: loop {
        let (found, behind) = conjunction(alloc, rest, end, depth)?;
        all.push(found)?;
        match accept(behind, end, Class::Keyword(Keyword::Or)) {
            Some((_, next)) => rest = next,
            None => return Ok((any_of(all), behind)),
        }
    }
}

/// `[HAVING condition]`
#[tactic(auto, unfolding(crate::specs::Sql::the_having))]
pub fn having(
    alloc: Global,
    tokens: &[Token],
    end: usize,
    depth: usize,
) -> Parsed<'_, Option<Boxed<HavingCondition>>>
    ensures { Gives (λ x. (x.0, x.1.now)) result (reads end depth grammar.the_having tokens.now) }
{
    if let Some((_, rest)) = accept(tokens, end, Class::Keyword(Keyword::Having)) {
        let (found, rest) = condition(alloc, rest, end, depth)?;
        Ok((Some(Boxed::new(alloc, found)?), rest))
    } else {
        Ok((None, tokens))
    }
}
