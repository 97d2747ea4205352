//! From tokens to conditions and SELECTs, which hold one another between parentheses.

ghost use Rattle.std.specs.Prelude.{◌≡◌};
ghost use Rattle.grammar.specs.Grammars.{map, nested};
ghost use Rattle.grammar.specs.Readers.{sees as sees_next, first};
ghost use Rattle.values.specs.Faults.{Gives};
ghost use Rattle.sql_parse.specs.Sql as grammar;
ghost use Rattle.sql_parse.specs.Sql.{sql, of_condition, of_select};
ghost use Rattle.sql_parse.specs.StatementReading.{reads};

use crate::class::{Class, Clause};
use crate::clauses::{group, head, list};
use crate::fault::ParseReason;
use crate::having::having;
use crate::reading::{Parsed, accept, expect, fault, followed, operator_of, sees, table, term};
use crate::statement::{Chain, Condition, Join, JoinKind, Operator, Select, Term};
use crate::token::{Keyword, Symbol, Token};
use std::alloc::Global;
use values::{Boxed, Items};

/// `( condition )`
#[cycle(conditions)]
#[tactic(auto, using(crate::proofs::SqlLoops::opened))]
fn nested_condition(
    alloc: Global,
    clause: Clause,
    tokens: &[Token],
    end: usize,
    depth: usize,
) -> Parsed<'_, Condition>
    ensures { Gives (λ x. (x.0, x.1.now)) result (reads end depth (nested (of_condition clause)) tokens.now) }
{
    let (_, rest) = expect(tokens, end, Class::Symbol(Symbol::OpenParenthesis))?;
    if depth == 0 {
        return Err(fault(ParseReason::TooDeep, tokens, end));
    }
    let (found, rest) = condition(alloc, clause, rest, end, depth - 1)?;
    let ((found, _), rest) = followed(found, rest, end, Class::Symbol(Symbol::CloseParenthesis))?;
    Ok((found, rest))
}

/// `( select )`
#[cycle(conditions)]
#[tactic(auto, using(crate::proofs::SqlLoops::opened))]
fn nested_select(
    alloc: Global,
    tokens: &[Token],
    end: usize,
    depth: usize,
) -> Parsed<'_, Boxed<Select>>
    ensures { Gives (λ x. (x.0, x.1.now)) result (reads end depth (nested of_select) tokens.now) }
{
    let (_, rest) = expect(tokens, end, Class::Symbol(Symbol::OpenParenthesis))?;
    if depth == 0 {
        return Err(fault(ParseReason::TooDeep, tokens, end));
    }
    let (found, rest) = select(alloc, rest, end, depth - 1)?;
    let ((found, _), rest) = followed(found, rest, end, Class::Symbol(Symbol::CloseParenthesis))?;
    Ok((Boxed::new(alloc, found)?, rest))
}

/// A comparison, from behind its operator.
fn comparison(
    alloc: Global,
    left: Term,
    by: Operator,
    tokens: &[Token],
    end: usize,
    depth: usize,
) -> Parsed<'_, Condition>
    ensures { Gives (λ x. (x.0, x.1.now)) result (reads end depth (map (λ right. Condition.Compare left by right) grammar.a_term) tokens.now) }
{
    let (right, rest) = term(alloc, tokens, end, depth)?;
    Ok((Condition::Compare(left, by, right), rest))
}

/// `IS [NOT] NULL`
#[tactic(auto, unfolding(crate::specs::Sql::a_null_test))]
fn null_test(
    alloc: Global,
    left: Term,
    tokens: &[Token],
    end: usize,
    depth: usize,
) -> Parsed<'_, Condition>
    ensures { Gives (λ x. (x.0, x.1.now)) result (reads end depth (map (λ test. test left) grammar.a_null_test) tokens.now) }
{
    let ((left, _), rest) = followed(left, tokens, end, Class::Keyword(Keyword::Is))?;
    if let Some((_, rest)) = accept(rest, end, Class::Keyword(Keyword::Not)) {
        let ((left, _), rest) = followed(left, rest, end, Class::Keyword(Keyword::Null))?;
        let test = Boxed::new(alloc, Condition::IsNull(left))?;
        Ok((Condition::Not(test), rest))
    } else {
        let ((left, _), rest) = followed(left, rest, end, Class::Keyword(Keyword::Null))?;
        Ok((Condition::IsNull(left), rest))
    }
}

/// `IN ( select )`
#[cycle(conditions)]
#[tactic(auto, unfolding(crate::specs::Sql::a_membership))]
fn membership(
    alloc: Global,
    left: Term,
    tokens: &[Token],
    end: usize,
    depth: usize,
) -> Parsed<'_, Condition>
    ensures { Gives (λ x. (x.0, x.1.now)) result (reads end depth (map (λ test. test left) grammar.a_membership) tokens.now) }
{
    let (token, rest) = expect(tokens, end, Class::Keyword(Keyword::In))?;
    let (query, rest) = nested_select(alloc, rest, end, depth)?;
    Ok((Condition::In(left, token.at, query), rest))
}

/// `NOT IN ( select )`
#[cycle(conditions)]
#[tactic(auto, unfolding(crate::specs::Sql::a_missing, crate::specs::Sql::a_membership))]
fn missing(
    alloc: Global,
    left: Term,
    tokens: &[Token],
    end: usize,
    depth: usize,
) -> Parsed<'_, Condition>
    ensures { Gives (λ x. (x.0, x.1.now)) result (reads end depth (map (λ test. test left) grammar.a_missing) tokens.now) }
{
    let ((left, _), rest) = followed(left, tokens, end, Class::Keyword(Keyword::Not))?;
    let (test, rest) = membership(alloc, left, rest, end, depth)?;
    Ok((Condition::Not(Boxed::new(alloc, test)?), rest))
}

/// What stands behind a term in a WHERE.
#[cycle(conditions)]
#[tactic(auto, unfolding(crate::specs::Sql::a_test, crate::specs::Sql::a_comparison, crate::specs::Sql::an_operator, crate::specs::Sql::a_null_test, crate::specs::Sql::a_missing, crate::specs::Sql::a_membership))]
fn filter_test(
    alloc: Global,
    left: Term,
    tokens: &[Token],
    end: usize,
    depth: usize,
) -> Parsed<'_, Condition>
    ensures { Gives (λ x. (x.0, x.1.now)) result (reads end depth (map (λ test. test left) (grammar.a_test Clause.Where)) tokens.now) }
{
    if let Some((token, rest)) = accept(tokens, end, Class::Comparison) {
        comparison(alloc, left, operator_of(token), rest, end, depth)
    } else if sees(tokens, Class::Keyword(Keyword::Is)) {
        null_test(alloc, left, tokens, end, depth)
    } else if sees(tokens, Class::Keyword(Keyword::Not)) {
        missing(alloc, left, tokens, end, depth)
    } else {
        membership(alloc, left, tokens, end, depth)
    }
}

/// What stands behind a term in an ON.
#[tactic(auto, unfolding(crate::specs::Sql::a_test, crate::specs::Sql::a_comparison, crate::specs::Sql::an_operator))]
fn join_test(
    alloc: Global,
    left: Term,
    tokens: &[Token],
    end: usize,
    depth: usize,
) -> Parsed<'_, Condition>
    ensures { Gives (λ x. (x.0, x.1.now)) result (reads end depth (map (λ test. test left) (grammar.a_test Clause.On)) tokens.now) }
{
    if let Some((token, rest)) = accept(tokens, end, Class::Comparison) {
        comparison(alloc, left, operator_of(token), rest, end, depth)
    } else {
        null_test(alloc, left, tokens, end, depth)
    }
}

/// `term test`
#[cycle(conditions)]
#[tactic(auto, unfolding(crate::specs::Sql::a_tested))]
fn tested(
    alloc: Global,
    clause: Clause,
    tokens: &[Token],
    end: usize,
    depth: usize,
) -> Parsed<'_, Condition>
    ensures { Gives (λ x. (x.0, x.1.now)) result (reads end depth (grammar.a_tested clause) tokens.now) }
{
    let (left, rest) = term(alloc, tokens, end, depth)?;
    match clause {
        Clause::Where => filter_test(alloc, left, rest, end, depth),
        Clause::On => join_test(alloc, left, rest, end, depth),
    }
}

/// `EXISTS ( select )`
#[cycle(conditions)]
#[tactic(auto, unfolding(crate::specs::Sql::an_existence))]
fn existence(alloc: Global, tokens: &[Token], end: usize, depth: usize) -> Parsed<'_, Condition>
    ensures { Gives (λ x. (x.0, x.1.now)) result (reads end depth grammar.an_existence tokens.now) }
{
    let (_, rest) = expect(tokens, end, Class::Keyword(Keyword::Exists))?;
    let (query, rest) = nested_select(alloc, rest, end, depth)?;
    Ok((Condition::Exists(query), rest))
}

/// `( condition ) | EXISTS ( select ) | term test`, EXISTS in a WHERE alone.
#[cycle(conditions)]
#[tactic(auto, unfolding(crate::specs::Sql::a_primary, crate::specs::Sql::an_existence))]
fn primary(
    alloc: Global,
    clause: Clause,
    tokens: &[Token],
    end: usize,
    depth: usize,
) -> Parsed<'_, Condition>
    ensures { Gives (λ x. (x.0, x.1.now)) result (reads end depth (grammar.a_primary clause) tokens.now) }
{
    if sees(tokens, Class::Symbol(Symbol::OpenParenthesis)) {
        return nested_condition(alloc, clause, tokens, end, depth);
    }
    match clause {
        Clause::Where => {
            if sees(tokens, Class::Keyword(Keyword::Exists)) {
                existence(alloc, tokens, end, depth)
            } else {
                tested(alloc, clause, tokens, end, depth)
            }
        }
        Clause::On => tested(alloc, clause, tokens, end, depth),
    }
}

/// `[NOT] primary`
#[cycle(conditions)]
#[tactic(auto, unfolding(crate::specs::Sql::a_negation))]
fn negation(
    alloc: Global,
    clause: Clause,
    tokens: &[Token],
    end: usize,
    depth: usize,
) -> Parsed<'_, Condition>
    ensures { Gives (λ x. (x.0, x.1.now)) result (reads end depth (grammar.a_negation clause) tokens.now) }
{
    if let Some((_, rest)) = accept(tokens, end, Class::Keyword(Keyword::Not)) {
        let (found, rest) = primary(alloc, clause, rest, end, depth)?;
        Ok((Condition::Not(Boxed::new(alloc, found)?), rest))
    } else {
        primary(alloc, clause, tokens, end, depth)
    }
}

/// The one condition, or all of them.
fn all_of(mut items: Items<Condition>) -> Condition
    ensures { result ≡ grammar.all_of items }
{
    if items.len() == 1 {
        match items.pop() {
            Some(only) => only,
            None => Condition::And(items),
        }
    } else {
        Condition::And(items)
    }
}

/// The one condition, or any of them.
fn any_of(mut items: Items<Condition>) -> Condition
    ensures { result ≡ grammar.any_of items }
{
    if items.len() == 1 {
        match items.pop() {
            Some(only) => only,
            None => Condition::Or(items),
        }
    } else {
        Condition::Or(items)
    }
}

/// `negation {AND negation}`
#[cycle(conditions)]
#[tactic(auto, unfolding(crate::specs::Sql::a_conjunction))]
fn conjunction(
    alloc: Global,
    clause: Clause,
    tokens: &[Token],
    end: usize,
    depth: usize,
) -> Parsed<'_, Condition>
    ensures { Gives (λ x. (x.0, x.1.now)) result (reads end depth (grammar.a_conjunction clause) tokens.now) }
{
    let mut all = Items::new(alloc);
    let mut rest = tokens;
    'negations: loop {
        let (found, behind) = negation(alloc, clause, rest, end, depth)?;
        all.push(found)?;
        match accept(behind, end, Class::Keyword(Keyword::And)) {
            Some((_, next)) => rest = next,
            None => return Ok((all_of(all), behind)),
        }
    }
}

/// `conjunction {OR conjunction}`
#[cycle(conditions)]
#[tactic(auto, unfolding(crate::specs::Sql::a_condition))]
fn condition(
    alloc: Global,
    clause: Clause,
    tokens: &[Token],
    end: usize,
    depth: usize,
) -> Parsed<'_, Condition>
    ensures { Gives (λ x. (x.0, x.1.now)) result (reads end depth (grammar.a_condition clause) tokens.now) }
{
    let mut all = Items::new(alloc);
    let mut rest = tokens;
    'conjunctions: loop {
        let (found, behind) = conjunction(alloc, clause, rest, end, depth)?;
        all.push(found)?;
        match accept(behind, end, Class::Keyword(Keyword::Or)) {
            Some((_, next)) => rest = next,
            None => return Ok((any_of(all), behind)),
        }
    }
}

/// `[WHERE condition]`
#[cycle(conditions)]
#[tactic(auto, unfolding(crate::specs::Sql::a_filter))]
fn filter(
    alloc: Global,
    tokens: &[Token],
    end: usize,
    depth: usize,
) -> Parsed<'_, Option<Boxed<Condition>>>
    ensures { Gives (λ x. (x.0, x.1.now)) result (reads end depth grammar.a_filter tokens.now) }
{
    if let Some((_, rest)) = accept(tokens, end, Class::Keyword(Keyword::Where)) {
        let (found, rest) = condition(alloc, Clause::Where, rest, end, depth)?;
        Ok((Some(Boxed::new(alloc, found)?), rest))
    } else {
        Ok((None, tokens))
    }
}

/// `[INNER] JOIN | LEFT [OUTER] JOIN`
#[tactic(auto, unfolding(crate::specs::Sql::a_join_kind))]
fn join_kind(tokens: &[Token], end: usize, depth: usize) -> Parsed<'_, JoinKind>
    ensures { Gives (λ x. (x.0, x.1.now)) result (reads end depth grammar.a_join_kind tokens.now) }
{
    if let Some((_, rest)) = accept(tokens, end, Class::Keyword(Keyword::Join)) {
        return Ok((JoinKind::Inner, rest));
    }
    let (kind, rest) = if let Some((_, rest)) = accept(
        tokens,
        end,
        Class::Keyword(Keyword::Inner),
    ) {
        (JoinKind::Inner, rest)
    } else {
        let (_, rest) = expect(tokens, end, Class::Keyword(Keyword::Left))?;
        let rest = match accept(rest, end, Class::Keyword(Keyword::Outer)) {
            Some((_, behind)) => behind,
            None => rest,
        };
        (JoinKind::Left, rest)
    };
    let (_, rest) = expect(rest, end, Class::Keyword(Keyword::Join))?;
    Ok((kind, rest))
}

/// Whether a join comes next.
#[tactic(auto, unfolding(crate::specs::Sql::a_join, crate::specs::Sql::a_join_kind))]
fn sees_join(tokens: &[Token]) -> bool
    ensures { result ≡ sees_next sql (first sql grammar.a_join) tokens.now }
{
    sees(tokens, Class::Keyword(Keyword::Join))
        || sees(tokens, Class::Keyword(Keyword::Inner))
        || sees(tokens, Class::Keyword(Keyword::Left))
}

/// `.. JOIN table ON condition`
#[cycle(conditions)]
#[tactic(auto, unfolding(crate::specs::Sql::a_join))]
fn join(alloc: Global, tokens: &[Token], end: usize, depth: usize) -> Parsed<'_, Join>
    ensures { Gives (λ x. (x.0, x.1.now)) result (reads end depth grammar.a_join tokens.now) }
{
    let (kind, rest) = join_kind(tokens, end, depth)?;
    let (table, rest) = table(alloc, rest, end, depth)?;
    let ((table, _), rest) = followed(table, rest, end, Class::Keyword(Keyword::On))?;
    let (condition, rest) = condition(alloc, Clause::On, rest, end, depth)?;
    let join = Join {
        kind,
        table,
        condition: Boxed::new(alloc, condition)?,
    };
    Ok((join, rest))
}

/// `table {join}`
#[cycle(conditions)]
#[tactic(auto, unfolding(crate::specs::Sql::a_chain))]
fn chain(alloc: Global, tokens: &[Token], end: usize, depth: usize) -> Parsed<'_, Chain>
    ensures { Gives (λ x. (x.0, x.1.now)) result (reads end depth grammar.a_chain tokens.now) }
{
    let (table, mut rest) = table(alloc, tokens, end, depth)?;
    let mut joins = Items::new(alloc);
    'joins: while sees_join(rest) {
        let (found, behind) = join(alloc, rest, end, depth)?;
        joins.push(found)?;
        rest = behind;
    }
    Ok((Chain { table, joins }, rest))
}

/// `FROM chain {, chain}`
#[cycle(conditions)]
#[tactic(auto, unfolding(crate::specs::Sql::a_from))]
fn from(alloc: Global, tokens: &[Token], end: usize, depth: usize) -> Parsed<'_, Items<Chain>>
    ensures { Gives (λ x. (x.0, x.1.now)) result (reads end depth grammar.a_from tokens.now) }
{
    let (_, mut rest) = expect(tokens, end, Class::Keyword(Keyword::From))?;
    let mut all = Items::new(alloc);
    'chains: loop {
        let (found, behind) = chain(alloc, rest, end, depth)?;
        all.push(found)?;
        match accept(behind, end, Class::Symbol(Symbol::Comma)) {
            Some((_, next)) => rest = next,
            None => return Ok((all, behind)),
        }
    }
}

/// `SELECT .. FROM .. [WHERE ..] [GROUP BY ..] [HAVING ..]`
#[cycle(conditions)]
#[tactic(auto, unfolding(crate::specs::Sql::a_select))]
pub fn select(alloc: Global, tokens: &[Token], end: usize, depth: usize) -> Parsed<'_, Select>
    ensures { Gives (λ x. (x.0, x.1.now)) result (reads end depth grammar.a_select tokens.now) }
{
    let (distinct, rest) = head(tokens, end, depth)?;
    let (list, rest) = list(alloc, rest, end, depth)?;
    let (from, rest) = from(alloc, rest, end, depth)?;
    let (filter, rest) = filter(alloc, rest, end, depth)?;
    let (group, rest) = group(alloc, rest, end, depth)?;
    let (having, rest) = having(alloc, rest, end, depth)?;
    let select = Select {
        distinct,
        list,
        from,
        filter,
        group,
        having,
    };
    Ok((select, rest))
}
