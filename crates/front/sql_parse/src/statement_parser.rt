//! From a text to the tree of a statement of the whole language.

ghost use Rattle.std.specs.Prelude.{◌≡◌, IfOk, IfErr};
ghost use Rattle.grammar.specs.Readers.{finished as with_nothing_behind, whole};
ghost use Rattle.values.specs.Faults.{Gives};
ghost use Rattle.sql_parse.specs.ReadingFaults.{IfRefused};
ghost use Rattle.sql_parse.specs.Sql.{sql, a_statement};
ghost use Rattle.sql_parse.specs.StatementReading.{reported, reads};
ghost use Rattle.sql_parse.specs.Statements.{ReadsStatement, IsStatementFault, limit};

use crate::class::Class;
use crate::clauses::order_by;
use crate::conditions::select;
use crate::fault::{ParseFault, ParseReason, refused};
use crate::lexer::tokens;
use crate::parsed_statement::ParsedStatement;
use crate::reading::{Parsed, accept, fault};
use crate::statement::Statement;
use crate::token::{Symbol, Token};
use std::alloc::Global;
use std::str;

/// The most bytes that a statement's text may have.
pub const MAX_TEXT: usize = 65536;

/// `select [ORDER BY key {, key}] [;]`
#[tactic(auto, unfolding(crate::specs::Sql::a_statement))]
fn statement(alloc: Global, tokens: &[Token], end: usize, depth: usize) -> Parsed<'_, Statement>
    ensures { Gives (λ x. (x.0, x.1.now)) result (reads end depth a_statement tokens.now) }
{
    let (select, rest) = select(alloc, tokens, end, depth)?;
    let (order, rest) = order_by(alloc, rest, end, depth)?;
    let rest = match accept(rest, end, Class::Symbol(Symbol::Semicolon)) {
        Some((_, behind)) => behind,
        None => rest,
    };
    Ok((Statement { select, order }, rest))
}

/// A tree, if nothing stands behind it.
fn finished<T: Drop>(found: T, rest: &[Token], end: usize) -> Result<T, ParseFault>
    ensures { Gives (λ tree. tree) result (with_nothing_behind sql (reported end) (found, rest.now)) }
{
    match rest {
        [] => Ok(found),
        [_, ..] => Err(fault(ParseReason::Unexpected, rest, end)),
    }
}

/// A statement, and nothing more.
fn whole_statement(
    alloc: Global,
    tokens: &[Token],
    end: usize,
    depth: usize,
) -> Result<Statement, ParseFault>
    ensures { Gives (λ tree. tree) result (whole sql (reported end) depth a_statement tokens.now) }
{
    let (found, rest) = statement(alloc, tokens, end, depth)?;
    finished(found, rest, end)
}

/// The most parentheses that may be open at once.
#[tactic(auto, unfolding(crate::specs::Statements::limit))]
fn most_open() -> usize
    ensures { result ≡ limit }
{
    64
}

/// The tree of a text.
fn tree_of(alloc: Global, text: &str) -> Result<Statement, ParseFault>
    ensures found { IfOk result (λ tree. ReadsStatement text.now tree) }
    ensures only { (tree : Statement) → ReadsStatement text.now tree → Gives (λ t. t) result (Ok tree) }
    ensures refused { IfErr result (λ fault. IfRefused fault (IsStatementFault text.now)) }
{
    if text.len() > MAX_TEXT {
        return Err(refused(ParseReason::TooLong, MAX_TEXT));
    }
    let tokens = tokens(alloc, text)?;
    let depth = most_open();
    whole_statement(alloc, tokens.as_slice(), text.len(), depth)
}

/// The tree of a statement's text. A refusal reports the first fault: too long a text, then the first place where no token
/// begins, a text isn't closed or a number is out of range, then the first token that can't stand where it does or opens a
/// parenthesis too many.
pub fn parse(alloc: Global, text: &str) -> Result<ParsedStatement, ParseFault>
    ensures found { IfOk result (λ tree. ReadsStatement text.now tree) }
    // So no text has two trees, and a refusal comes only where there is none.
    ensures only { (tree : Statement) → ReadsStatement text.now tree → Gives (λ t. t) result (Ok tree) }
    ensures refused { IfErr result (λ fault. IfRefused fault (IsStatementFault text.now)) }
{
    match tree_of(alloc, text) {
        Ok(tree) => Ok(ParsedStatement::new(tree)),
        Err(fault) => Err(fault),
    }
}

/// The tree of the bytes of a statement's text. Bytes that are no text are refused at the first bad one.
pub fn parse_bytes(alloc: Global, bytes: &[u8]) -> Result<ParsedStatement, ParseFault>
    ensures found { IfOk result (λ tree. ReadsStatement bytes.now tree) }
    ensures only { (tree : Statement) → ReadsStatement bytes.now tree → Gives (λ t. t) result (Ok tree) }
    ensures refused { IfErr result (λ fault. IfRefused fault (IsStatementFault bytes.now)) }
{
    if bytes.len() > MAX_TEXT {
        return Err(refused(ParseReason::TooLong, MAX_TEXT));
    }
    match str::from_utf8(bytes) {
        Ok(text) => parse(alloc, text),
        Err(error) => Err(refused(ParseReason::NoToken, error.valid_up_to())),
    }
}
