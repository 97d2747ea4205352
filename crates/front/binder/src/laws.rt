//! The law of bound statements. The function does nothing: its contract is the law.

ghost use Rattle.sql_parse.specs.PlainOns.{StatementsArePlain};
ghost use Rattle.binder.specs.BoundStatements.{StatementsAreBound, StatementsAreOver, StatementsAreWide};

/// No text is a statement with a subquery in an ON. What the query of any other statement names is there, and the columns
/// that a condition can name have numbers of their own. Each table instance is one of a table of the schema, and as wide.
pub fn statements_are_bound()
    ensures plain { StatementsArePlain }
    ensures bound { StatementsAreBound }
    ensures over { StatementsAreOver }
    ensures wide { StatementsAreWide }
{}
