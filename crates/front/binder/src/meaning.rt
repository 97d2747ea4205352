//! The laws of what a statement means. The functions do nothing: their contracts are the laws.

ghost use Rattle.binder.specs.Analyses.{StatementsAccepted, StatementsRefused};
ghost use Rattle.binder.specs.Meanings.{NamesFail, NamesMean};
ghost use Rattle.binder.specs.Rules.{StatementsBind};

/// A name means the column that the scope rules say, and a refusal of it is the fault that they say.
pub fn names_are_resolved()
    ensures meaning { NamesMean }
    ensures fault { NamesFail }
{}

/// A statement becomes the query that it is by the rules. It is accepted if the list of its faults is empty, and else refused
/// with the first.
pub fn statements_have_meaning()
    ensures rules { StatementsBind }
    ensures accepted { StatementsAccepted }
    ensures refused { StatementsRefused }
{}
