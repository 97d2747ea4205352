//! The laws of the meaning of queries. Each function does nothing: its contract is the law.

ghost use Rattle.query.specs.Answer.{AnswersAreByLaws, LawsDetermineMeaning, SatisfyingFits};
ghost use Rattle.query.specs.Examples.{WorkedRows};
ghost use Rattle.query.specs.Laws.{IsMeaning};
ghost use Rattle.query.specs.Meaning.{often, src, truth};

/// The meaning, which is computed by nested loops, obeys the laws in which a reader believes.
pub fn meaning_obeys_laws()
    ensures { IsMeaning truth src often }
{}

/// Nothing else obeys them: three functions that do so at a database give there, in each environment, the same truth to
/// each condition and the same number to each row of a FROM and of a block.
pub fn laws_determine_meaning()
    ensures { LawsDetermineMeaning }
{}

/// The laws speak of each database that satisfies a schema: its rows are as wide as their tables.
pub fn satisfying_databases_fit()
    ensures { SatisfyingFits }
{}

/// So an answer, which is given by the computed meaning, is one by the laws alone.
pub fn answers_are_by_laws()
    ensures { AnswersAreByLaws }
{}

/// What the definitions give on small tables, row by row: Null in comparisons, in NOT IN and under DISTINCT, joins, and
/// aggregates with and without rows.
pub fn worked_rows_hold()
    ensures { WorkedRows }
{}
