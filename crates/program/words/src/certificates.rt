//! What the codes of certificates mean, and an example of each. Each match names all reasons, so that a code without words isn't compiled.

use crate::meanings::Meaning;
use certificate::CheckReason;
use certificate_text::TextReason;

pub fn of_certificate(reason: TextReason) -> Meaning {
    match reason {
        TextReason::OtherVersion => Meaning::new("the first line is not SQLPLAN 1", "SQLPLAN 2"),
        TextReason::OtherForm => Meaning::new(
            "the line is not of the form that is wanted there",
            "F get zero",
        ),
        TextReason::OutOfRange => Meaning::new(
            "a number is past 32 bits, or the number of a literal past 64",
            "F get 4294967296",
        ),
        TextReason::BrokenOff => Meaning::new(
            "the text ends before the line does",
            "a text whose last line has no line feed",
        ),
        TextReason::OverLimit => Meaning::new(
            "the certificate is too large: over 200,000 lines or nodes, 256 conditions in one another, 1,024 nodes from the root down, or 3,200,000 labels",
            "lines 200001",
        ),
    }
}

/// What is wrong with a line or a node.
fn check_text(reason: CheckReason) -> &'static str {
    match reason {
        CheckReason::UnknownLine =>
            "the line names no earlier line, or as a class a line that founds none; or the node names no line",
        CheckReason::OtherForm => "what the line cites is not of the form that it needs",
        CheckReason::OtherLine =>
            "the rule gives another result, or the line is not the one that the query has there, or that line is missing",
        CheckReason::IllFormed =>
            "the expression is not well formed, or its columns are not those of its class",
        CheckReason::FailedCondition(_) | CheckReason::FailedFact =>
            "the condition of the rule that is named fails, or (L) the line doesn't give the fact",
        CheckReason::OtherOperator =>
            "the node doesn't implement its line, or by a method that doesn't find the matches, or with another number of inputs",
        CheckReason::UnsortedInput => "an input doesn't come in the order that the node needs",
        CheckReason::UnsortedAnswer => "the plan doesn't give the order of the query's ORDER BY",
    }
}

/// A certificate with such a line or node.
fn check_example(reason: CheckReason) -> &'static str {
    match reason {
        CheckReason::UnknownLine => "line 1 is F select [<>(c2,i500)] 7, and there is no line 7",
        CheckReason::OtherForm => "S 2 1 D1 0 1 -, where line 1 is no distinct",
        CheckReason::OtherLine => "F select [<>(c2,i501)] 0 for WHERE pay <> 500",
        CheckReason::IllFormed => "a condition on column 9 of a class without it",
        CheckReason::FailedCondition(_) | CheckReason::FailedFact =>
            "refused K05 D1 line 3, where DISTINCT is left out of rows that may be alike",
        CheckReason::OtherOperator => "an inner join for the line of a left join",
        CheckReason::UnsortedInput => "a merge join over a scan",
        CheckReason::UnsortedAnswer => "no sort on top, for a query with ORDER BY",
    }
}

pub fn of_check(reason: CheckReason) -> Meaning {
    Meaning::new(check_text(reason), check_example(reason))
}
