//! What a certificate is, and why one is refused.

ghost use Rattle.std.specs.Prelude.{◌≡◌, option_map};
ghost use Rattle.certificate.specs.Codes.{code_of, rule_of};
ghost use Rattle.certificate.specs.Replay.{reason_of};

use book::RuleName;
use derivation::{Line, LineReason};
use physical::Plan;
use thiserror::Error;
use values::{Fault, Items};

/// A plan, and the derivation that ties it to its query.
pub struct Certificate {
    pub lines: Items<Line>,
    pub plan: Plan,
}

// By hand, so that crates above drop a certificate by one call.
impl Drop for Certificate {
    fn drop(self) {
        let Certificate { lines: _, plan: _ } = self;
    }
}

impl Certificate {
    /// The lines, without the plan.
    pub fn into_lines(self) -> Items<Line>
        ensures { result ≡ self.lines }
    {
        let Certificate { lines, plan: _ } = self;
        lines
    }
}

/// Why a line or a node is refused.
#[derive(Clone, Copy, Debug)]
pub enum CheckReason {
    /// A number names no earlier line, or as a class a line that founds none.
    UnknownLine,
    /// What the line cites isn't of the form that it needs.
    OtherForm,
    /// The line gives another result, or is another line than the query's own, or the query's own is missing.
    OtherLine,
    /// The expression isn't well formed, or the columns aren't its class's.
    IllFormed,
    /// The condition of the rule fails.
    FailedCondition(RuleName),
    /// The fact isn't given by the line.
    FailedFact,
    /// The node implements no member of its class, or of one that is the same.
    OtherOperator,
    /// An input doesn't deliver the order that the node needs.
    UnsortedInput,
    /// The plan doesn't deliver the query's ORDER BY.
    UnsortedAnswer,
}

impl CheckReason {
    /// The code by which the program reports it.
    pub fn code(self) -> &'static str
        ensures { result.now ≡ code_of self }
    {
        match self {
            CheckReason::UnknownLine => "K01",
            CheckReason::OtherForm => "K02",
            CheckReason::OtherLine => "K03",
            CheckReason::IllFormed => "K04",
            CheckReason::FailedCondition(_) | CheckReason::FailedFact => "K05",
            CheckReason::OtherOperator => "K06",
            CheckReason::UnsortedInput => "K07",
            CheckReason::UnsortedAnswer => "K08",
        }
    }

    /// As a certificate's fault, why a line may not stand.
    pub fn of_line(reason: LineReason) -> CheckReason
        ensures { result ≡ reason_of reason }
    {
        match reason {
            LineReason::UnknownLine => CheckReason::UnknownLine,
            LineReason::IllFormed => CheckReason::IllFormed,
            LineReason::OtherForm => CheckReason::OtherForm,
            LineReason::FailedCondition(rule) => CheckReason::FailedCondition(rule),
            LineReason::FailedFact => CheckReason::FailedFact,
            LineReason::OtherLine => CheckReason::OtherLine,
        }
    }

    /// What fails, for K05: the name of the rule, or `L` for a fact.
    pub fn rule(self) -> Option<&'static str>
        ensures { option_map (λ s. s.now) result ≡ rule_of self }
    {
        match self {
            CheckReason::FailedCondition(rule) => Some(rule.code()),
            CheckReason::FailedFact => Some("L"),
            CheckReason::UnknownLine
            | CheckReason::OtherForm
            | CheckReason::OtherLine
            | CheckReason::IllFormed
            | CheckReason::OtherOperator
            | CheckReason::UnsortedInput
            | CheckReason::UnsortedAnswer => None,
        }
    }
}

/// The first fault of a certificate.
#[derive(Clone, Copy, Debug, Error)]
#[error("{} line {line}", .reason.code())]
pub struct CheckRefusal {
    /// The number of the faulty line, or of the faulty node: nodes are numbered on from the lines, each before its inputs.
    pub line: usize,
    pub reason: CheckReason,
}

pub type CheckFault = Fault<CheckRefusal>;
