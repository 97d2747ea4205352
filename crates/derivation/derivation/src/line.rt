//! The lines of a derivation.

use crate::numbers::Numbers;
use algebra::{ClassId, Expr, LineId};
use book::RuleName;
use props::Fact;
use thiserror::Error;
use values::Boxed;

/// A rule, applied to lines.
pub struct Step {
    pub rule: RuleName,
    /// The conjunct or the class that is meant, where a rule has a choice; else 0.
    pub pick: u32,
    /// The lines that the rule is applied to, the top first.
    pub uses: Numbers,
    /// The lines that spell the inner expressions of what it gives, outer before inner, left before right.
    pub makes: Numbers,
}

// By hand, so that crates above drop a step by one call.
impl Drop for Step {
    fn drop(self) {
        let Step {
            rule: _,
            pick: _,
            uses: _,
            makes: _,
        } = self;
    }
}

/// A line of a derivation. Lines are numbered from 0. A step is boxed, as most lines have none.
pub enum Line {
    /// Founds a class, which is named by this line's number.
    Founds(Expr),
    /// The expression is one more of the class, by a step.
    Adds(ClassId, Boxed<Step>, Expr),
    /// Two classes are the same, by a step from the first to the second.
    Unites(ClassId, ClassId, Boxed<Step>),
    /// Two lines have expressions that are alike, so their classes are the same.
    Alike(LineId, LineId),
    /// A fact holds of the class, by a line of it.
    Gives(ClassId, LineId, Fact),
}

// By hand, so that crates above drop a line by one call.
impl Drop for Line {
    fn drop(self) {
        match self {
            Line::Founds(_) | Line::Alike(_, _) => {}
            Line::Adds(_, _, _) | Line::Unites(_, _, _) | Line::Gives(_, _, _) => {}
        }
    }
}

/// Why a line may not stand.
#[derive(Clone, Copy, Debug, PartialEq, Eq, Error)]
pub enum LineReason {
    #[error("a number names no earlier line, or as a class a line that founds none")]
    UnknownLine,
    #[error("an expression isn't well formed, or columns aren't those of the class")]
    IllFormed,
    #[error("what the line cites isn't of the form that it needs")]
    OtherForm,
    #[error("the condition of the rule fails")]
    FailedCondition(RuleName),
    #[error("the fact isn't given by the line")]
    FailedFact,
    #[error("the rule gives another result")]
    OtherLine,
}
