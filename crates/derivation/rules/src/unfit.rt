//! Why a rule gives nothing.

use thiserror::Error;
use values::Fault;

/// Why a rule gives nothing.
#[derive(Clone, Copy, Debug, PartialEq, Eq, Error)]
pub enum Unfit {
    /// The matched lines aren't of the rule's form.
    #[error("the rule has another form")]
    Pattern,
    /// They are, and the rule's condition fails.
    #[error("the rule's condition fails")]
    Condition,
}

/// A rule gives nothing, or there was no memory for what it gives.
pub type RuleFault = Fault<Unfit>;
