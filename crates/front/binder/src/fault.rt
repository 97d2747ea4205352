//! Why a tree is no query over a schema.

ghost use Rattle.std.specs.Prelude.{◌≡◌};
ghost use Rattle.binder.specs.Codes.{code_of};

use thiserror::Error;
use values::Fault;

/// Why a tree is refused.
#[derive(Clone, Copy, Debug)]
pub enum BindReason {
    /// B01: no table of this name.
    UnknownTable,
    /// B02: no column of this name.
    UnknownColumn,
    /// B03: a name of several columns.
    AmbiguousName,
    /// B04: the name of another table instance of the same FROM.
    RepeatedName,
    /// B05: a number is compared with a text.
    MixedKinds,
    /// B06: an output column that isn't grouped by, or a GROUP BY column of an enclosing query.
    UngroupedColumn,
    /// B07: the sum of a text column.
    SumOfText,
    /// B08: an IN subquery that doesn't give one column.
    NotOneColumn,
    /// B09: an ORDER BY key that is no output column.
    NoOutputColumn,
    /// B10: more instances, levels, tests or columns than a query may have.
    TooLarge,
    /// B11: an aggregate of a column of an enclosing query.
    OuterAggregate,
}

impl BindReason {
    /// The code by which the program reports it.
    pub fn code(self) -> &'static str
        ensures { result.now ≡ code_of self }
    {
        match self {
            BindReason::UnknownTable => "B01",
            BindReason::UnknownColumn => "B02",
            BindReason::AmbiguousName => "B03",
            BindReason::RepeatedName => "B04",
            BindReason::MixedKinds => "B05",
            BindReason::UngroupedColumn => "B06",
            BindReason::SumOfText => "B07",
            BindReason::NotOneColumn => "B08",
            BindReason::NoOutputColumn => "B09",
            BindReason::TooLarge => "B10",
            BindReason::OuterAggregate => "B11",
        }
    }
}

/// What is wrong with a tree, and at which byte of its text.
#[derive(Clone, Copy, Debug, Drop, Error)]
#[error("{} at {at}", .reason.code())]
pub struct BindRefusal {
    pub reason: BindReason,
    pub at: usize,
}

pub type BindFault = Fault<BindRefusal>;

/// The fault of a tree that is refused.
pub fn refused(reason: BindReason, at: usize) -> BindFault
    ensures { result ≡ Fault.Refused (record { reason = reason; at = at }) }
{
    Fault::Refused(BindRefusal { reason, at })
}
