//! Why a part of a line isn't read.

ghost use Rattle.std.specs.Prelude.{◌≡◌};
ghost use Rattle.values.specs.declared.fault.Fault.TheVariants.{Refused};

use thiserror::Error;
use values::Fault;

/// Why a part of a line isn't read. A number past its range is no such reason: a line is first of all to have its form.
#[derive(Clone, Copy, Debug, Error)]
pub enum PartReason {
    #[error("the part isn't of the form that is wanted")]
    OtherForm,
    #[error("more conditions stand in one another than may")]
    OverLimit,
}

pub type PartFault = Fault<PartReason>;

impl From<PartReason> for PartFault {
    ghost from_gives = { λ reason fault. fault ≡ Refused reason };

    fn from(reason: PartReason) -> PartFault {
        Fault::Refused(reason)
    }
}
