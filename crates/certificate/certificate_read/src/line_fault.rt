//! Why a line isn't read.

ghost use Rattle.std.specs.Prelude.{◌≡◌};
ghost use Rattle.certificate_read.specs.declared.line_fault.LineFault.{LineFault};
ghost use Rattle.certificate_read.specs.TextCalls.{reason_of};
ghost use Rattle.certificate_read.specs.declared.line_fault.LineFault.TheVariants.{Memory};
ghost use Rattle.certificate_read.specs.Wordings.{line_fault_of};
ghost use Rattle.values.specs.declared.fault.Fault.TheVariants.{Refused};

use certificate_text::TextReason;
use certificate_text::part_fault::{PartFault, PartReason};
use std::alloc::{AllocError, AllocFailed};
use values::Fault;

/// Why a line isn't read.
#[derive(Clone, Copy, Debug)]
pub enum LineFault {
    Memory,
    OtherForm,
    OutOfRange,
    OverLimit,
}

impl LineFault {
    /// As a fault of the text; nothing where memory ran out.
    pub fn reason(self) -> Option<TextReason>
        ensures { result ≡ reason_of self }
    {
        match self {
            LineFault::Memory => None,
            LineFault::OtherForm => Some(TextReason::OtherForm),
            LineFault::OutOfRange => Some(TextReason::OutOfRange),
            LineFault::OverLimit => Some(TextReason::OverLimit),
        }
    }
}

impl From<AllocError> for LineFault {
    ghost from_gives = { λ _ fault. fault ≡ Memory };

    fn from(_error: AllocError) -> LineFault {
        LineFault::Memory
    }
}

impl<T: Drop> From<AllocFailed<T>> for LineFault {
    ghost from_gives = { λ _ fault. fault ≡ Memory };

    fn from(_error: AllocFailed<T>) -> LineFault {
        LineFault::Memory
    }
}

impl From<PartReason> for LineFault {
    ghost from_gives = { λ reason fault. fault ≡ line_fault_of (Refused reason) };

    fn from(reason: PartReason) -> LineFault {
        match reason {
            PartReason::OtherForm => LineFault::OtherForm,
            PartReason::OverLimit => LineFault::OverLimit,
        }
    }
}

impl From<PartFault> for LineFault {
    ghost from_gives = { λ fault given. given ≡ line_fault_of fault };

    fn from(fault: PartFault) -> LineFault {
        match fault {
            Fault::Memory => LineFault::Memory,
            Fault::Refused(PartReason::OtherForm) => LineFault::OtherForm,
            Fault::Refused(PartReason::OverLimit) => LineFault::OverLimit,
        }
    }
}
