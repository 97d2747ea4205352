//! Why an answer wasn't written to its end.

ghost use Rattle.std.specs.Prelude.{◌≡◌};

use answer_text::AnswerFault;
use cursors::RunFault;
use std::alloc::AllocError;
use thiserror::Error;
use values::Fault;

/// Why an answer wasn't written to its end, though its plan was checked.
#[derive(Clone, Copy, Debug, Drop, PartialEq, Eq, Error)]
pub enum WriteFault {
    #[error("out of memory")]
    Memory,
    #[error("the output failed")]
    Output,
    /// They are more than 2^62.
    #[error("too many rows")]
    TooManyRows,
}

impl From<AllocError> for WriteFault {
    ghost use Rattle.pipeline.specs.declared.written.WriteFault.TheVariants.{Memory};

    ghost from_gives = { λ _ e. e ≡ Memory };

    fn from(_error: AllocError) -> WriteFault {
        WriteFault::Memory
    }
}

impl From<RunFault> for WriteFault {
    ghost use Rattle.pipeline.specs.Refusals.{write_of_cursor};

    ghost from_gives = { λ fault e. e ≡ write_of_cursor fault };

    fn from(fault: RunFault) -> WriteFault {
        match fault {
            RunFault::Memory => WriteFault::Memory,
            RunFault::TooManyRows => WriteFault::TooManyRows,
        }
    }
}

impl From<AnswerFault> for WriteFault {
    ghost use Rattle.pipeline.specs.Refusals.{write_of_answer};

    ghost from_gives = { λ fault e. e ≡ write_of_answer fault };

    fn from(fault: AnswerFault) -> WriteFault {
        match fault {
            Fault::Memory => WriteFault::Memory,
            Fault::Refused(_) => WriteFault::Output,
        }
    }
}
