//! Why nothing is founded in a log.

use std::alloc::{AllocError, AllocFailed};

/// Why nothing is founded. Whether the log refuses a line or is full, a search goes on without.
#[derive(Clone, Copy)]
pub enum Unadded {
    Memory,
    Refused,
}

impl From<AllocError> for Unadded {
    ghost use Rattle.std.specs.Prelude.{◌≡◌};
    ghost use Rattle.lean_logs.specs.declared.unadded.Unadded.TheVariants.{Memory};

    ghost from_gives = { λ _ unadded. unadded ≡ Memory };

    fn from(_error: AllocError) -> Unadded {
        Unadded::Memory
    }
}

impl<T: Drop> From<AllocFailed<T>> for Unadded {
    ghost use Rattle.std.specs.Prelude.{◌≡◌};
    ghost use Rattle.lean_logs.specs.declared.unadded.Unadded.TheVariants.{Memory};

    ghost from_gives = { λ _ unadded. unadded ≡ Memory };

    fn from(_error: AllocFailed<T>) -> Unadded {
        Unadded::Memory
    }
}
