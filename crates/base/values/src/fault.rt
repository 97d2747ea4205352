//! Why a call has no answer.

ghost use Rattle.std.specs.Prelude.{◌≡◌};
ghost use Rattle.values.specs.declared.fault.Fault.TheVariants.{Memory};

use std::alloc::{AllocError, AllocFailed};
use std::fmt::Display;
use thiserror::Error;

/// Why a call has no answer: a growth was refused, or what was handed in is refused for the reason `R`.
#[derive(Clone, Copy, Debug, Drop, PartialEq, Eq, Error)]
#[error_bound(R: Display)]
pub enum Fault<R> {
    #[error("out of memory")]
    Memory,
    #[error("{0}")]
    Refused(R),
}

impl<R> From<AllocError> for Fault<R> {
    ghost from_gives = { λ _ e. e ≡ Memory };

    fn from(_error: AllocError) -> Fault<R> {
        Fault::Memory
    }
}

impl<R, T: Drop> From<AllocFailed<T>> for Fault<R> {
    ghost from_gives = { λ _ e. e ≡ Memory };

    fn from(_error: AllocFailed<T>) -> Fault<R> {
        Fault::Memory
    }
}
