//! Why a cursor has no next row.

use thiserror::Error;

/// Why a cursor has no next row, though one may be to come.
#[derive(Clone, Copy, Debug, Drop, PartialEq, Eq, Error)]
pub enum RunFault {
    /// It has handed over as many rows as may be.
    #[error("too many rows")]
    TooManyRows,
    #[error("out of memory")]
    Memory,
}
