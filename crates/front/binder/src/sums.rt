//! Sums of sizes and of places.

ghost use Rattle.std.specs.Prelude.{◌≡◌, ◌+◌, IfOk};

use std::alloc::AllocError;

/// A sum. No text is long enough, and no FROM has so many columns, that it is no number of the machine; it is reported as out of
/// memory.
pub fn sum(a: usize, b: usize) -> Result<usize, AllocError>
    ensures { IfOk result (λ total. total ≡ a + b) }
{
    a.checked_add(b).ok_or(AllocError)
}
