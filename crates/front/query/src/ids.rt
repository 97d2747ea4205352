//! Numbers of columns and of table instances, which have 32 bits, as a certificate's text does.

ghost use Rattle.std.specs.Prelude.{◌≡◌, ◌+◌, IfOk};

use std::alloc::AllocError;

/// A number as one of 32 bits. No query within its limits needs a longer one; it is reported as out of memory.
pub fn id_of(number: usize) -> Result<u32, AllocError>
    ensures { IfOk result (λ id. id ≡ number) }
{
    let Ok(id) = u32::try_from(number) else {
        return Err(AllocError);
    };
    Ok(id)
}

/// The number so many places behind the first, with the same limit.
pub fn id_behind(first: u32, place: usize) -> Result<u32, AllocError>
    ensures { IfOk result (λ id. id ≡ first + place) }
{
    first.checked_add(id_of(place)?).ok_or(AllocError)
}
