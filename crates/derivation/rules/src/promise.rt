//! When a rule is tried.

ghost use Rattle.std.specs.Prelude.{◌≡◌, IfOk};
ghost use Rattle.rules.specs.Matches.{known_in};
ghost use Rattle.rules.specs.Promises as spec;

use algebra::{ClassId, Condition, Conjuncts};
use props::KnownClasses;
use std::alloc::{AllocError, Global};

/// What a rule promises of its result, the best first: what makes expressions simpler is tried before all else, what makes tables smaller or
/// joins them before what only makes products, and projections last, which multiply what there is.
#[derive(Clone, Copy)]
pub enum Promise {
    Simpler,
    Connected,
    Products,
    Projections,
}

impl Promise {
    /// What a join promises, which joins what conditions connect, or else is a product.
    pub fn of_join(is_connected: bool) -> Promise
        ensures { result ≡ spec.of_join is_connected }
    {
        if is_connected {
            Promise::Connected
        } else {
            Promise::Products
        }
    }
}

/// Whether a condition is about columns of both classes.
fn connects(
    alloc: Global,
    classes: KnownClasses<'_>,
    condition: &Condition,
    first: ClassId,
    second: ClassId,
) -> Result<bool, AllocError>
    ensures { IfOk result (λ b. b ≡ spec.connects (known_in classes.entry) first second condition.now) }
{
    let columns = classes.columns;
    Ok(
        !condition.is_without(alloc, columns, first)?
            && !condition.is_without(alloc, columns, second)?,
    )
}

/// Whether some condition is about columns of both classes.
pub fn are_connected(
    alloc: Global,
    classes: KnownClasses<'_>,
    conjuncts: &Conjuncts,
    first: ClassId,
    second: ClassId,
) -> Result<bool, AllocError>
    ensures { IfOk result (λ b. b ≡ spec.are_connected (known_in classes.entry) conjuncts.now first second) }
{
    for condition in conjuncts.as_slice() {
        if connects(alloc, classes, condition, first, second)? {
            return Ok(true);
        }
    }
    Ok(false)
}
