//! The AND and the OR of any number of conditions.

ghost use Rattle.std.specs.Prelude.{◌≡◌, IfOk};
ghost use Rattle.algebra.specs.Connectives as spec;

use crate::condition::{Condition, Term};
use std::alloc::{AllocError, Global};
use values::{Boxed, Items, Literal};

/// `0 IS NULL`
fn never() -> Condition
    ensures { result ≡ spec.never }
{
    Condition::IsNull(Term::Literal(Literal::number(0)))
}

impl Condition {
    /// The AND of conditions: of one itself, of none one that is always true.
    pub fn and(alloc: Global, parts: Items<Condition>) -> Result<Condition, AllocError>
        ensures { IfOk result (λ c. c ≡ spec.and_of parts) }
    {
        let mut parts = parts;
        if parts.is_empty() {
            return Ok(Condition::Not(Boxed::new(alloc, never())?));
        }
        let first = parts.remove(0);
        if parts.is_empty() {
            return Ok(first);
        }
        let second = parts.remove(0);
        let first = Boxed::new(alloc, first)?;
        let second = Boxed::new(alloc, second)?;
        Ok(Condition::And(first, second, parts))
    }

    /// The OR of conditions: of one itself, of none one that is always false.
    pub fn or(alloc: Global, parts: Items<Condition>) -> Result<Condition, AllocError>
        ensures { IfOk result (λ c. c ≡ spec.or_of parts) }
    {
        let mut parts = parts;
        if parts.is_empty() {
            return Ok(never());
        }
        let first = parts.remove(0);
        if parts.is_empty() {
            return Ok(first);
        }
        let second = parts.remove(0);
        let first = Boxed::new(alloc, first)?;
        let second = Boxed::new(alloc, second)?;
        Ok(Condition::Or(first, second, parts))
    }
}
