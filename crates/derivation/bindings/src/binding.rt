//! A rule, and the lines that it is applied to.

ghost use Rattle.std.specs.Prelude.{◌≡◌, IfOk, Some};
ghost use Rattle.bindings.specs.Bindings as spec;

use algebra::LineId;
use book::RuleName;
use derivation::{Numbers, Step};
use std::alloc::{AllocError, Global};
use values::Boxed;

/// The lines that a rule is applied to, the top first.
#[derive(Clone, Copy)]
pub enum BoundLines {
    One(LineId),
    Two(LineId, LineId),
    Three(LineId, LineId, LineId),
}

/// A rule, and the lines that it is applied to.
#[derive(Clone, Copy)]
pub struct Binding {
    pub rule: RuleName,
    /// The conjunct or the class that is meant, where the rule has a choice; else 0.
    pub pick: u32,
    pub lines: BoundLines,
}

impl BoundLines {
    pub fn top(self) -> LineId
        ensures { spec.first_of (spec.uses_in self) ≡ Some result }
    {
        match self {
            BoundLines::One(top) | BoundLines::Two(top, _) | BoundLines::Three(top, _, _) => top,
        }
    }

    fn numbers(self, alloc: Global) -> Result<Numbers, AllocError>
        ensures { IfOk result (λ numbers. numbers ≡ spec.uses_in self) }
    {
        match self {
            BoundLines::One(top) => Ok(Numbers::one(top)),
            BoundLines::Two(top, below) => Numbers::from_slice(alloc, &[top, below]),
            BoundLines::Three(top, below, lowest) => {
                Numbers::from_slice(alloc, &[top, below, lowest])
            }
        }
    }
}

/// The step of a binding's rule, by the lines that its inner expressions stand in.
pub fn step_of(alloc: Global, binding: Binding, makes: &[LineId]) -> Result<Boxed<Step>, AllocError>
    ensures { IfOk result (λ step. step ≡ spec.step_of binding makes.now) }
{
    Boxed::new(
        alloc,
        Step {
            rule: binding.rule,
            pick: binding.pick,
            uses: binding.lines.numbers(alloc)?,
            makes: Numbers::from_slice(alloc, makes)?,
        },
    )
}
