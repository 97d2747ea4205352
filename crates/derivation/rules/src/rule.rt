//! Rules.

ghost use Rattle.std.specs.Prelude.{◌≡◌, Result, IfOk};
ghost use Rattle.values.specs.Faults.{Gives};
ghost use Rattle.rules.specs.declared.pattern.Pattern.{Pattern};
ghost use Rattle.rules.specs.declared.promise.Promise.{Promise};
ghost use Rattle.rules.specs.declared.shape.Shape.{Shape};
ghost use Rattle.rules.specs.declared.unfit.Unfit.{Unfit};
ghost use Rattle.rules.specs.Formed.{IsFormed};
ghost use Rattle.rules.specs.Matches.{Matched, matched};
ghost use Rattle.rules.specs.Patterns.{KeepsTo};
ghost use Rattle.rules.specs.Soundness.{IsSound};
ghost use Rattle.rules.specs.Stability.{IsStable};

use crate::matching::Match;
use crate::pattern::Pattern;
use crate::promise::Promise;
use crate::shape::Shape;
use crate::unfit::RuleFault;
use std::alloc::{AllocError, Global};

/// A rule of the book.
pub trait Rule {
    /// The rule's name in certificates.
    const CODE: &'static str;

    /// The lines that the rule takes.
    ghost pattern: { Pattern };

    /// What the rule gives.
    ghost gives: { Matched → Result Shape Unfit };

    /// When the rule is tried.
    ghost promise: { Matched → Promise };

    /// The lines that the rule takes. Of these it may still refuse some for their form.
    fn pattern() -> Pattern
        ensures { result ≡ pattern };

    /// The shape that the rule gives, where what is matched has its form and meets its condition; else which of the two fails, the
    /// form first.
    fn apply(alloc: Global, at: Match<'_>) -> Result<Shape, RuleFault>
        ensures { Gives (λ s. s) result (gives (matched at.entry)) };

    /// When the rule is tried at lines that it takes. Of others nobody asks.
    fn promise(alloc: Global, at: Match<'_>) -> Result<Promise, AllocError>
        ensures { IfOk result (λ p. p ≡ promise (matched at.entry)) };

    /// What the rule gives has the rows of what is matched.
    fn is_sound()
        ensures { IsSound gives };

    /// The rule refuses what isn't of its pattern, for its form.
    fn keeps_to_pattern()
        ensures { KeepsTo pattern gives };

    /// Of lines that may stand the rule gives what may stand, with the columns of the top line's class.
    fn is_formed()
        ensures { IsFormed gives };

    /// What the rule gives depends on the classes that its lines name alone.
    fn is_stable()
        ensures { IsStable gives };
}
