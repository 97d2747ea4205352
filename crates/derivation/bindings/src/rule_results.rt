//! What the rule of a binding gives at its lines.

ghost use Rattle.std.specs.Prelude.{◌≡◌, map, IfOk};
ghost use Rattle.rules.specs.Matches.{line_in};
ghost use Rattle.derivation.specs.Logs.{knowledge};
ghost use Rattle.bindings.specs.Bindings as spec;

use crate::binding::{Binding, BoundLines};
use algebra::ClassId;
use logs::Log;
use rules::{Match, MatchedLine, Shape};
use std::alloc::{AllocError, Global};
use values::Fault;

/// What a rule gives of the class of the top line.
#[derive(Drop)]
pub struct RuleResult {
    pub class: ClassId,
    pub shape: Shape,
}

impl Binding {
    /// What the rule gives at these lines of the log.
    fn given_at(
        self,
        alloc: Global,
        log: &Log<'_>,
        top: MatchedLine<'_>,
        lines: &[MatchedLine<'_>],
    ) -> Result<Option<RuleResult>, AllocError>
        ensures { IfOk result (λ given. given ≡ spec.shape_given (line_in top.entry).class (spec.applied (knowledge log.now.instances log.now.log) self.rule self.pick (map line_in lines.now))) }
    {
        let at = Match {
            lines,
            pick: self.pick,
            classes: log.classes(),
        };
        match self.rule.apply(alloc, at) {
            Ok(shape) => Ok(Some(RuleResult {
                class: top.class,
                shape,
            })),
            Err(Fault::Refused(_)) => Ok(None),
            Err(Fault::Memory) => Err(AllocError),
        }
    }

    /// What the rule gives at the lines, if it fits and each has an expression.
    pub fn given(self, alloc: Global, log: &Log<'_>) -> Result<Option<RuleResult>, AllocError>
        ensures { IfOk result (λ given. given ≡ spec.given_by_binding log.now.instances log.now.log self) }
    {
        match self.lines {
            BoundLines::One(top) => {
                let Some(top) = log.member(top) else {
                    return Ok(None);
                };
                self.given_at(alloc, log, top, &[top])
            }
            BoundLines::Two(top, below) => {
                let (Some(top), Some(below)) = (log.member(top), log.member(below)) else {
                    return Ok(None);
                };
                self.given_at(alloc, log, top, &[top, below])
            }
            BoundLines::Three(top, below, lowest) => {
                let (Some(top), Some(below)) = (log.member(top), log.member(below)) else {
                    return Ok(None);
                };
                let Some(lowest) = log.member(lowest) else {
                    return Ok(None);
                };
                self.given_at(alloc, log, top, &[top, below, lowest])
            }
        }
    }
}
