//! What the rule of a binding gives comes into a log.

ghost use Rattle.std.specs.Prelude.{◌≡◌, ◌⊎◌, ◌↔◌, ◌+◌, ◌<◌, ◌≤◌, false, length, None, Ok, Some, IsTrue, IfSome, OnOk};
ghost use Rattle.rules.specs.declared.shape.Shape.TheVariants as shape_;
ghost use Rattle.derivation.specs.Replay.{stands};
ghost use Rattle.bindings.specs.Bindings.{given_by_binding};
ghost use Rattle.bindings.specs.Founding.{founds_something};
ghost use Rattle.bindings.specs.Lean.{SaysNew, made_of};
ghost use Rattle.bindings.specs.Results.{IsResult};
ghost use Rattle.bindings.specs.Shallow.{operator_count};
ghost use Rattle.bindings.specs.Spelt.{IsSpelt};
ghost use Rattle.lean_logs.specs.Founding.{ClassTold, IsToldBy, ResultTold, Stands};
ghost use Rattle.lean_logs.specs.Growth.{Extends, FillsLean, GrowsLean};

use crate::founded::Spelt;
use crate::lean_log::{LeanLog, Member};
use crate::unadded::Unadded;
use algebra::{ClassId, LineId};
use bindings::{Binding, RuleResult, result_may_stand, results_are_shallow, step_of};
use derivation::Line;
use rules::Shape;
use std::alloc::{AllocError, Global};

/// Of room for so many lines what is left behind those of a shape's operators. None where it doesn't suffice.
#[cycle(counting)]
fn room_behind(shape: &Shape, room: usize) -> Option<usize>
    ensures some { IfSome result (λ left. operator_count shape.now + left ≡ room) }
    ensures none { result ≡ None → room < operator_count shape.now }
{
    match shape {
        Shape::Class(_) => Some(room),
        Shape::Select(_, x) => room_over(x.get(), room),
        Shape::Keep(_, x) => room_over(x.get(), room),
        Shape::Distinct(x) => room_over(x.get(), room),
        Shape::Group(_, _, x) => room_over(x.get(), room),
        Shape::Join(_, a, b) => room_over_both(a.get(), b.get(), room),
        Shape::LeftJoin(_, a, b) => room_over_both(a.get(), b.get(), room),
        Shape::Semi(_, a, b) => room_over_both(a.get(), b.get(), room),
        Shape::Anti(_, _, a, b) => room_over_both(a.get(), b.get(), room),
    }
}

/// The same behind that of an operator over a shape, and of this one's.
#[cycle(counting)]
fn room_over(input: &Shape, room: usize) -> Option<usize>
    ensures some { IfSome result (λ left. (1 + operator_count input.now) + left ≡ room) }
    ensures none { result ≡ None → room < 1 + operator_count input.now }
{
    room_behind(input, room.checked_sub(1)?)
}

/// The same behind that of an operator over two shapes, and of theirs.
#[cycle(counting)]
fn room_over_both(first: &Shape, second: &Shape, room: usize) -> Option<usize>
    ensures some { IfSome result (λ left. (1 + (operator_count first.now + operator_count second.now)) + left ≡ room) }
    ensures none { result ≡ None → room < 1 + (operator_count first.now + operator_count second.now) }
{
    room_behind(second, room_behind(first, room.checked_sub(1)?)?)
}

impl<'q> LeanLog<'q> {
    /// Adds the line of a result that says something new; its number. None where the log is full.
    fn add_told(
        &mut self,
        alloc: Global,
        limit: usize,
        line: Line,
    ) -> Result<Option<LineId>, AllocError>
        requires stands { stands self.old.instances self.old.own self.old.log line ≡ Ok line }
        requires says { SaysNew self.old.instances self.old.log line }
        requires founds { founds_something line ≡ false }
        ensures extends { Extends limit self.old self.new }
        ensures told { OnOk result (IsToldBy limit self.old (made_of line) self.new) }
    {
        self.append(alloc, limit, line)
    }

    /// A line that says that the class of a binding's result is the same as another, which the rule gives; where they are known to be, its top line.
    fn unite_with(
        &mut self,
        alloc: Global,
        limit: usize,
        binding: Binding,
        given: &RuleResult,
        other: ClassId,
    ) -> Result<Option<LineId>, AllocError>
        requires class { given.now.shape ≡ shape_.Class other }
        requires result { IsResult self.old.instances self.old.own self.old.log binding given.now.class given.now.shape }
        ensures extends { Extends limit self.old self.new }
        ensures told { OnOk result (ClassTold limit self.old given.now self.new) }
    {
        if self.log().are_same(given.class, other) {
            return Ok(Some(binding.lines.top()));
        }
        let step = step_of(alloc, binding, &[])?;
        self.add_told(alloc, limit, Line::Unites(given.class, other, step))
    }

    /// A line with a binding's result, once it is spelt: a new one of its class; where another class has it, a line says that the two are the same.
    fn add_spelt(
        &mut self,
        alloc: Global,
        limit: usize,
        binding: Binding,
        given: &RuleResult,
        spelt: Spelt,
    ) -> Result<Option<LineId>, AllocError>
        requires result { IsResult self.old.instances self.old.own self.old.log binding given.now.class given.now.shape }
        requires spelt { IsSpelt self.old.instances self.old.own self.old.log given.now.shape spelt.expr spelt.makes.items }
        ensures extends { Extends limit self.old self.new }
        ensures told { OnOk result (ResultTold limit self.old given.now spelt self.new) }
    {
        let Spelt { expr, makes } = spelt;
        let _replays = self.log().lines();
        let Some(Member { line, class }) = self.line_with(alloc, &expr)? else {
            let step = step_of(alloc, binding, makes.as_slice())?;
            return self.add_told(alloc, limit, Line::Adds(given.class, step, expr));
        };
        if self.log().are_same(given.class, class) {
            return Ok(Some(line));
        }
        let mut spelt = Vec::new(alloc);
        spelt.push(line)?;
        spelt.extend_from_slice(makes.as_slice())?;
        let step = step_of(alloc, binding, spelt.as_slice())?;
        let added = self.add_told(alloc, limit, Line::Unites(given.class, class, step))?;
        Ok(added.map(|_| line))
    }

    /// Whether, of so many lines, there is room for all operators of a rule's result. Of those that lines have already fewer come in.
    pub fn has_room(&self, limit: usize, given: &RuleResult) -> bool
        ensures { IsTrue result ↔ (operator_count given.now.shape + length self.now.log ≤ limit) }
    {
        match limit.checked_sub(self.log().len()) {
            Some(room) => room_behind(&given.shape, room).is_some(),
            None => false,
        }
    }

    /// A line with what the rule of a binding gives, of which the inner expressions are looked up or founded while there are fewer lines than so many. None
    /// where the log is full before.
    pub fn add_given(
        &mut self,
        alloc: Global,
        limit: usize,
        binding: Binding,
        given: &RuleResult,
    ) -> Result<Option<LineId>, AllocError>
        requires { given_by_binding self.old.instances self.old.log binding ≡ Some given.now }
        ensures extends { Extends limit self.old self.new }
        ensures fills { OnOk result (FillsLean limit self.old self.new) }
        ensures lean { OnOk result (operator_count given.now.shape + length self.old.log ≤ limit → GrowsLean limit self.old self.new) }
        ensures added { OnOk result (length self.old.log < limit → Stands self.old given.now ⊎ (length self.old.log < length self.new.log)) }
    {
        result_may_stand(self.log(), binding);
        results_are_shallow();
        let _replays = self.log().lines();
        if let Shape::Class(other) = &given.shape {
            return self.unite_with(alloc, limit, binding, given, *other);
        }
        match self.spell(alloc, limit, &given.shape) {
            Ok(spelt) => {
                let _spelt = self.log().lines();
                self.add_spelt(alloc, limit, binding, given, spelt)
            }
            Err(Unadded::Refused) => Ok(None),
            Err(Unadded::Memory) => Err(AllocError),
        }
    }
}
