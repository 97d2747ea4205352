//! Conditions, read from left to right.

ghost use Rattle.std.specs.Prelude.{◌≡◌, ◌<◌, ◌++◌, ◌⊎◌, true, MatchBool, MatchOption};
ghost use Rattle.values.specs.declared.truth.Comparison.{Comparison};
ghost use Rattle.algebra.specs.declared.condition.Condition.TheVariants as condition;
ghost use Rattle.algebra.specs.ConjunctOrder.{comparison_text};
ghost use Rattle.certificate_text.specs.declared.conditions.Form.{Form};
ghost use Rattle.certificate_text.specs.Conditions.{form_text};
ghost use Rattle.certificate_text.specs.ConditionReading as spec;
ghost use Rattle.certificate_text.specs.PartTexts.{Text};
ghost use Rattle.certificate_text.specs.Parts.{IsShort};
ghost use Rattle.certificate_text.specs.Spelled.{IsShortTerm};
ghost use Rattle.std.specs.List.{AllByRecursion};

use crate::numbers::number;
use crate::part_fault::{PartFault, PartReason};
use crate::terms::term;
use algebra::{Condition, Term};
use std::alloc::Global;
use values::{Boxed, Comparison, Items, Literal};

/// What a condition is, by what stands before its parenthesis.
#[derive(Drop)]
enum Form {
    Not,
    And,
    Or,
    IsNull,
    Exists,
    In,
    Compare(Comparison),
}

fn named_comparison(name: &str) -> Option<Comparison>
    ensures { MatchOption result ((op : Comparison) → name.now ≡ comparison_text op → ⊥) (λ op. name.now ≡ comparison_text op) }
{
    match name {
        "=" => Some(Comparison::Equal),
        "<>" => Some(Comparison::NotEqual),
        "<" => Some(Comparison::Less),
        "<=" => Some(Comparison::LessOrEqual),
        ">" => Some(Comparison::Greater),
        ">=" => Some(Comparison::GreaterOrEqual),
        _ => None,
    }
}

fn named_form(name: &str) -> Option<Form>
    ensures { MatchOption result ((form : Form) → name.now ≡ form_text form → ⊥) (λ form. name.now ≡ form_text form) }
{
    match name {
        "not" => Some(Form::Not),
        "and" => Some(Form::And),
        "or" => Some(Form::Or),
        "null" => Some(Form::IsNull),
        "exists" => Some(Form::Exists),
        "in" => Some(Form::In),
        _ => match named_comparison(name) {
            Some(comparison) => Some(Form::Compare(comparison)),
            None => None,
        },
    }
}

/// What is still to be read of a condition. A number past its range is read as any value.
#[derive(Drop)]
pub(crate) struct Cursor<'a> {
    pub left: &'a str,
    pub in_range: bool,
}

impl<'a> Cursor<'a> {
    pub(crate) fn at(left: &'a str) -> Cursor<'a>
        ensures left { result.left.now ≡ left.now }
        ensures in_range { result.in_range ≡ true }
    {
        Cursor {
            left,
            in_range: true,
        }
    }

    /// Whether this stands there; it is passed then.
    fn passes(&mut self, word: &str) -> bool
        ensures passed { MatchBool result (self.old.left.now ≡ word.now ++ self.new.left.now) (((rest : Text) → self.old.left.now ≡ word.now ++ rest → ⊥) × (self.new.left.now ≡ self.old.left.now)) }
        ensures in_range { self.new.in_range ≡ self.old.in_range }
    {
        match self.left.strip_prefix(word) {
            Some(left) => {
                self.left = left;
                true
            }
            None => false,
        }
    }

    /// Passes what has to stand there.
    fn expect(&mut self, word: &str) -> Result<(), PartFault>
        ensures { spec.Passes (λ t u rest. t ≡ word.now ++ rest) spec.IsAny spec.IsNever (λ u. u) self.old self.new result }
    {
        if self.passes(word) {
            Ok(())
        } else {
            Err(PartReason::OtherForm.into())
        }
    }

    /// What stands before the next such character, which is passed too.
    fn until(&mut self, end: char) -> Result<&'a str, PartFault>
        requires { end < 128 }
        ensures { spec.PassesWord (λ w. w.now) end self.old self.new result }
    {
        match self.left.split_once(end) {
            Some((word, left)) => {
                self.left = left;
                Ok(word)
            }
            None => Err(PartReason::OtherForm.into()),
        }
    }

    /// The number up to the next such character.
    fn number(&mut self, end: char) -> Result<u32, PartFault>
        requires { (end ≡ 44) ⊎ (end ≡ 41) }
        ensures { spec.Passes (spec.BeginsNumber end) IsShort spec.IsNever (λ n. n) self.old self.new result }
    {
        let word = self.until(end)?;
        match number(word)? {
            Some(number) => Ok(number),
            None => {
                self.in_range = false;
                Ok(0)
            }
        }
    }

    /// The term up to the next such character.
    fn term(&mut self, alloc: Global, end: char) -> Result<Term, PartFault>
        requires { (end ≡ 44) ⊎ (end ≡ 41) }
        ensures { spec.Passes (spec.BeginsTerm end) IsShortTerm spec.IsNever (λ t. t) self.old self.new result }
    {
        let word = self.until(end)?;
        match term(alloc, word)? {
            Some(term) => Ok(term),
            None => {
                self.in_range = false;
                Ok(Term::Literal(Literal::null()))
            }
        }
    }

    /// What stands before the parenthesis, which is passed too.
    fn form(&mut self) -> Result<Form, PartFault>
        ensures { spec.Passes spec.BeginsForm spec.IsAny spec.IsNever (λ form. form) self.old self.new result }
    {
        let name = self.until('(')?;
        match named_form(name) {
            Some(form) => Ok(form),
            None => Err(PartReason::OtherForm.into()),
        }
    }

    /// The parts of an AND or an OR, up to its last parenthesis: two, and those behind them.
    #[cycle(conditions)]
    fn parts(
        &mut self,
        alloc: Global,
        room: usize,
    ) -> Result<(Boxed<Condition>, Boxed<Condition>, Items<Condition>), PartFault>
        ensures { spec.Passes (spec.BeginsParts room) spec.AreShortParts (spec.BehindParts room (spec.IsTooDeep room)) (λ parts. parts) self.old self.new result }
    {
        let first = Boxed::new(alloc, self.condition(alloc, room)?)?;
        self.expect(",")?;
        let second = Boxed::new(alloc, self.condition(alloc, room)?)?;
        Ok((first, second, self.more(alloc, room)?))
    }

    /// The parts behind the second one, up to the last parenthesis.
    #[cycle(conditions)]
    fn more(&mut self, alloc: Global, room: usize) -> Result<Items<Condition>, PartFault>
        ensures { spec.Passes (spec.BeginsMore room) (AllByRecursion spec.IsShortCondition) (spec.IsMoreTooDeep room) (λ cs. cs) self.old self.new result }
    {
        let mut more = Items::new(alloc);
        // Each takes a byte at least, and so does the parenthesis.
        for _count in 0..self.left.len() {
            if self.passes(")") {
                return Ok(more);
            }
            self.expect(",")?;
            more.push(self.condition(alloc, room)?)?;
        }
        Err(PartReason::OtherForm.into())
    }

    /// The condition that stands there, with no more conditions in one another than there is room for.
    #[cycle(conditions)]
    pub(crate) fn condition(&mut self, alloc: Global, room: usize) -> Result<Condition, PartFault>
        ensures { spec.PassesCondition room self.old self.new result }
    {
        let Some(room) = room.checked_sub(1) else {
            return Err(PartReason::OverLimit.into());
        };
        match self.form()? {
            Form::Not => {
                let part = Boxed::new(alloc, self.condition(alloc, room)?)?;
                self.expect(")")?;
                Ok(Condition::Not(part))
            }
            Form::And => {
                let (first, second, more) = self.parts(alloc, room)?;
                Ok(Condition::And(first, second, more))
            }
            Form::Or => {
                let (first, second, more) = self.parts(alloc, room)?;
                Ok(Condition::Or(first, second, more))
            }
            Form::IsNull => Ok(Condition::IsNull(self.term(alloc, ')')?)),
            Form::Exists => Ok(Condition::Exists(self.number(')')?)),
            Form::In => self.membership(alloc),
            Form::Compare(comparison) => self.comparison(alloc, comparison),
        }
    }

    /// Whether a term is among the values of a column of a class, behind the parenthesis.
    fn membership(&mut self, alloc: Global) -> Result<Condition, PartFault>
        ensures { spec.Passes spec.BeginsMembership spec.IsShortMembership spec.IsNever (λ x. condition.In x.0 x.1 x.2) self.old self.new result }
    {
        let term = self.term(alloc, ',')?;
        let class = self.number(',')?;
        self.expect("c")?;
        Ok(Condition::In(term, class, self.number(')')?))
    }

    /// The comparison of two terms, behind the parenthesis.
    fn comparison(&mut self, alloc: Global, comparison: Comparison) -> Result<Condition, PartFault>
        ensures { spec.Passes spec.BeginsComparison spec.IsShortComparison spec.IsNever (λ x. condition.Compare comparison x.0 x.1) self.old self.new result }
    {
        let left = self.term(alloc, ',')?;
        Ok(Condition::Compare(comparison, left, self.term(alloc, ')')?))
    }
}
