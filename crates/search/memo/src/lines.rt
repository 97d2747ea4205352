//! A log that grows by lines that say something new, and says of each two lines that have one expression that their classes are the same.

ghost use Rattle.std.specs.Prelude.{◌≡◌, ◌⊎◌, ℕ, ◌<◌, false, nat_le, length, Ok, IfOk, OnOk};
ghost use Rattle.std.specs.List.Sorted.{IsSorted};
ghost use Rattle.std.specs.Ordering.{nat_cmp};
ghost use Rattle.derivation.specs.Replay.{stands};
ghost use Rattle.logs.specs.Members.{is_member, once_if};
ghost use Rattle.logs.specs.Sets.{times};
ghost use Rattle.bindings.specs.Bindings.{GivesBinding};
ghost use Rattle.bindings.specs.Founding.{founds_something};
ghost use Rattle.bindings.specs.Lean.{SaysNew};
ghost use Rattle.lean_logs.specs.Founding.{StandsFor, TellsNew};
ghost use Rattle.lean_logs.specs.Growth.{Extends, FillsLean, GrowsLean};

use crate::congruent::{Congruence, CongruentLines};
use crate::keys::operation_of;
use algebra::{ClassId, Expr, LineId};
use bindings::Binding;
use derivation::Line;
use lean_logs::{LeanLog, Unadded};
use logs::Log;
use props::Fact;
use std::alloc::{AllocError, Global};

/// So many lines are added at most at once that say of two lines that their classes are the same. Others wait for the next line.
const MOST_ALIKE: usize = 100_000;

/// A log whose lines are found by their expressions up to which classes are the same, and which says of each two lines that have one
/// expression so that their classes are the same.
pub struct Memo<'q> {
    log: LeanLog<'q>,
    /// No line is added to a log that holds so many.
    limit: usize,
    /// Whether a result was left out since this limit was set, as there was no room for all of it.
    is_crowded: bool,
    congruent: CongruentLines,
}

// By hand, so that where it is dropped is one call.
impl Drop for Memo<'_> {
    fn drop(self) {
        let Memo {
            log: _,
            limit: _,
            is_crowded: _,
            congruent: _,
        } = self;
    }
}

impl<'q> Memo<'q> {
    /// The lines of a log, and others behind them by which lines that have one expression are of one class. It takes the time of
    /// all conditions, and of what has other groups as classes become the same.
    pub fn of(alloc: Global, log: LeanLog<'q>, limit: usize) -> Result<Memo<'q>, AllocError>
        ensures lean { IfOk result (λ memo. GrowsLean limit log.entry memo.log) }
        ensures limit { IfOk result (λ memo. memo.limit ≡ limit) }
    {
        let mut memo = Memo {
            log,
            limit,
            is_crowded: false,
            congruent: CongruentLines::none(alloc),
        };
        memo.close(alloc)?;
        Ok(memo)
    }

    /// Sets another limit.
    pub fn set_limit(&mut self, limit: usize)
        ensures log { self.new.log ≡ self.old.log }
        ensures limit { self.new.limit ≡ limit }
    {
        self.limit = limit;
        self.is_crowded = false;
    }

    pub fn log(&self) -> &Log<'q>
        ensures { result.now ≡ self.now.log }
    {
        self.log.log()
    }

    pub fn into_log(self) -> Log<'q>
        ensures { result ≡ self.entry.log }
    {
        let Memo {
            log,
            limit: _,
            is_crowded: _,
            congruent: _,
        } = self;
        log.into_log()
    }

    /// Whether the log has as many lines as it may have.
    pub fn is_full(&self) -> bool
        ensures { result ≡ nat_le self.now.limit (length self.now.log.log) }
    {
        self.limit <= self.log().len()
    }

    /// Whether the log is full, or a rule's result was left out since the last limit was set because there was no room for all of it. No clause says so: it
    /// is a hint to whoever explores.
    pub fn is_crowded(&self) -> bool {
        self.is_crowded || self.is_full()
    }

    /// Adds a line, if there is room for it, it may stand and says something new; whether it is added. What follows from it is left to `close`.
    fn append(&mut self, alloc: Global, line: Line) -> Result<bool, AllocError>
        ensures extends { Extends self.old.limit self.old.log self.new.log }
        ensures tells { founds_something line ≡ false → TellsNew self.old.limit self.old.log self.new.log }
        ensures added { OnOk result (length self.old.log.log < self.old.limit → stands self.old.log.instances self.old.log.own self.old.log.log line ≡ Ok line → SaysNew self.old.log.instances self.old.log.log line → length self.old.log.log < length self.new.log.log) }
        ensures limit { self.new.limit ≡ self.old.limit }
    {
        let added = self.log.append(alloc, self.limit, line)?;
        self.congruent.enter_new(alloc, self.log.log())?;
        Ok(added.is_some())
    }

    /// Enters the lines that are new, and adds others that say of two lines with one expression that their classes are the same, and so on for the
    /// lines over these.
    fn close(&mut self, alloc: Global) -> Result<(), AllocError>
        ensures tells { TellsNew self.old.limit self.old.log self.new.log }
        ensures limit { self.new.limit ≡ self.old.limit }
    {
        self.congruent.enter_new(alloc, self.log.log())?;
        for _ in 0..MOST_ALIKE {
            let Some(Congruence { first, second }) = self.congruent.pop() else {
                break;
            };
            let _ = self.append(alloc, Line::Alike(first, second))?;
        }
        Ok(())
    }

    /// Adds a line, if there is room for it, it may stand and says something new; and what follows from it of which classes are the same.
    pub fn add(&mut self, alloc: Global, line: Line) -> Result<(), AllocError>
        ensures extends { Extends self.old.limit self.old.log self.new.log }
        ensures lean { founds_something line ≡ false → GrowsLean self.old.limit self.old.log self.new.log }
        ensures added { OnOk result (length self.old.log.log < self.old.limit → stands self.old.log.instances self.old.log.own self.old.log.log line ≡ Ok line → SaysNew self.old.log.instances self.old.log.log line → length self.old.log.log < length self.new.log.log) }
        ensures limit { self.new.limit ≡ self.old.limit }
    {
        let _ = self.append(alloc, line)?;
        self.close(alloc)
    }

    /// Adds what the rule of a binding gives, behind lines that found what it is made of, as far as there is room; and what follows of which classes are
    /// the same.
    pub fn add_result(&mut self, alloc: Global, binding: Binding) -> Result<(), AllocError>
        requires { GivesBinding self.old.log.instances self.old.log.log binding }
        ensures extends { Extends self.old.limit self.old.log self.new.log }
        ensures fills { OnOk result (FillsLean self.old.limit self.old.log self.new.log) }
        ensures added { OnOk result (length self.old.log.log < self.old.limit → StandsFor self.old.log binding ⊎ (length self.old.log.log < length self.new.log.log)) }
        ensures limit { self.new.limit ≡ self.old.limit }
    {
        let Some(given) = binding.given(alloc, self.log())? else {
            unreachable!()
        };
        let _ = self.log.add_given(alloc, self.limit, binding, &given)?;
        self.close(alloc)
    }

    /// A line of what the rule of a binding gives at its lines, of the first one's class or of one that is the same: a new one directly behind the
    /// lines that found what it is made of, unless it is there up to which classes are the same. Where another class has it, a line says that the
    /// two are the same. Where the rule gives a class, the line is one that says that the two are the same; where they were, it is the first of
    /// these lines. None where the rule doesn't fit, or the log has no room for all of what it gives.
    pub fn apply(&mut self, alloc: Global, binding: Binding) -> Result<Option<LineId>, AllocError>
        ensures extends { Extends self.old.limit self.old.log self.new.log }
        ensures lean { OnOk result (GrowsLean self.old.limit self.old.log self.new.log) }
        ensures limit { self.new.limit ≡ self.old.limit }
    {
        let Some(given) = binding.given(alloc, self.log())? else {
            return Ok(None);
        };
        let there = self.congruent.result_line(alloc, self.log.log(), &given)?;
        if there.is_some() {
            return Ok(there);
        }
        if !self.log.has_room(self.limit, &given) {
            self.is_crowded = true;
            return Ok(None);
        }
        let line = self.log.add_given(alloc, self.limit, binding, &given)?;
        self.close(alloc)?;
        Ok(line)
    }

    /// The class of an expression, up to which classes are the same; a new one where no line has it, none where the log refuses it.
    pub fn intern(&mut self, alloc: Global, expr: Expr) -> Result<Option<ClassId>, AllocError>
        ensures extends { Extends self.old.limit self.old.log self.new.log }
        ensures limit { self.new.limit ≡ self.old.limit }
    {
        let found = self
            .congruent
            .look_up(alloc, self.log.log(), operation_of(&expr))?;
        if let Some(member) = found {
            return Ok(Some(member.class));
        }
        match self.log.intern(alloc, self.limit, expr) {
            Ok(member) => {
                self.close(alloc)?;
                Ok(Some(member.class))
            }
            Err(Unadded::Refused) => Ok(None),
            Err(Unadded::Memory) => Err(AllocError),
        }
    }

    /// A line of this class, or of one that is the same, with the expression up to which classes are the same, if there is one.
    pub fn line_of(
        &mut self,
        alloc: Global,
        class: ClassId,
        expr: &Expr,
    ) -> Result<Option<LineId>, AllocError>
        ensures log { self.new.log ≡ self.old.log }
        ensures limit { self.new.limit ≡ self.old.limit }
    {
        let found = self
            .congruent
            .look_up(alloc, self.log.log(), operation_of(expr))?;
        match found {
            Some(member) if self.log().are_same(member.class, class) => Ok(Some(member.line)),
            _ => Ok(None),
        }
    }

    /// The lines with an expression of the class, or of one that is the same: each once, rising. None where no line founds it.
    pub fn members(&self, alloc: Global, class: ClassId) -> Result<Vec<LineId>, AllocError>
        ensures exact { IfOk result (λ found. (n : ℕ) → times n found.items ≡ once_if (is_member self.now.log.log class n)) }
        ensures rising { IfOk result (λ found. IsSorted nat_cmp found.items) }
    {
        let mut members = self.log().members(alloc, class)?;
        members.sort_unstable();
        Ok(members)
    }

    /// The lines whose expressions have the class, or one that is the same, as an input or in a condition: each once, rising.
    pub fn parents(&self, class: ClassId) -> Result<Vec<LineId>, AllocError> {
        self.congruent.parents(class)
    }

    /// How many lines there were when something became known last of the class, or of one that is the same: that another is the same, or a fact. 0 where
    /// nothing did.
    pub fn changed_at(&self, class: ClassId) -> usize {
        self.congruent.changed_at(class)
    }

    /// Adds that the fact holds of a class by the line that founds it, unless it is known. Whether it is known now.
    pub fn learn(&mut self, alloc: Global, class: ClassId, fact: Fact) -> Result<bool, AllocError>
        ensures lean { GrowsLean self.old.limit self.old.log self.new.log }
        ensures limit { self.new.limit ≡ self.old.limit }
    {
        if self.log().classes().knows(class, &fact) {
            return Ok(true);
        }
        let added = self.append(alloc, Line::Gives(class, class, fact))?;
        self.close(alloc)?;
        Ok(added)
    }
}
