//! Lists of conjuncts: no ANDs, in rising order of their texts.

ghost use Rattle.std.specs.Prelude.{◌≡◌, ◌+◌, ◌<◌, ◌≤◌, ◌++◌, [], ◌==◌, codes, true, false, Ok, Some, None, map, IfOk, MatchBool};
ghost use Rattle.std.specs.List.{slice_split};
ghost use Rattle.std.specs.Ordering.{nat_cmp, is_lt};
ghost use Rattle.std.specs.Cmp.Lexicographic.{slice_cmp};
ghost use Rattle.std.specs.Option.{option_map};
ghost use Rattle.values.specs.Faults.{Gives};
ghost use Rattle.algebra.specs.ConjunctOrder.{AreRising};
ghost use Rattle.certificate_text.specs.ListReading as spec;
ghost use Rattle.certificate_text.specs.PartTexts.{Text};

use crate::conditions::Cursor;
use crate::part_fault::{PartFault, PartReason};
use algebra::{Condition, Conjuncts};
use std::alloc::{AllocError, Global};
use values::Items;

/// Whether a condition is an AND, by its text.
fn is_and(text: &str) -> bool
    ensures { MatchBool result ((rest : Text) × (text.now ≡ codes "and(" ++ rest)) ((rest : Text) → text.now ≡ codes "and(" ++ rest → ⊥) }
{
    text.starts_with("and(")
}

/// Whether the first of two texts is before the second.
fn is_before(first: &str, second: &str) -> bool
    ensures { result ≡ is_lt (slice_cmp nat_cmp first.now second.now) }
{
    first < second
}

/// What stands behind the condition of a part.
fn end_of(place: usize, parts: usize) -> &'static str
    requires { place < parts }
    ensures inner { place + 1 < parts → result.now ≡ [] }
    ensures last { parts ≤ place + 1 → result.now ≡ codes "]" }
{
    if place + 1 < parts { "" } else { "]" }
}

/// What is read of a list so far.
#[derive(Drop)]
struct Rising<'a> {
    conditions: Items<Condition>,
    last: &'a str,
    in_range: bool,
}

impl<'a> Rising<'a> {
    /// Reads one more condition, behind which this stands.
    fn add(&mut self, alloc: Global, part: &'a str, end: &str, room: usize) -> Result<(), PartFault>
        ensures { spec.AddsConjunct room part.now end.now self.old self.new result }
    {
        let mut cursor = Cursor::at(part);
        let condition = cursor.condition(alloc, room)?;
        if cursor.left != end {
            return Err(PartReason::OtherForm.into());
        }
        let Some(text) = part.strip_suffix(end) else {
            return Err(PartReason::OtherForm.into());
        };
        if is_and(text) || !is_before(self.last, text) {
            return Err(PartReason::OtherForm.into());
        }
        self.conditions.push(condition)?;
        self.last = text;
        self.in_range = self.in_range && cursor.in_range;
        Ok(())
    }

    fn into_conjuncts(self, alloc: Global) -> Result<Option<Conjuncts>, PartFault>
        ensures whole { AreRising self.entry.conditions → self.entry.in_range ≡ true → Gives (option_map (λ c. c)) result (Ok (Some self.entry.conditions)) }
        ensures past { self.entry.in_range ≡ false → result ≡ Ok None }
    {
        if !self.in_range {
            return Ok(None);
        }
        match Conjuncts::from_rising(alloc, self.conditions)? {
            Some(conjuncts) => Ok(Some(conjuncts)),
            None => Err(PartReason::OtherForm.into()),
        }
    }
}

/// The parts of a list.
fn parts_of(alloc: Global, list: &str) -> Result<Vec<&str>, AllocError>
    ensures { IfOk result (λ parts. map (λ part. part.now) parts.items ≡ slice_split (λ b. b == 59) list.now) }
{
    list.split(';').collect(alloc)
}

/// The conjuncts of the parts of a list.
fn each_conjunct(alloc: Global, parts: &[&str], room: usize) -> Result<Option<Conjuncts>, PartFault>
    ensures { spec.ReadsList (spec.SpellEachAny room) (spec.IsOneTooDeep room) (map (λ part. part.now) parts.now) (λ c. c) result }
{
    let mut read = Rising {
        conditions: Items::new(alloc),
        last: "",
        in_range: true,
    };
    for place in 0..parts.len() {
        read.add(alloc, parts[place], end_of(place, parts.len()), room)?;
    }
    read.into_conjuncts(alloc)
}

/// The conjuncts of a list, in each of which no more conditions stand in one another than there is room for; `None` where a number is
/// past its range.
pub fn conjuncts(alloc: Global, list: &str, room: usize) -> Result<Option<Conjuncts>, PartFault>
    ensures { spec.ReadsConjuncts room list.now (λ c. c) result }
{
    if list == "[]" {
        return Ok(Some(Conjuncts::none(alloc)));
    }
    let Some(inside) = list.strip_prefix('[') else {
        return Err(PartReason::OtherForm.into());
    };
    let parts = parts_of(alloc, inside)?;
    each_conjunct(alloc, parts.as_slice(), room)
}
