//! The words of a line, read one after the other.

ghost use Rattle.std.specs.Prelude.{◌≡◌, List, map, true, false, IfOk};
ghost use Rattle.certificate_read.specs.WordReading as spec;
ghost use Rattle.certificate_read.specs.Wordings.{left_words, EndsLine, PassesWord, ReadsWords};

use crate::line_fault::LineFault;
use algebra::{Aggregations, Columns, Conjuncts};
use certificate_text::MOST_NESTED;
use certificate_text::aggregates::aggregations;
use certificate_text::column_lists::columns;
use certificate_text::conjunct_lists::conjuncts;
use certificate_text::numbers::{number, numbers};
use derivation::Numbers;
use std::alloc::{AllocError, Global};

/// The words of a line, which single spaces stand between.
pub fn words_of(alloc: Global, line: &str) -> Result<Vec<&str>, AllocError>
    ensures { IfOk result (λ words. map (λ word. word.now) words.items ≡ spec.words_in line.now) }
{
    line.split(' ').collect(alloc)
}

/// The words of a line that are still to be read. A number past its range is read as any value: the line is refused for it once it has
/// its form.
#[derive(Drop)]
pub struct Words<'a> {
    pub left: &'a [&'a str],
    /// Whether no number so far was past its range.
    pub in_range: bool,
}

impl<'a> Words<'a> {
    pub fn of(words: &'a [&'a str]) -> Words<'a>
        ensures left { left_words result ≡ map (λ word. word.now) words.now }
        ensures in_range { result.in_range ≡ true }
    {
        Words {
            left: words,
            in_range: true,
        }
    }

    pub fn word(&mut self) -> Result<&'a str, LineFault>
        ensures { PassesWord (λ w. w.now) self.old self.new result }
    {
        match self.left {
            [word, left @ ..] => {
                self.left = left;
                Ok(*word)
            }
            [] => Err(LineFault::OtherForm),
        }
    }

    /// That the line ends here. It is refused for the limit that it isn't within, and else for a number past its range.
    pub fn end(self, is_within: bool) -> Result<(), LineFault>
        ensures { EndsLine self.entry is_within result }
    {
        if !self.left.is_empty() {
            return Err(LineFault::OtherForm);
        }
        if !is_within {
            return Err(LineFault::OverLimit);
        }
        if self.in_range {
            Ok(())
        } else {
            Err(LineFault::OutOfRange)
        }
    }

    /// Notes that a number is past its range.
    pub fn passes_range(&mut self)
        ensures left { left_words self.new ≡ left_words self.old }
        ensures in_range { self.new.in_range ≡ false }
    {
        self.in_range = false;
    }

    pub fn number(&mut self) -> Result<u32, LineFault>
        ensures { ReadsWords spec.number_wording (λ x. x) self.old self.new result }
    {
        match number(self.word()?)? {
            Some(number) => Ok(number),
            None => {
                self.passes_range();
                Ok(0)
            }
        }
    }

    pub fn numbers(&mut self, alloc: Global) -> Result<Numbers, LineFault>
        ensures { ReadsWords spec.numbers_wording (λ x. x) self.old self.new result }
    {
        match numbers(alloc, self.word()?)? {
            Some(numbers) => Ok(Numbers::from_slice(alloc, numbers.as_slice())?),
            None => {
                self.passes_range();
                Ok(Numbers::none())
            }
        }
    }

    pub fn columns(&mut self, alloc: Global) -> Result<Columns, LineFault>
        ensures { ReadsWords spec.columns_wording (λ x. x) self.old self.new result }
    {
        match columns(alloc, self.word()?)? {
            Some(columns) => Ok(columns),
            None => {
                self.passes_range();
                Ok(Columns::from_vec(Vec::new(alloc)))
            }
        }
    }

    pub fn aggregations(&mut self, alloc: Global) -> Result<Aggregations, LineFault>
        ensures { ReadsWords spec.aggregations_wording (λ x. x) self.old self.new result }
    {
        match aggregations(alloc, self.word()?)? {
            Some(added) => Ok(added),
            None => {
                self.passes_range();
                Ok(Aggregations::of(alloc, &[])?)
            }
        }
    }

    pub fn conjuncts(&mut self, alloc: Global) -> Result<Conjuncts, LineFault>
        ensures { ReadsWords spec.conjuncts_wording (λ x. x) self.old self.new result }
    {
        match conjuncts(alloc, self.word()?, MOST_NESTED)? {
            Some(conjuncts) => Ok(conjuncts),
            None => {
                self.passes_range();
                Ok(Conjuncts::none(alloc))
            }
        }
    }

    /// The conditions and the two classes of a join.
    pub fn sides(&mut self, alloc: Global) -> Result<(Conjuncts, u32, u32), LineFault>
        ensures { ReadsWords spec.sides_wording (λ s. (s.0, s.1.0, s.1.1)) self.old self.new result }
    {
        let conjuncts = self.conjuncts(alloc)?;
        let left = self.number()?;
        Ok((conjuncts, left, self.number()?))
    }
}
