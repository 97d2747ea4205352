//! Texts one after another in one string.

ghost use Rattle.std.specs.Prelude.{◌≡◌, ◌∷◌, ◌++◌, ◌<◌, ◌≤◌, [], length, slice_index_or, OnErr, OnOk, ℕ, List};
ghost use Rattle.store.specs.Texts as spec;

use crate::ends::Ends;
use std::alloc::{AllocError, Global};
use std::marker::Model;

/// A list of texts, kept as their bytes in a row and the place where each of them ends.
#[derive(Drop)]
pub struct Texts {
    alloc: Global,
    joined: String,
    ends: Ends,
}

impl Model for Texts {
    ghost use Rattle.std.specs.Prelude.{List, ℕ, string_bytes};
    ghost use Rattle.store.specs.Texts.{texts_of, AreEnds};

    ghost Value = { List (List ℕ) };

    ghost view = { λ t. texts_of (string_bytes t.joined) t.ends };

    ghost invariant = { λ t. AreEnds (string_bytes t.joined) t.ends };
}

/// Where the text with this number begins.
fn start_of(ends: &Ends, number: usize) -> usize
    requires { number ≤ length ends.now }
    ensures { result ≡ spec.start_of ends.now number }
{
    if number == 0 { 0 } else { ends.at(number - 1) }
}

impl Texts {
    pub fn new(alloc: Global) -> Texts
        ensures { result ≡ [] }
    {
        Texts {
            alloc,
            joined: String::new(alloc),
            ends: Ends::new(alloc),
        }
    }

    pub fn push(&mut self, text: &str) -> Result<(), AllocError>
        ensures ok { OnOk result (self.new ≡ self.old ++ text.now ∷ []) }
        ensures err { OnErr result (self.new ≡ self.old) }
    {
        let Some(end) = self.joined.len().checked_add(text.len()) else {
            return Err(AllocError);
        };
        self.ends.push(self.alloc, end)?;
        if self.joined.push_str(text).is_err() {
            self.ends.pop();
            return Err(AllocError);
        }
        Ok(())
    }

    /// Takes the last text off.
    pub fn pop(&mut self)
        ensures { (texts : List (List ℕ)) (last : List ℕ) → self.old ≡ texts ++ last ∷ [] → self.new ≡ texts }
    {
        if let Some(_) = self.ends.pop() {
            let start = start_of(&self.ends, self.ends.len());
            self.joined.truncate(start);
        }
    }

    /// The text with this number.
    pub fn text(&self, number: usize) -> &str
        requires { number < length self.now }
        ensures { result.now ≡ slice_index_or self.now number [] }
    {
        let start = start_of(&self.ends, number);
        &self.joined[start..self.ends.at(number)]
    }
}
